//! A small unit that is resolved, and what one wrong number in it does. Names, literals, tokens, locals and the like are counted from 0:
//! the unit has two of each, and one struct of two members, one enumerated type, and one string.

mod expressions;
mod kinds;
mod statements;
mod units;
mod values;

use c_resolved::{
    BlockItem, Content, Denoted, Expr, Form, Function, FunctionDefinition, LibraryFunction,
    Linkage, LinkedDeclaration, LinkedThing, Local, Object, Role, Statement, StringLiteral, Unit,
    is_resolved,
};
use c_types::{CType, Proto, Types};
use jf_base::{List, Memory, Place, Width};
use std::alloc::Global;

// The local that is no parameter, and a local that isn't there.
pub const HERE: Denoted = Denoted::Local(1);

pub const NOWHERE: Denoted = Denoted::Local(2);

pub const PLACE: Place = Place {
    file: 0,
    line: 1,
    column: 1,
};

pub fn int() -> CType {
    CType::Int {
        width: Width::W4,
        signed: true,
        rank: 3,
    }
}

pub fn one<T: Drop>(alloc: Global, item: T) -> Result<List<T>, Memory> {
    let mut items = List::from_vec(Vec::new(alloc));
    items.push(item)?;
    Ok(items)
}

pub fn two<T: Drop>(alloc: Global, first: T, second: T) -> Result<List<T>, Memory> {
    let mut items = one(alloc, first)?;
    items.push(second)?;
    Ok(items)
}

pub fn none<T>(alloc: Global) -> List<T> {
    List::from_vec(Vec::new(alloc))
}

pub fn types(alloc: Global) -> Result<Types, Memory> {
    let mut t = Types::new(alloc)?;
    let members = two(alloc, (0, int()), (1, CType::Char))?.into_vec();
    let s = t.add_struct()?;
    if !t.are_sized(members.as_slice()) || t.struct_size(members.as_slice()).is_none() {
        return Err(Memory);
    }
    t.complete(alloc, s, members)?;
    Ok(t)
}

pub fn string(alloc: Global, literal: u32) -> Result<StringLiteral, Memory> {
    Ok(StringLiteral {
        first: 0,
        others: one(alloc, literal)?,
        at: 1,
    })
}

pub fn object(linkage: Linkage, content: Content) -> Object {
    Object {
        name: 0,
        linkage,
        kind: int(),
        content,
        is_used: true,
        at: 1,
    }
}

pub fn proto(alloc: Global) -> Result<Proto, Memory> {
    Ok(Proto {
        result: int(),
        params: one(alloc, int())?,
    })
}

pub fn function(alloc: Global, role: Role) -> Result<Function, Memory> {
    Ok(Function {
        name: 1,
        linkage: Linkage::External,
        proto: proto(alloc)?,
        role,
        is_used: false,
        at: 0,
    })
}

pub fn functions(alloc: Global) -> Result<List<Function>, Memory> {
    let library = function(alloc, Role::Library(LibraryFunction::Putchar))?;
    two(alloc, library, function(alloc, Role::Defined(0))?)
}

pub fn local(name: u32) -> Local {
    Local {
        name,
        kind: int(),
        at: 1,
    }
}

pub fn definition(alloc: Global, body: List<BlockItem>) -> Result<FunctionDefinition, Memory> {
    Ok(FunctionDefinition {
        function: 1,
        parameters: 1,
        locals: two(alloc, local(0), local(1))?,
        body,
        tokens: 9,
        at: 0,
    })
}

pub fn declared(thing: LinkedThing) -> LinkedDeclaration {
    LinkedDeclaration {
        thing,
        kind: int(),
        is_definition: false,
        at: 0,
    }
}

pub fn bytes(alloc: Global) -> Result<List<List<u8>>, Memory> {
    two(alloc, one(alloc, b'a')?, one(alloc, b'b')?)
}

pub fn unit(alloc: Global, body: List<BlockItem>) -> Result<Unit, Memory> {
    let definition = definition(alloc, body)?;
    Ok(Unit {
        names: bytes(alloc)?,
        literals: bytes(alloc)?,
        places: two(alloc, PLACE, PLACE)?,
        types: types(alloc)?,
        enums: 1,
        strings: one(alloc, string(alloc, 1)?)?,
        objects: two(
            alloc,
            object(Linkage::External, Content::Zero),
            object(Linkage::Absent, Content::Zero),
        )?,
        functions: functions(alloc)?,
        definitions: one(alloc, definition)?,
        declarations: one(alloc, declared(LinkedThing::Object(0)))?,
        static_bytes: 11,
    })
}

pub fn holds(alloc: Global, s: Statement) -> Result<bool, Memory> {
    Ok(is_resolved(&unit(alloc, one(alloc, BlockItem::Statement(s))?)?))
}

// Whether a statement is resolved and another isn't.
pub fn tells(
    alloc: Global,
    good: Result<Statement, Memory>,
    bad: Result<Statement, Memory>,
) -> Result<bool, Memory> {
    let good = holds(alloc, good?)?;
    let bad = holds(alloc, bad?)?;
    Ok(good && !bad)
}

pub fn evaluated(value: Expr) -> Statement {
    Statement::Expression {
        value: Some(value),
        at: 0,
    }
}

pub fn expression(alloc: Global, form: Form) -> Result<Expr, Memory> {
    Ok(Expr::new(alloc, form, int(), 1)?)
}

pub fn name(alloc: Global, what: Denoted) -> Result<Expr, Memory> {
    expression(alloc, Form::Name(what))
}

pub fn form(alloc: Global, form: Form) -> Result<Statement, Memory> {
    Ok(evaluated(expression(alloc, form)?))
}

pub fn named(alloc: Global, what: Denoted) -> Result<Statement, Memory> {
    form(alloc, Form::Name(what))
}
