//! A small program that is resolved, and what one wrong number in it does.
//!
//! A derived type has an integer and an array of two integers. A module declares a variable of that type, a constant, an array of rank 2
//! and a procedure pointer; it has a function of one dummy argument. A main program has an integer.

mod expressions;
mod programs;
mod statements;

use f_resolved::{
    ArraySpecification, Attributes, Body, Bound, Component, DataType, Declaration, Declared,
    Definition, DerivedType, Dimension, Dimensions, Executable, Expression, FProgram, Form,
    Initial, MainProgram, Module, Named, Procedure, Reference, Scope, Shape, Statement,
    is_resolved,
};
use f_tree::Name;
use jf_base::{Boxed, List, Memory, Place, Width};
use std::alloc::Global;

pub const PLACE: Place = Place {
    file: 0,
    line: 1,
    column: 1,
};

pub const INTEGER: DataType = DataType::Integer(Width::W4);

pub fn in_module(number: u32) -> Declared {
    Declared {
        scope: Scope::Module(0),
        number,
    }
}

pub fn in_program(number: u32) -> Declared {
    Declared {
        scope: Scope::Program(0),
        number,
    }
}

pub fn none<T>(alloc: Global) -> List<T> {
    List::from_vec(Vec::new(alloc))
}

pub fn one<T: Drop>(alloc: Global, item: T) -> Result<List<T>, Memory> {
    let mut items = none(alloc);
    items.push(item)?;
    Ok(items)
}

pub fn name(alloc: Global) -> Name {
    Name {
        bytes: none(alloc),
        place: PLACE,
    }
}

pub fn shape(alloc: Global, rank: u8) -> Result<Shape, Memory> {
    let mut dimensions = Dimensions::new(alloc);
    if rank > 0 {
        dimensions.push(explicit());
    }
    if rank > 1 {
        dimensions.push(explicit());
    }
    if rank == 0 {
        return Ok(Shape::Scalar);
    }
    Ok(Shape::Array(Boxed::new(
        alloc,
        ArraySpecification {
            dimensions,
            tokens: 1,
        },
    )?))
}

fn explicit() -> Dimension {
    Dimension::Explicit {
        lower: Bound::Constant(1),
        upper: Bound::Constant(2),
    }
}

pub fn declaration(
    alloc: Global,
    kind: DataType,
    shape: Shape,
    attributes: Attributes,
) -> Declaration {
    Declaration {
        name: name(alloc),
        place: PLACE,
        kind,
        shape,
        attributes,
        label: None,
        initial: None,
        is_used: false,
    }
}

pub fn plain(alloc: Global, kind: DataType) -> Declaration {
    declaration(alloc, kind, Shape::Scalar, Attributes::TARGET)
}

pub fn component(alloc: Global, kind: DataType, rank: u8) -> Result<Component, Memory> {
    Ok(Component {
        name: name(alloc),
        kind,
        shape: shape(alloc, rank)?,
    })
}

fn derived(alloc: Global) -> Result<DerivedType, Memory> {
    let mut components = one(alloc, component(alloc, INTEGER, 0)?)?;
    components.push(component(alloc, INTEGER, 1)?)?;
    Ok(DerivedType {
        name: name(alloc),
        place: PLACE,
        components,
    })
}

fn constant(alloc: Global) -> Result<Declaration, Memory> {
    let mut d = declaration(alloc, INTEGER, Shape::Scalar, Attributes::PARAMETER);
    let value = number(alloc)?;
    d.initial = Some(Initial::Value(Boxed::new(alloc, value)?));
    Ok(d)
}

fn module(alloc: Global) -> Result<Module, Memory> {
    let mut declarations = one(alloc, plain(alloc, DataType::Derived(0)))?;
    declarations.push(constant(alloc)?)?;
    let matrix = shape(alloc, 2)?;
    declarations.push(declaration(alloc, INTEGER, matrix, Attributes::ALLOCATABLE))?;
    declarations.push(plain(alloc, DataType::Procedure(0)))?;
    Ok(Module {
        name: name(alloc),
        place: PLACE,
        declarations,
    })
}

pub fn function(alloc: Global, body: Body) -> Result<Procedure, Memory> {
    let mut declarations = one(alloc, plain(alloc, INTEGER))?;
    declarations.push(plain(alloc, INTEGER))?;
    Ok(Procedure {
        name: name(alloc),
        place: PLACE,
        label: None,
        hosts: one(alloc, Scope::Module(0))?,
        dummies: 1,
        result: Some(1),
        declarations,
        body,
        is_used: true,
    })
}

pub fn defined(alloc: Global) -> Body {
    Body::Defined(Definition {
        body: none(alloc),
        tokens: 9,
    })
}

pub fn program(alloc: Global, body: List<Statement>) -> Result<FProgram, Memory> {
    let main = MainProgram {
        name: name(alloc),
        place: PLACE,
        declarations: one(alloc, plain(alloc, INTEGER))?,
        body,
        tokens: 5,
    };
    Ok(FProgram {
        types: one(alloc, derived(alloc)?)?,
        modules: one(alloc, module(alloc)?)?,
        procedures: one(alloc, function(alloc, defined(alloc))?)?,
        programs: one(alloc, main)?,
        static_bytes: 16,
    })
}

pub fn expression(alloc: Global, form: Form) -> Result<Expression, Memory> {
    Ok(Expression::new(alloc, form, INTEGER, Some(0), PLACE)?)
}

pub fn number(alloc: Global) -> Result<Expression, Memory> {
    expression(alloc, Form::Integer(1))
}

pub fn whole(alloc: Global, root: Named) -> Reference {
    Reference {
        root,
        subscripts: none(alloc),
        parts: none(alloc),
        substring: None,
    }
}

// Whether the program is resolved whose main program has this statement.
pub fn holds(alloc: Global, form: Executable) -> Result<bool, Memory> {
    let statement = Statement { place: PLACE, form };
    Ok(is_resolved(&program(alloc, one(alloc, statement)?)?))
}

// The same of a PRINT statement with this item.
pub fn prints(alloc: Global, form: Form) -> Result<bool, Memory> {
    let item = expression(alloc, form)?;
    holds(alloc, Executable::Print(one(alloc, item)?))
}
