//! Each form of an expression.

use super::{HERE, NOWHERE, expression, form, int, name, named, one, tells};
use c_resolved::{
    Choice, Denoted, DescriptorMember, DimensionMember, Form, Link, Postfix, PostfixOperator,
    Statement, Target,
};
use c_tree::{AssignOperator, BinaryOperator, PrefixOperator};
use jf_base::Memory;
use std::alloc::Global;

fn parenthesized(alloc: Global, what: Denoted) -> Result<Statement, Memory> {
    form(alloc, Form::Parenthesized(name(alloc, what)?))
}

fn complement(alloc: Global, what: Denoted) -> Result<Statement, Memory> {
    let operand = name(alloc, what)?;
    form(
        alloc,
        Form::Prefix {
            operator: PrefixOperator::Complement,
            operand,
        },
    )
}

fn size_of_value(alloc: Global, what: Denoted) -> Result<Statement, Memory> {
    form(alloc, Form::SizeofExpr(name(alloc, what)?))
}

fn cast(alloc: Global, what: Denoted) -> Result<Statement, Memory> {
    form(alloc, Form::Cast(name(alloc, what)?))
}

fn sum(alloc: Global, what: Denoted) -> Result<Statement, Memory> {
    let link = Link {
        operator: BinaryOperator::Plus,
        right: name(alloc, what)?,
        kind: int(),
        at: 1,
    };
    let first = name(alloc, HERE)?;
    form(
        alloc,
        Form::Chain {
            first,
            links: one(alloc, link)?,
        },
    )
}

fn choice(alloc: Global, test: Denoted, value: Denoted) -> Result<Statement, Memory> {
    let choice = Choice {
        test: name(alloc, test)?,
        value: name(alloc, value)?,
        kind: int(),
        at: 1,
    };
    let otherwise = name(alloc, HERE)?;
    form(
        alloc,
        Form::Conditional {
            choices: one(alloc, choice)?,
            otherwise,
        },
    )
}

fn assignment(alloc: Global, what: Denoted) -> Result<Statement, Memory> {
    let target = Target {
        place: name(alloc, what)?,
        operator: AssignOperator::Plus,
        at: 1,
    };
    let value = expression(alloc, Form::Constant(3))?;
    form(
        alloc,
        Form::Assignment {
            targets: one(alloc, target)?,
            value,
        },
    )
}

fn comma(alloc: Global, what: Denoted) -> Result<Statement, Memory> {
    let first = expression(alloc, Form::Character(b'x'))?;
    let other = name(alloc, what)?;
    form(
        alloc,
        Form::Comma {
            first,
            others: one(alloc, other)?,
        },
    )
}

fn postfix(alloc: Global, operator: PostfixOperator) -> Result<Statement, Memory> {
    let suffix = Postfix {
        operator,
        kind: int(),
        at: 1,
    };
    let operand = name(alloc, Denoted::Global(0))?;
    form(
        alloc,
        Form::Postfix {
            operand,
            suffixes: one(alloc, suffix)?,
        },
    )
}

fn index(alloc: Global, what: Denoted) -> Result<Statement, Memory> {
    postfix(alloc, PostfixOperator::Index(name(alloc, what)?))
}

fn call(alloc: Global, what: Denoted) -> Result<Statement, Memory> {
    postfix(
        alloc,
        PostfixOperator::Call(one(alloc, name(alloc, what)?)?),
    )
}

fn dimension(alloc: Global, what: Denoted) -> Result<Statement, Memory> {
    let index = name(alloc, what)?;
    let member = DimensionMember::Extent;
    postfix(alloc, PostfixOperator::Dimension { index, member })
}

fn member(alloc: Global, structure: u32, member: u32) -> Result<Statement, Memory> {
    postfix(alloc, PostfixOperator::Member { structure, member })
}

fn arrow(alloc: Global, structure: u32, member: u32) -> Result<Statement, Memory> {
    postfix(alloc, PostfixOperator::Arrow { structure, member })
}

#[test]
fn names_denote_what_is_there(rt: HostRuntime) {
    let alloc = rt.alloc();
    assert!(rt; tells(alloc, named(alloc, HERE), named(alloc, NOWHERE)) == Ok(true));
    let (last, next) = (Denoted::Global(1), Denoted::Global(2));
    assert!(rt; tells(alloc, named(alloc, last), named(alloc, next)) == Ok(true));
    let (last, next) = (Denoted::Function(1), Denoted::Function(2));
    assert!(rt; tells(alloc, named(alloc, last), named(alloc, next)) == Ok(true));
    let enumerator = named(alloc, Denoted::Enumerator(-7));
    assert!(rt; tells(alloc, enumerator, form(alloc, Form::String(1))) == Ok(true));
    let text = form(alloc, Form::String(0));
    assert!(rt; tells(alloc, text, named(alloc, NOWHERE)) == Ok(true));
}

#[test]
fn each_operand_is_looked_at(rt: HostRuntime) {
    let alloc = rt.alloc();
    assert!(rt;
        tells(
            alloc,
            parenthesized(alloc, HERE),
            parenthesized(alloc, NOWHERE)
        ) == Ok(true)
    );
    assert!(rt; tells(alloc, complement(alloc, HERE), complement(alloc, NOWHERE)) == Ok(true));
    assert!(rt;
        tells(
            alloc,
            size_of_value(alloc, HERE),
            size_of_value(alloc, NOWHERE)
        ) == Ok(true)
    );
    assert!(rt; tells(alloc, cast(alloc, HERE), cast(alloc, NOWHERE)) == Ok(true));
    assert!(rt; tells(alloc, sum(alloc, HERE), sum(alloc, NOWHERE)) == Ok(true));
    assert!(rt;
        tells(
            alloc,
            choice(alloc, HERE, HERE),
            choice(alloc, NOWHERE, HERE)
        ) == Ok(true)
    );
    assert!(rt;
        tells(
            alloc,
            choice(alloc, HERE, HERE),
            choice(alloc, HERE, NOWHERE)
        ) == Ok(true)
    );
    assert!(rt; tells(alloc, assignment(alloc, HERE), assignment(alloc, NOWHERE)) == Ok(true));
    assert!(rt; tells(alloc, comma(alloc, HERE), comma(alloc, NOWHERE)) == Ok(true));
}

#[test]
fn each_postfix_operator_is_looked_at(rt: HostRuntime) {
    let alloc = rt.alloc();
    assert!(rt; tells(alloc, index(alloc, HERE), index(alloc, NOWHERE)) == Ok(true));
    assert!(rt; tells(alloc, call(alloc, HERE), call(alloc, NOWHERE)) == Ok(true));
    assert!(rt; tells(alloc, dimension(alloc, HERE), dimension(alloc, NOWHERE)) == Ok(true));
    assert!(rt; tells(alloc, member(alloc, 0, 1), member(alloc, 0, 2)) == Ok(true));
    assert!(rt; tells(alloc, member(alloc, 0, 1), member(alloc, 1, 0)) == Ok(true));
    assert!(rt; tells(alloc, arrow(alloc, 0, 0), arrow(alloc, 1, 0)) == Ok(true));
    let rank = postfix(alloc, PostfixOperator::Descriptor(DescriptorMember::Rank));
    assert!(rt; tells(alloc, rank, index(alloc, NOWHERE)) == Ok(true));
    let more = postfix(alloc, PostfixOperator::Increment);
    assert!(rt; tells(alloc, more, index(alloc, NOWHERE)) == Ok(true));
    let less = postfix(alloc, PostfixOperator::Decrement);
    assert!(rt; tells(alloc, less, index(alloc, NOWHERE)) == Ok(true));
}
