//! Each form of a statement.

use super::{HERE, NOWHERE, expression, holds, name, named, one, tells};
use c_resolved::{
    BlockItem, Declaration, Denoted, ForStart, Form, Initializer, LocalDeclaration, Statement,
};
use jf_base::{Boxed, Memory};
use std::alloc::Global;

fn boxed(alloc: Global, what: Denoted) -> Result<Boxed<Statement>, Memory> {
    Ok(Boxed::new(alloc, named(alloc, what)?)?)
}

fn block(alloc: Global, what: Denoted) -> Result<Statement, Memory> {
    let inner = BlockItem::Statement(named(alloc, what)?);
    Ok(Statement::Block {
        items: one(alloc, inner)?,
        at: 0,
    })
}

fn chosen(alloc: Global, test: Denoted, otherwise: Denoted) -> Result<Statement, Memory> {
    let test = name(alloc, test)?;
    let body = boxed(alloc, HERE)?;
    Ok(Statement::If {
        test,
        body,
        otherwise: Some(boxed(alloc, otherwise)?),
        at: 0,
    })
}

fn case(alloc: Global, constant: Denoted, what: Denoted) -> Result<Statement, Memory> {
    let constant = name(alloc, constant)?;
    Ok(Statement::Case {
        constant,
        value: -1,
        body: boxed(alloc, what)?,
        at: 0,
    })
}

fn switch(alloc: Global, value: Denoted, what: Denoted) -> Result<Statement, Memory> {
    let value = name(alloc, value)?;
    let body = Statement::Default {
        body: boxed(alloc, what)?,
        at: 0,
    };
    Ok(Statement::Switch {
        value,
        body: Boxed::new(alloc, body)?,
        at: 0,
    })
}

fn while_loop(alloc: Global, test: Denoted, what: Denoted) -> Result<Statement, Memory> {
    let test = name(alloc, test)?;
    Ok(Statement::While {
        test,
        body: boxed(alloc, what)?,
        at: 0,
    })
}

fn do_loop(alloc: Global, test: Denoted, what: Denoted) -> Result<Statement, Memory> {
    let test = name(alloc, test)?;
    Ok(Statement::DoWhile {
        body: boxed(alloc, what)?,
        test,
        at: 0,
    })
}

fn returned(alloc: Global, what: Denoted) -> Result<Statement, Memory> {
    Ok(Statement::Return {
        value: Some(name(alloc, what)?),
        at: 0,
    })
}

pub fn declaration(alloc: Global, local: u32, value: Initializer) -> Result<Declaration, Memory> {
    let declared = LocalDeclaration {
        local,
        value: Some(value),
        at: 0,
    };
    Ok(Declaration {
        locals: one(alloc, declared)?,
        at: 0,
    })
}

fn for_loop(alloc: Global, start: ForStart, step: Denoted) -> Result<Statement, Memory> {
    let step = name(alloc, step)?;
    Ok(Statement::For {
        start,
        test: None,
        step: Some(step),
        body: boxed(alloc, HERE)?,
        at: 0,
    })
}

fn counting(alloc: Global, local: u32, step: Denoted) -> Result<Statement, Memory> {
    let value = Initializer::Value(expression(alloc, Form::Constant(0))?);
    let start = ForStart::Declaration(declaration(alloc, local, value)?);
    for_loop(alloc, start, step)
}

fn starting(alloc: Global, what: Denoted) -> Result<Statement, Memory> {
    let start = ForStart::Expression(Some(name(alloc, what)?));
    for_loop(alloc, start, HERE)
}

#[test]
fn each_part_of_a_statement_is_looked_at(rt: HostRuntime) {
    let alloc = rt.alloc();
    assert!(rt; tells(alloc, block(alloc, HERE), block(alloc, NOWHERE)) == Ok(true));
    assert!(rt;
        tells(
            alloc,
            chosen(alloc, HERE, HERE),
            chosen(alloc, NOWHERE, HERE)
        ) == Ok(true)
    );
    assert!(rt;
        tells(
            alloc,
            chosen(alloc, HERE, HERE),
            chosen(alloc, HERE, NOWHERE)
        ) == Ok(true)
    );
    assert!(rt; tells(alloc, case(alloc, HERE, HERE), case(alloc, NOWHERE, HERE)) == Ok(true));
    assert!(rt; tells(alloc, case(alloc, HERE, HERE), case(alloc, HERE, NOWHERE)) == Ok(true));
    assert!(rt;
        tells(
            alloc,
            switch(alloc, HERE, HERE),
            switch(alloc, NOWHERE, HERE)
        ) == Ok(true)
    );
    assert!(rt;
        tells(
            alloc,
            switch(alloc, HERE, HERE),
            switch(alloc, HERE, NOWHERE)
        ) == Ok(true)
    );
    assert!(rt; tells(alloc, returned(alloc, HERE), returned(alloc, NOWHERE)) == Ok(true));
}

#[test]
fn each_part_of_a_loop_is_looked_at(rt: HostRuntime) {
    let alloc = rt.alloc();
    assert!(rt;
        tells(
            alloc,
            while_loop(alloc, HERE, HERE),
            while_loop(alloc, NOWHERE, HERE)
        ) == Ok(true)
    );
    assert!(rt;
        tells(
            alloc,
            while_loop(alloc, HERE, HERE),
            while_loop(alloc, HERE, NOWHERE)
        ) == Ok(true)
    );
    assert!(rt;
        tells(
            alloc,
            do_loop(alloc, HERE, HERE),
            do_loop(alloc, NOWHERE, HERE)
        ) == Ok(true)
    );
    assert!(rt;
        tells(
            alloc,
            do_loop(alloc, HERE, HERE),
            do_loop(alloc, HERE, NOWHERE)
        ) == Ok(true)
    );
    assert!(rt; tells(alloc, counting(alloc, 1, HERE), counting(alloc, 1, NOWHERE)) == Ok(true));
    assert!(rt; tells(alloc, counting(alloc, 1, HERE), counting(alloc, 2, HERE)) == Ok(true));
    assert!(rt; tells(alloc, starting(alloc, HERE), starting(alloc, NOWHERE)) == Ok(true));
}

#[test]
fn a_parameter_is_not_declared_again(rt: HostRuntime) {
    let alloc = rt.alloc();
    assert!(rt; tells(alloc, counting(alloc, 1, HERE), counting(alloc, 0, HERE)) == Ok(true));
}

#[test]
fn tokens_have_places(rt: HostRuntime) {
    let alloc = rt.alloc();
    assert!(rt; holds(alloc, Statement::Break { at: 1 }) == Ok(true));
    assert!(rt; holds(alloc, Statement::Break { at: 2 }) == Ok(false));
    assert!(rt; holds(alloc, Statement::Continue { at: 1 }) == Ok(true));
    assert!(rt; holds(alloc, Statement::Continue { at: 2 }) == Ok(false));
}
