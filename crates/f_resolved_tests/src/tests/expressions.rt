//! Forms of expressions.

use super::{in_module, in_program, none, number, one, prints, whole};
use f_resolved::{Argument, Callee, Declared, Form, Named, Part, Scope, Subscript};
use jf_base::{Boxed, List, Memory};
use std::alloc::Global;

fn named(alloc: Global, root: Named) -> Result<bool, Memory> {
    let r = whole(alloc, root);
    prints(alloc, Form::Object(Boxed::new(alloc, r)?))
}

#[test]
fn names_denote_data_objects_of_their_sort(rt: HostRuntime) {
    let alloc = rt.alloc();
    let local = Declared {
        scope: Scope::Procedure(0),
        number: 0,
    };
    assert!(rt; named(alloc, Named::Variable(in_program(0))) == Ok(true));
    assert!(rt; named(alloc, Named::Variable(in_program(1))) == Ok(false));
    assert!(rt; named(alloc, Named::Variable(in_module(0))) == Ok(true));
    assert!(rt; named(alloc, Named::Variable(in_module(1))) == Ok(false));
    assert!(rt; named(alloc, Named::Constant(in_module(1))) == Ok(true));
    assert!(rt; named(alloc, Named::Constant(in_module(0))) == Ok(false));
    assert!(rt; named(alloc, Named::Variable(in_module(3))) == Ok(false));
    assert!(rt; named(alloc, Named::Variable(local)) == Ok(false));
    assert!(rt; named(alloc, Named::OfRank(in_module(2), 2)) == Ok(false));
}

fn subscripts(alloc: Global, count: u8) -> Result<List<Subscript>, Memory> {
    let mut all = none(alloc);
    for _ in 0..count {
        all.push(Subscript::One(number(alloc)?))?;
    }
    Ok(all)
}

fn element(alloc: Global, variable: u32, count: u8) -> Result<bool, Memory> {
    let mut r = whole(alloc, Named::Variable(in_module(variable)));
    r.subscripts = subscripts(alloc, count)?;
    prints(alloc, Form::Object(Boxed::new(alloc, r)?))
}

#[test]
fn subscripts_stand_for_each_dimension(rt: HostRuntime) {
    let alloc = rt.alloc();
    assert!(rt; element(alloc, 2, 2) == Ok(true));
    assert!(rt; element(alloc, 2, 1) == Ok(false));
    assert!(rt; element(alloc, 0, 1) == Ok(false));
}

fn selected(alloc: Global, variable: u32, component: u32, count: u8) -> Result<bool, Memory> {
    let mut r = whole(alloc, Named::Variable(in_module(variable)));
    let part = Part {
        of: 0,
        component,
        subscripts: subscripts(alloc, count)?,
    };
    r.parts = one(alloc, part)?;
    prints(alloc, Form::Object(Boxed::new(alloc, r)?))
}

#[test]
fn components_belong_to_what_stands_before(rt: HostRuntime) {
    let alloc = rt.alloc();
    assert!(rt; selected(alloc, 0, 0, 0) == Ok(true));
    assert!(rt; selected(alloc, 0, 1, 1) == Ok(true));
    assert!(rt; selected(alloc, 0, 0, 1) == Ok(false));
    assert!(rt; selected(alloc, 0, 2, 0) == Ok(false));
    assert!(rt; selected(alloc, 2, 0, 0) == Ok(false));
}

fn structure(alloc: Global, of: u32, count: u8) -> Result<bool, Memory> {
    let mut values = none(alloc);
    for _ in 0..count {
        values.push(number(alloc)?)?;
    }
    prints(alloc, Form::Structure { of, values })
}

#[test]
fn structures_have_a_value_for_each_component(rt: HostRuntime) {
    let alloc = rt.alloc();
    assert!(rt; structure(alloc, 0, 2) == Ok(true));
    assert!(rt; structure(alloc, 0, 1) == Ok(false));
    assert!(rt; structure(alloc, 1, 2) == Ok(false));
}

fn function(alloc: Global, callee: Callee, dummy: u32) -> Result<bool, Memory> {
    let argument = Argument {
        dummy,
        value: number(alloc)?,
    };
    let arguments = one(alloc, argument)?;
    prints(alloc, Form::Function { callee, arguments })
}

#[test]
fn functions_have_dummy_arguments(rt: HostRuntime) {
    let alloc = rt.alloc();
    assert!(rt; function(alloc, Callee::Procedure(0), 0) == Ok(true));
    assert!(rt; function(alloc, Callee::Procedure(0), 1) == Ok(false));
    assert!(rt; function(alloc, Callee::Procedure(1), 0) == Ok(false));
    assert!(rt; function(alloc, Callee::Pointer(in_module(3)), 0) == Ok(true));
    assert!(rt; function(alloc, Callee::Pointer(in_module(0)), 0) == Ok(false));
}
