//! What a program has.

use super::{INTEGER, PLACE, component, defined, function, name, none, one, plain, program};
use f_resolved::{Attributes, Body, DataType, DerivedType, FProgram, Scope, is_resolved};
use jf_base::{List, Memory};
use std::alloc::Global;

fn small(alloc: Global) -> Result<FProgram, Memory> {
    program(alloc, none(alloc))
}

fn with_function(
    alloc: Global,
    dummies: u32,
    returned: Option<u32>,
    host: u32,
) -> Result<bool, Memory> {
    let mut p = small(alloc)?;
    let mut f = function(alloc, defined(alloc))?;
    f.dummies = dummies;
    f.result = returned;
    f.hosts = one(alloc, Scope::Module(host))?;
    p.procedures.push(f)?;
    Ok(is_resolved(&p))
}

#[test]
fn procedures_declare_dummy_arguments_and_results(rt: HostRuntime) {
    let alloc = rt.alloc();
    assert!(rt; with_function(alloc, 1, Some(1), 0) == Ok(true));
    assert!(rt; with_function(alloc, 2, None, 0) == Ok(true));
    assert!(rt; with_function(alloc, 3, None, 0) == Ok(false));
    assert!(rt; with_function(alloc, 2, Some(1), 0) == Ok(false));
    assert!(rt; with_function(alloc, 1, Some(2), 0) == Ok(false));
    assert!(rt; with_function(alloc, 1, Some(1), 1) == Ok(false));
}

fn with_type(alloc: Global, kind: DataType) -> Result<bool, Memory> {
    let mut p = small(alloc)?;
    p.types.push(DerivedType {
        name: name(alloc),
        place: PLACE,
        components: one(alloc, component(alloc, kind, 0)?)?,
    })?;
    Ok(is_resolved(&p))
}

#[test]
fn components_have_earlier_types(rt: HostRuntime) {
    let alloc = rt.alloc();
    assert!(rt; with_type(alloc, DataType::Derived(0)) == Ok(true));
    assert!(rt; with_type(alloc, DataType::Derived(1)) == Ok(false));
    assert!(rt; with_type(alloc, DataType::Assumed) == Ok(false));
    assert!(rt; with_type(alloc, DataType::Procedure(0)) == Ok(false));
}

fn with_attributes(
    alloc: Global,
    attributes: Attributes,
    label: Option<List<u8>>,
) -> Result<bool, Memory> {
    let mut p = small(alloc)?;
    let mut f = function(alloc, Body::Elsewhere)?;
    let mut d = plain(alloc, INTEGER);
    d.attributes = attributes;
    d.label = label;
    f.declarations.push(d)?;
    p.procedures.push(f)?;
    Ok(is_resolved(&p))
}

#[test]
fn attributes_fit_together(rt: HostRuntime) {
    let alloc = rt.alloc();
    assert!(rt; with_attributes(alloc, Attributes(3), None) == Ok(false));
    assert!(rt; with_attributes(alloc, Attributes::POINTER, None) == Ok(true));
    assert!(rt; with_attributes(alloc, Attributes::PARAMETER, None) == Ok(false));
    assert!(rt; with_attributes(alloc, Attributes::BIND_C, None) == Ok(false));
    assert!(rt; with_attributes(alloc, Attributes::BIND_C, Some(none(alloc))) == Ok(true));
    assert!(rt; with_attributes(alloc, Attributes::SAVE, Some(none(alloc))) == Ok(false));
}
