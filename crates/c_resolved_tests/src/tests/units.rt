//! What a unit has, and programs.

use super::{
    PLACE, bytes, declared, definition, function, local, name, none, object, one, string, two, unit,
};
use c_resolved::{
    Content, Denoted, Function, Initializer, Linkage, LinkedThing, Object, Program, Role, Unit,
    is_program_resolved, is_resolved,
};
use c_types::CType;
use jf_base::{Boxed, List, Memory, Place};
use std::alloc::Global;

fn whole(alloc: Global) -> Result<Unit, Memory> {
    unit(alloc, none(alloc))
}

fn with_function(alloc: Global, function: Function) -> Result<bool, Memory> {
    let mut u = whole(alloc)?;
    u.functions.push(function)?;
    Ok(is_resolved(&u))
}

fn with_role(alloc: Global, role: Role) -> Result<bool, Memory> {
    with_function(alloc, function(alloc, role)?)
}

fn with_linkage(alloc: Global, linkage: Linkage) -> Result<bool, Memory> {
    let mut f = function(alloc, Role::Elsewhere)?;
    f.linkage = linkage;
    with_function(alloc, f)
}

#[test]
fn functions_and_definitions_name_each_other(rt: HostRuntime) {
    let alloc = rt.alloc();
    assert!(rt; with_role(alloc, Role::Elsewhere) == Ok(true));
    assert!(rt; with_role(alloc, Role::Defined(0)) == Ok(false));
    assert!(rt; with_role(alloc, Role::Defined(1)) == Ok(false));
    assert!(rt; with_linkage(alloc, Linkage::Internal) == Ok(true));
    assert!(rt; with_linkage(alloc, Linkage::Absent) == Ok(false));
}

fn with_definition(
    alloc: Global,
    function: u32,
    parameters: u32,
    name: u32,
) -> Result<bool, Memory> {
    let mut u = whole(alloc)?;
    let mut d = definition(alloc, none(alloc))?;
    d.function = function;
    d.parameters = parameters;
    d.locals.push(local(name))?;
    u.definitions = one(alloc, d)?;
    Ok(is_resolved(&u))
}

#[test]
fn parameters_come_first_among_locals(rt: HostRuntime) {
    let alloc = rt.alloc();
    assert!(rt; with_definition(alloc, 1, 1, 1) == Ok(true));
    assert!(rt; with_definition(alloc, 1, 2, 1) == Ok(false));
    assert!(rt; with_definition(alloc, 0, 1, 1) == Ok(false));
    assert!(rt; with_definition(alloc, 2, 1, 1) == Ok(false));
    assert!(rt; with_definition(alloc, 1, 1, 2) == Ok(false));
}

fn with_object(alloc: Global, object: Object) -> Result<bool, Memory> {
    let mut u = whole(alloc)?;
    u.objects.push(object)?;
    Ok(is_resolved(&u))
}

fn object_of(alloc: Global, name: u32, kind: CType) -> Result<bool, Memory> {
    let mut x = object(Linkage::Internal, Content::Elsewhere);
    x.name = name;
    x.kind = kind;
    with_object(alloc, x)
}

fn object_with(alloc: Global, what: Denoted) -> Result<bool, Memory> {
    let value = Initializer::Value(name(alloc, what)?);
    let content = Content::Initial(Boxed::new(alloc, value)?);
    with_object(alloc, object(Linkage::Internal, content))
}

#[test]
fn objects_are_looked_at(rt: HostRuntime) {
    let alloc = rt.alloc();
    assert!(rt; object_of(alloc, 1, CType::Struct(0)) == Ok(true));
    assert!(rt; object_of(alloc, 2, CType::Struct(0)) == Ok(false));
    assert!(rt; object_of(alloc, 1, CType::Struct(1)) == Ok(false));
    assert!(rt; object_with(alloc, Denoted::Function(1)) == Ok(true));
    assert!(rt; object_with(alloc, Denoted::Local(0)) == Ok(false));
}

fn with_declaration(alloc: Global, thing: LinkedThing, kind: CType) -> Result<bool, Memory> {
    let mut u = whole(alloc)?;
    let mut d = declared(thing);
    d.kind = kind;
    u.declarations.push(d)?;
    Ok(is_resolved(&u))
}

#[test]
fn what_is_declared_with_linkage_has_it(rt: HostRuntime) {
    let alloc = rt.alloc();
    assert!(rt; with_declaration(alloc, LinkedThing::Object(0), CType::Char) == Ok(true));
    assert!(rt; with_declaration(alloc, LinkedThing::Object(1), CType::Char) == Ok(false));
    assert!(rt; with_declaration(alloc, LinkedThing::Object(2), CType::Char) == Ok(false));
    assert!(rt; with_declaration(alloc, LinkedThing::Function(1), CType::Char) == Ok(true));
    assert!(rt; with_declaration(alloc, LinkedThing::Function(2), CType::Char) == Ok(false));
    assert!(rt; with_declaration(alloc, LinkedThing::Object(0), CType::Enum(1)) == Ok(false));
}

fn with_string(alloc: Global, literal: u32) -> Result<bool, Memory> {
    let mut u = whole(alloc)?;
    u.strings.push(string(alloc, literal)?)?;
    Ok(is_resolved(&u))
}

// The struct's members have the first two names.
fn with_names(alloc: Global, names: List<List<u8>>) -> Result<bool, Memory> {
    let mut u = whole(alloc)?;
    u.functions = none(alloc);
    u.definitions = none(alloc);
    u.names = names;
    Ok(is_resolved(&u))
}

fn one_name(alloc: Global) -> Result<List<List<u8>>, Memory> {
    one(alloc, one(alloc, b'a')?)
}

#[test]
fn strings_and_members_are_looked_at(rt: HostRuntime) {
    let alloc = rt.alloc();
    assert!(rt; with_string(alloc, 1) == Ok(true));
    assert!(rt; with_string(alloc, 2) == Ok(false));
    match (bytes(alloc), one_name(alloc)) {
        (Ok(both), Ok(first)) => {
            assert!(rt; with_names(alloc, both) == Ok(true));
            assert!(rt; with_names(alloc, first) == Ok(false));
        }
        _ => assert!(rt; false),
    }
}

// The second unit has so many enumerated types, and an object of the first of them.
fn program(alloc: Global, enums: u32) -> Result<bool, Memory> {
    let first = whole(alloc)?;
    let mut second = whole(alloc)?;
    second.enums = enums;
    let mut x = object(Linkage::External, Content::Zero);
    x.kind = CType::Enum(0);
    second.objects.push(x)?;
    Ok(is_program_resolved(&Program {
        units: two(alloc, first, second)?,
    }))
}

#[test]
fn each_unit_of_a_program_is_looked_at(rt: HostRuntime) {
    let alloc = rt.alloc();
    assert!(rt; program(alloc, 1) == Ok(true));
    assert!(rt; program(alloc, 0) == Ok(false));
}

fn place_in(alloc: Global, at: u32) -> Result<Option<Place>, Memory> {
    Ok(whole(alloc)?.place(at))
}

#[test]
fn a_unit_tells_the_places_of_its_tokens(rt: HostRuntime) {
    let alloc = rt.alloc();
    assert!(rt; place_in(alloc, 1) == Ok(Some(PLACE)));
    assert!(rt; place_in(alloc, 2) == Ok(None));
}
