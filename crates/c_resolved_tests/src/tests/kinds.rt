//! Types in expressions.

use super::{form, holds, one};
use c_resolved::{Form, Statement};
use c_types::{CType, Proto};
use jf_base::{Boxed, Memory};
use std::alloc::Global;

fn size_of_type(alloc: Global, kind: CType) -> Result<Statement, Memory> {
    form(alloc, Form::SizeofType(kind))
}

fn pointer(alloc: Global, kind: CType) -> Result<CType, Memory> {
    Ok(CType::Pointer(Boxed::new(alloc, kind)?))
}

fn row(alloc: Global, kind: CType) -> Result<CType, Memory> {
    Ok(CType::Array(Boxed::new(alloc, kind)?, 3))
}

fn constant(alloc: Global, kind: CType) -> Result<CType, Memory> {
    Ok(CType::Const(Boxed::new(alloc, kind)?))
}

fn taking(alloc: Global, kind: CType) -> Result<CType, Memory> {
    let proto = Proto {
        result: CType::Void,
        params: one(alloc, kind)?,
    };
    Ok(CType::Function(Boxed::new(alloc, proto)?))
}

fn sized(alloc: Global, kind: Result<CType, Memory>) -> Result<bool, Memory> {
    holds(alloc, size_of_type(alloc, kind?)?)
}

#[test]
fn types_are_known(rt: HostRuntime) {
    let alloc = rt.alloc();
    assert!(rt; sized(alloc, Ok(CType::Struct(0))) == Ok(true));
    assert!(rt; sized(alloc, Ok(CType::Struct(1))) == Ok(false));
    assert!(rt; sized(alloc, Ok(CType::Enum(0))) == Ok(true));
    assert!(rt; sized(alloc, Ok(CType::Enum(1))) == Ok(false));
    assert!(rt; sized(alloc, Ok(CType::Cdesc(15))) == Ok(true));
    assert!(rt; sized(alloc, Ok(CType::Cdesc(16))) == Ok(false));
}

#[test]
fn types_inside_types_are_known(rt: HostRuntime) {
    let alloc = rt.alloc();
    assert!(rt; sized(alloc, pointer(alloc, CType::Struct(0))) == Ok(true));
    assert!(rt; sized(alloc, pointer(alloc, CType::Struct(1))) == Ok(false));
    assert!(rt; sized(alloc, row(alloc, CType::Enum(1))) == Ok(false));
    assert!(rt; sized(alloc, constant(alloc, CType::Enum(1))) == Ok(false));
    assert!(rt; sized(alloc, taking(alloc, CType::Bool)) == Ok(true));
    assert!(rt; sized(alloc, taking(alloc, CType::Struct(1))) == Ok(false));
}
