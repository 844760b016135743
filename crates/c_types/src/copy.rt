ghost use Rattle.std.specs.Prelude.{◌≡◌, ◌↔◌, IfOk, IsTrue};

use crate::ctype::{CType, Proto};
use jf_base::{Boxed, List, Memory};
use std::alloc::Global;

/// A copy of a type, which equals it.
#[cycle(copying)]
pub fn copy_type(alloc: Global, c: &CType) -> Result<CType, Memory>
    ensures { IfOk result (λ d. d ≡ c.now) }
{
    Ok(match c {
        CType::Void => CType::Void,
        CType::Bool => CType::Bool,
        CType::Int {
            width,
            signed,
            rank,
        } => CType::Int {
            width: *width,
            signed: *signed,
            rank: *rank,
        },
        CType::Char => CType::Char,
        CType::Enum(n) => CType::Enum(*n),
        CType::Struct(s) => CType::Struct(*s),
        CType::Pointer(x) => CType::Pointer(copy_boxed(alloc, x)?),
        CType::Array(x, n) => CType::Array(copy_boxed(alloc, x)?, *n),
        CType::Function(p) => CType::Function(Boxed::new(alloc, copy_proto(alloc, p.get())?)?),
        CType::Descriptor => CType::Descriptor,
        CType::Cdesc(r) => CType::Cdesc(*r),
        CType::Const(x) => CType::Const(copy_boxed(alloc, x)?),
    })
}

#[cycle(copying)]
fn copy_boxed(alloc: Global, c: &Boxed<CType>) -> Result<Boxed<CType>, Memory>
    ensures { IfOk result (λ d. d ≡ c.now) }
{
    let copy = copy_type(alloc, c.get())?;
    Ok(Boxed::new(alloc, copy)?)
}

/// A copy of a function's result and parameters, which equals it.
#[cycle(copying)]
pub fn copy_proto(alloc: Global, p: &Proto) -> Result<Proto, Memory>
    ensures { IfOk result (λ d. d ≡ p.now) }
{
    let params = copy_all(alloc, p.params.as_slice())?;
    let result = copy_type(alloc, &p.result)?;
    Ok(Proto { result, params })
}

#[cycle(copying)]
fn copy_all(alloc: Global, all: &[CType]) -> Result<List<CType>, Memory>
    ensures { IfOk result (λ d. d ≡ all.now) }
{
    let mut copies = List::from_vec(Vec::new(alloc));
    for x in all {
        copies.push(copy_type(alloc, x)?)?;
    }
    Ok(copies)
}

/// Whether two types are the same, with each struct and enum the same number.
#[cycle(same)]
pub fn same_type(a: &CType, b: &CType) -> bool
    ensures { IsTrue result ↔ (a.now ≡ b.now) }
{
    match (a, b) {
        (CType::Void, CType::Void) => true,
        (CType::Bool, CType::Bool) => true,
        (
            CType::Int {
                width,
                signed,
                rank,
            },
            CType::Int {
                width: width2,
                signed: signed2,
                rank: rank2,
            },
        ) => *width == *width2 && *signed == *signed2 && *rank == *rank2,
        (CType::Char, CType::Char) => true,
        (CType::Enum(m), CType::Enum(n)) => *m == *n,
        (CType::Struct(m), CType::Struct(n)) => *m == *n,
        (CType::Pointer(x), CType::Pointer(y)) => same_type(x.get(), y.get()),
        (CType::Array(x, m), CType::Array(y, n)) => *m == *n && same_type(x.get(), y.get()),
        (CType::Function(x), CType::Function(y)) => same_proto(x.get(), y.get()),
        (CType::Descriptor, CType::Descriptor) => true,
        (CType::Cdesc(m), CType::Cdesc(n)) => *m == *n,
        (CType::Const(x), CType::Const(y)) => same_type(x.get(), y.get()),
        _ => false,
    }
}

/// Whether two functions have the same result and parameters.
#[cycle(same)]
pub fn same_proto(a: &Proto, b: &Proto) -> bool
    ensures { IsTrue result ↔ (a.now ≡ b.now) }
{
    same_type(&a.result, &b.result) && same_all(a.params.as_slice(), b.params.as_slice())
}

#[cycle(same)]
fn same_all(a: &[CType], b: &[CType]) -> bool
    ensures { IsTrue result ↔ (a.now ≡ b.now) }
{
    if a.len() != b.len() {
        return false;
    }
    for i in 0..a.len() {
        if !same_type(&a[i], &b[i]) {
            return false;
        }
    }
    true
}
