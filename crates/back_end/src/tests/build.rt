//! Structured code, built.

use flat_ir::{Fix, FlatExpr, FlatProc, FlatProgram, FlatStmt, Operation};
use jf_base::{Boxed, List};
use std::alloc::{AllocError, Global};

/// An operation on two numbers.
pub fn binary(
    alloc: Global,
    o: Operation,
    a: FlatExpr,
    b: FlatExpr,
) -> Result<FlatExpr, AllocError> {
    Ok(FlatExpr::Binary(o, Boxed::new(alloc, a)?, Boxed::new(alloc, b)?))
}

/// A value becomes an operation on itself and a number.
pub fn change(alloc: Global, x: u32, o: Operation, n: FlatExpr) -> Result<FlatStmt, AllocError> {
    Ok(FlatStmt::Set(x, binary(alloc, o, FlatExpr::Value(x), n)?))
}

/// A call of a procedure, whose result goes into a value.
pub fn call(
    alloc: Global,
    x: u32,
    p: u32,
    arguments: Vec<FlatExpr>,
) -> Result<FlatStmt, AllocError> {
    Ok(FlatStmt::Call(
        List::from_vec(vec![in alloc; x]?),
        p,
        List::from_vec(arguments),
    ))
}

/// The end of a procedure with a result.
pub fn give_back(alloc: Global, e: FlatExpr) -> Result<FlatStmt, AllocError> {
    Ok(FlatStmt::Return(List::from_vec(vec![in alloc; e]?)))
}

/// The end of the run with a value as its code.
pub fn stop(x: u32) -> FlatStmt {
    FlatStmt::Stop(FlatExpr::Value(x))
}

/// The first statements where a value isn't 0, else the second.
pub fn choice(x: u32, first: Vec<FlatStmt>, second: Vec<FlatStmt>) -> FlatStmt {
    FlatStmt::If(
        FlatExpr::Value(x),
        List::from_vec(first),
        List::from_vec(second),
    )
}

/// The values from 0 on, so many of them.
pub fn values(alloc: Global, count: u32) -> Result<Vec<FlatExpr>, AllocError> {
    let mut all = Vec::new(alloc);
    for x in 0..count {
        all.push(FlatExpr::Value(x))?;
    }
    Ok(all)
}

/// Sets the values from 0 on to these numbers.
pub fn set_all(alloc: Global, numbers: &[u64]) -> Result<Vec<FlatStmt>, AllocError> {
    let mut body = Vec::new(alloc);
    let mut x = 0u32;
    for n in numbers {
        body.push(FlatStmt::Set(x, FlatExpr::Number(*n)))?;
        x = x.saturating_add(1);
    }
    Ok(body)
}

/// A procedure whose frame is charged so many bytes.
pub fn proc(params: u32, values: u32, charge: u64, body: Vec<FlatStmt>) -> FlatProc {
    FlatProc {
        params,
        values,
        charge,
        body: List::from_vec(body),
    }
}

/// A program, whose entry is its last procedure.
pub fn program(procs: Vec<FlatProc>, image: Vec<u8>, fixes: Vec<Fix>) -> FlatProgram {
    let entry = u32::try_from(procs.len()).unwrap_or(0).saturating_sub(1);
    FlatProgram {
        procs: List::from_vec(procs),
        image: List::from_vec(image),
        fixes: List::from_vec(fixes),
        entry,
    }
}

/// A program of these procedures alone, whose entry is the last of them.
pub fn bare(alloc: Global, procs: Vec<FlatProc>) -> FlatProgram {
    program(procs, Vec::new(alloc), Vec::new(alloc))
}
