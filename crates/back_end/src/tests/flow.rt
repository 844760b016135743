//! Choices and loops, and values that are alive across them.

use super::build::{bare, call, change, choice, proc, set_all, stop};
use super::calls::wide;
use super::runs::{end, result_of};
use flat_ir::{Exceeded, FlatExpr, FlatProgram, FlatStmt, Operation};
use image_run::Ended;
use jf_base::List;
use std::alloc::{AllocError, Global};
use std::test::Fail;

// So many statements that each take three instructions and add 1 to the value 1.
fn ones(alloc: Global, count: u32) -> Result<Vec<FlatStmt>, AllocError> {
    let mut body = Vec::new(alloc);
    for _ in 0..count {
        body.push(change(alloc, 1, Operation::Add, FlatExpr::Number(1))?)?;
    }
    Ok(body)
}

// A choice by a byte of the input, whose first side is long, in a loop that is done until a byte is 0.
fn long_choice(alloc: Global, count: u32) -> Result<FlatProgram, AllocError> {
    let first = ones(alloc, count)?;
    let second = vec![in alloc; FlatStmt::Break(0)]?;
    let turn = vec![in alloc; FlatStmt::Take(0), choice(0, first, second)]?;
    let body = vec![in alloc;
        FlatStmt::Set(1, FlatExpr::Number(0)),
        FlatStmt::Loop(List::from_vec(turn)),
        stop(1),
    ]?;
    Ok(bare(alloc, vec![in alloc; proc(0, 2, 1088, body)]?))
}

// A side of more than 4,096 bytes: the conditional branch over it and the jump back are far.
#[test]
fn far_branches_lead_both_ways(rt: HostRuntime) -> Result<(), Fail> {
    let alloc = rt.alloc();
    let p = long_choice(alloc, 1500)?;
    for (input, code) in [
        (b"\x00".as_slice(), 0),
        (b"\x01\x00".as_slice(), 1500),
        (b"aa\x00".as_slice(), 3000),
    ] {
        assert_eq!(rt; result_of(alloc, &p, input)?.ended, Ended::Stop(code));
    }
    Ok(())
}

// The numbers 3, 8, 13 and so on, 40 of them.
fn numbers(alloc: Global) -> Result<Vec<u64>, AllocError> {
    let mut numbers = Vec::new(alloc);
    for x in 0..40u64 {
        numbers.push(5 * x + 3)?;
    }
    Ok(numbers)
}

// A program that sets values to these numbers, calls a procedure with 40 values, and gives its own values.
fn with_values(alloc: Global, numbers: &[u64]) -> Result<FlatProgram, AllocError> {
    let mut body = set_all(alloc, numbers)?;
    body.push(call(alloc, 40, 0, Vec::new(alloc))?)?;
    for x in 0..40u32 {
        body.push(FlatStmt::Give(FlatExpr::Value(x)))?;
    }
    body.push(stop(40))?;
    Ok(bare(
        alloc,
        vec![in alloc; wide(alloc, 1088)?, proc(0, 41, 1088, body)]?,
    ))
}

#[test]
fn forty_values_are_alive_across_a_call(rt: HostRuntime) -> Result<(), Fail> {
    let alloc = rt.alloc();
    let numbers = numbers(alloc)?;
    let result = result_of(alloc, &with_values(alloc, numbers.as_slice())?, &[])?;
    // 40 * 100 + 3 * 39 * 40 / 2
    assert_eq!(rt; result.ended, Ended::Stop(6340));
    assert_eq!(rt; result.bytes.len(), 40);
    for (byte, number) in result.bytes.iter().zip(numbers.as_slice()) {
        assert_eq!(rt; *byte as u64, *number);
    }
    Ok(())
}

// A program of one statement.
fn only(alloc: Global, s: FlatStmt) -> Result<FlatProgram, AllocError> {
    let body = vec![in alloc; s]?;
    Ok(bare(alloc, vec![in alloc; proc(0, 0, 1088, body)]?))
}

#[test]
fn the_limit_of_objects_and_a_code_below_zero(rt: HostRuntime) -> Result<(), Fail> {
    let alloc = rt.alloc();
    let limit = only(alloc, FlatStmt::Limit(Exceeded::Objects))?;
    assert_eq!(rt; end(alloc, &limit)?, Ended::Limited(1));
    let code = only(alloc, FlatStmt::Stop(FlatExpr::Number(0x1_ffff_fff0)))?;
    assert_eq!(rt; end(alloc, &code)?, Ended::Stop(-16));
    Ok(())
}
