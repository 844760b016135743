//! Frames and their limit.

ghost use Rattle.std.specs.Prelude.{◌≤◌};

use super::build::{bare, binary, call, choice, proc, stop};
use super::calls::wide;
use super::runs::{image_of, limits, run};
use flat_ir::{FlatExpr, FlatProc, FlatProgram, FlatStmt, Operation};
use image_run::Ended;
use jf_base::List;
use std::alloc::{AllocError, Global};
use std::test::Fail;

// A procedure that gives a byte, and calls itself so often as its argument says.
fn recursing(alloc: Global) -> Result<FlatProc, AllocError> {
    let less = binary(
        alloc,
        Operation::Sub,
        FlatExpr::Value(0),
        FlatExpr::Number(1),
    )?;
    let again = vec![in alloc; call(alloc, 0, 0, vec![in alloc; less]?)?]?;
    let body = vec![in alloc;
        FlatStmt::Give(FlatExpr::Number(120)),
        choice(0, again, Vec::new(alloc)),
        FlatStmt::Return(List::from_vec(vec![in alloc; FlatExpr::Number(7)]?)),
    ]?;
    Ok(proc(1, 1, 4096, body))
}

// The entry's frame has 1,088 bytes, and each of the others 4,096.
fn recursion(alloc: Global, depth: u64) -> Result<FlatProgram, AllocError> {
    let passed = vec![in alloc; FlatExpr::Number(depth)]?;
    let body = vec![in alloc; call(alloc, 0, 0, passed)?, stop(0)]?;
    Ok(bare(
        alloc,
        vec![in alloc; recursing(alloc)?, proc(0, 1, 1088, body)]?,
    ))
}

// How a recursion ends, and how many bytes it gave, where frames have 4,096 bytes and so many times 16 more.
fn within(alloc: Global, depth: u64, blocks: u32) -> Result<(Ended, usize), Fail>
    requires { blocks ≤ 100000 }
{
    let p = recursion(alloc, depth)?;
    let image = image_of(alloc, &p)?.ok_or("the program doesn't hold together")?;
    let result = run(alloc, &image, limits(blocks), &[])?;
    Ok((result.ended, result.bytes.len()))
}

// Three calls take 1,088 + 3 * 4,096 = 4,096 + 580 * 16 bytes.
#[test]
fn recursion_ends_at_the_limit_of_frames(rt: HostRuntime) -> Result<(), Fail> {
    let alloc = rt.alloc();
    assert_eq!(rt; within(alloc, 2, 580)?, (Ended::Stop(7), 3));
    assert_eq!(rt; within(alloc, 3, 580)?, (Ended::Limited(0), 3));
    assert_eq!(rt; within(alloc, 2, 579)?, (Ended::Limited(0), 2));
    assert_eq!(rt; within(alloc, 0, 68)?, (Ended::Stop(7), 1));
    assert_eq!(rt; within(alloc, 0, 67)?, (Ended::Limited(0), 0));
    Ok(())
}

// An entry that is charged nothing stops with the results of a procedure that is charged nothing, less that of one that is charged.
fn without_charges(alloc: Global) -> Result<FlatProgram, AllocError> {
    let less = binary(
        alloc,
        Operation::Sub,
        FlatExpr::Value(0),
        FlatExpr::Value(1),
    )?;
    let body = vec![in alloc;
        call(alloc, 0, 0, Vec::new(alloc))?,
        call(alloc, 1, 1, Vec::new(alloc))?,
        FlatStmt::Stop(less),
    ]?;
    let seven = vec![in alloc; FlatExpr::Number(7)]?;
    let charged = vec![in alloc;
        call(alloc, 0, 0, Vec::new(alloc))?,
        FlatStmt::Return(List::from_vec(seven)),
    ]?;
    let procs = vec![in alloc;
        wide(alloc, 0)?,
        proc(0, 1, 4096, charged),
        proc(0, 2, 0, body),
    ]?;
    Ok(bare(alloc, procs))
}

// All of the limit is there for the one procedure that is charged.
#[test]
fn an_entry_and_a_routine_are_charged_nothing(rt: HostRuntime) -> Result<(), Fail> {
    let alloc = rt.alloc();
    let image = image_of(alloc, &without_charges(alloc)?)?.ok_or("it doesn't hold together")?;
    let result = run(alloc, &image, limits(0), &[])?;
    // 40 * 100 + 3 * 39 * 40 / 2 - 7
    assert_eq!(rt; result.ended, Ended::Stop(6333));
    Ok(())
}
