use super::{Exceeded, Fix, FlatExpr, FlatProc, FlatProgram, FlatStmt, Operation, Target, flat_ok};
use jf_base::{Boxed, List};
use std::alloc::{AllocError, Global};
use std::test::Fail;

fn proc(params: u32, values: u32, body: Vec<FlatStmt>) -> FlatProc {
    FlatProc {
        params,
        values,
        charge: 1088,
        body: List::from_vec(body),
    }
}

fn sum(alloc: Global, x: u32, y: u32) -> Result<FlatExpr, AllocError> {
    let left = Boxed::new(alloc, FlatExpr::Value(x))?;
    let right = Boxed::new(alloc, FlatExpr::Value(y))?;
    Ok(FlatExpr::Binary(Operation::Add, left, right))
}

fn one(alloc: Global, e: FlatExpr) -> Result<List<FlatExpr>, AllocError> {
    Ok(List::from_vec(vec![in alloc; e]?))
}

// A procedure that adds its arguments, and an entry that calls it and stops with the sum.
fn adding(
    alloc: Global,
    body: Vec<FlatStmt>,
    image: Vec<u8>,
    fixes: Vec<Fix>,
) -> Result<FlatProgram, AllocError> {
    let add = proc(
        2,
        2,
        vec![in alloc; FlatStmt::Return(one(alloc, sum(alloc, 0, 1)?)?)]?,
    );
    let entry = proc(0, 2, body);
    Ok(FlatProgram {
        procs: List::from_vec(vec![in alloc; add, entry]?),
        image: List::from_vec(image),
        fixes: List::from_vec(fixes),
        entry: 1,
    })
}

fn is_body_ok(alloc: Global, body: Vec<FlatStmt>) -> Result<bool, AllocError> {
    let p = adding(alloc, body, Vec::new(alloc), Vec::new(alloc))?;
    Ok(flat_ok(&p))
}

fn are_fixes_ok(alloc: Global, fixes: Vec<Fix>) -> Result<bool, AllocError> {
    let image = vec![in alloc; 0u8; 24]?;
    let p = adding(alloc, Vec::new(alloc), image, fixes)?;
    Ok(flat_ok(&p))
}

fn set(x: u32) -> FlatStmt {
    FlatStmt::Set(x, FlatExpr::Number(7))
}

fn stop(x: u32) -> FlatStmt {
    FlatStmt::Stop(FlatExpr::Value(x))
}

fn both(alloc: Global, a: FlatStmt, b: FlatStmt) -> Result<List<FlatStmt>, AllocError> {
    Ok(List::from_vec(vec![in alloc; a, b]?))
}

fn only(alloc: Global, a: FlatStmt) -> Result<List<FlatStmt>, AllocError> {
    Ok(List::from_vec(vec![in alloc; a]?))
}

fn call(alloc: Global, x: u32, p: u32) -> Result<FlatStmt, AllocError> {
    let arguments = List::from_vec(vec![in alloc; FlatExpr::Number(3), FlatExpr::Number(4)]?);
    Ok(FlatStmt::Call(List::from_vec(vec![in alloc; x]?), p, arguments))
}

// The first value is set on one side alone.
fn set_on_one_side(alloc: Global) -> Result<FlatStmt, AllocError> {
    let first = only(alloc, set(0))?;
    Ok(FlatStmt::If(FlatExpr::Number(1), first, List::from_vec(Vec::new(alloc))))
}

fn break_of(alloc: Global, k: u32) -> Result<FlatStmt, AllocError> {
    Ok(FlatStmt::Loop(only(alloc, FlatStmt::Loop(only(alloc, FlatStmt::Break(k))?))?))
}

// The first value is set in a loop before the break.
fn set_in_loop(alloc: Global) -> Result<FlatStmt, AllocError> {
    Ok(FlatStmt::Loop(both(alloc, set(0), FlatStmt::Break(0))?))
}

fn are_ok(alloc: Global, a: FlatStmt, b: FlatStmt) -> Result<bool, AllocError> {
    is_body_ok(alloc, vec![in alloc; a, b]?)
}

fn fix(at: u64, target: Target) -> Fix {
    Fix { at, target }
}

#[test]
fn programs_that_hold_together(rt: HostRuntime) -> Result<(), Fail> {
    let called = call(rt.alloc(), 0, 0)?;
    assert!(rt; are_ok(rt.alloc(), called, stop(0))?);
    let in_loop = set_in_loop(rt.alloc())?;
    assert!(rt; are_ok(rt.alloc(), in_loop, stop(0))?);
    let out = break_of(rt.alloc(), 1)?;
    assert!(rt; are_ok(rt.alloc(), out, FlatStmt::Limit(Exceeded::Objects))?);
    Ok(())
}

#[test]
fn values_and_procedures_that_are_not_there(rt: HostRuntime) -> Result<(), Fail> {
    assert!(rt; !are_ok(rt.alloc(), set(2), set(0))?);
    assert!(rt; !are_ok(rt.alloc(), FlatStmt::Give(FlatExpr::Procedure(2)), set(0))?);
    assert!(rt; !are_ok(rt.alloc(), FlatStmt::Give(FlatExpr::Image(1)), set(0))?);
    assert!(rt; are_ok(rt.alloc(), FlatStmt::Give(FlatExpr::Image(0)), set(0))?);
    let called = call(rt.alloc(), 0, 2)?;
    assert!(rt; !are_ok(rt.alloc(), called, set(0))?);
    Ok(())
}

#[test]
fn values_that_are_not_set_first(rt: HostRuntime) -> Result<(), Fail> {
    assert!(rt; !are_ok(rt.alloc(), set(0), stop(1))?);
    let on_one_side = set_on_one_side(rt.alloc())?;
    assert!(rt; !are_ok(rt.alloc(), on_one_side, stop(0))?);
    let left = break_of(rt.alloc(), 1)?;
    assert!(rt; !are_ok(rt.alloc(), left, stop(0))?);
    Ok(())
}

#[test]
fn loops_that_are_not_there(rt: HostRuntime) -> Result<(), Fail> {
    assert!(rt; !are_ok(rt.alloc(), set(0), FlatStmt::Break(0))?);
    let out = break_of(rt.alloc(), 2)?;
    assert!(rt; !are_ok(rt.alloc(), out, set(0))?);
    Ok(())
}

#[test]
fn fixes_lie_apart_in_the_image(rt: HostRuntime) -> Result<(), Fail> {
    let alloc = rt.alloc();
    let two = vec![in alloc; fix(16, Target::Image(24)), fix(8, Target::Proc(1))]?;
    assert!(rt; are_fixes_ok(alloc, two)?);
    let meet = vec![in alloc; fix(9, Target::Image(0)), fix(2, Target::Proc(1))]?;
    assert!(rt; !are_fixes_ok(alloc, meet)?);
    let past = vec![in alloc; fix(17, Target::Image(0))]?;
    assert!(rt; !are_fixes_ok(alloc, past)?);
    let none = vec![in alloc; fix(0, Target::Proc(2))]?;
    assert!(rt; !are_fixes_ok(alloc, none)?);
    Ok(())
}
