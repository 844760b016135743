//! Long programs by their names.

use flat_ir::{Exceeded, FlatExpr, FlatProc, FlatProgram, FlatStmt, Operation};
use jf_base::{Boxed, List};
use std::alloc::{AllocError, Global};

/// What a long program is like.
#[derive(Clone, Copy)]
enum Shape {
    Straight,
    Choices,
    Loops,
    DeepChoices,
    DeepLoops,
    Alive,
    Groups,
    Wide,
    Procedures,
}

fn operation(
    alloc: Global,
    o: Operation,
    a: FlatExpr,
    b: FlatExpr,
) -> Result<FlatExpr, AllocError> {
    Ok(FlatExpr::Binary(o, Boxed::new(alloc, a)?, Boxed::new(alloc, b)?))
}

/// The value x gets one more than y holds.
fn one_more(alloc: Global, x: u32, y: u32) -> Result<FlatStmt, AllocError> {
    let more = operation(
        alloc,
        Operation::Add,
        FlatExpr::Value(y),
        FlatExpr::Number(1),
    )?;
    Ok(FlatStmt::Set(x, more))
}

/// The value x counts down from 10 to 0.
fn count_down(alloc: Global, x: u32, stmts: &mut Vec<FlatStmt>) -> Result<(), AllocError> {
    let less = operation(
        alloc,
        Operation::Sub,
        FlatExpr::Value(x),
        FlatExpr::Number(1),
    )?;
    let turn = vec![in alloc; FlatStmt::Set(x, less)]?;
    let out = vec![in alloc; FlatStmt::Break(0)]?;
    let choice = FlatStmt::If(
        FlatExpr::Value(x),
        List::from_vec(turn),
        List::from_vec(out),
    );
    stmts.push(FlatStmt::Set(x, FlatExpr::Number(10)))?;
    stmts.push(FlatStmt::Loop(List::from_vec(vec![in alloc; choice]?)))?;
    Ok(())
}

/// Each statement sets the next of so many values by the one before.
fn straight(alloc: Global, values: u32, count: u32) -> Result<Vec<FlatStmt>, AllocError> {
    let mut stmts = Vec::new(alloc);
    let mut last = 0;
    for _ in 0..count {
        let next = if last == values { 0 } else { last };
        last = next.saturating_add(1);
        stmts.push(one_more(alloc, next, next)?)?;
    }
    Ok(stmts)
}

/// Loops in a row, with so many counters in turn.
fn loops(alloc: Global, values: u32, count: u32) -> Result<Vec<FlatStmt>, AllocError> {
    let mut stmts = Vec::new(alloc);
    let mut last = 0;
    for _ in 0..count / 5 {
        let next = if last == values { 0 } else { last };
        last = next.saturating_add(1);
        count_down(alloc, next, &mut stmts)?;
    }
    Ok(stmts)
}

/// Choices in a row, each with a statement on both of its sides.
fn choices(alloc: Global, values: u32, count: u32) -> Result<Vec<FlatStmt>, AllocError> {
    let mut stmts = Vec::new(alloc);
    let mut last = 0;
    for _ in 0..count / 3 {
        let next = if last == values { 0 } else { last };
        last = next.saturating_add(1);
        let first = vec![in alloc; one_more(alloc, next, next)?]?;
        let second = vec![in alloc; FlatStmt::Set(next, FlatExpr::Number(1))]?;
        stmts.push(FlatStmt::If(
            FlatExpr::Value(next),
            List::from_vec(first),
            List::from_vec(second),
        ))?;
    }
    Ok(stmts)
}

/// Choices within one another, each with a statement behind it.
fn deep_choices(alloc: Global, count: u32) -> Result<Vec<FlatStmt>, AllocError> {
    let mut stmts = Vec::new(alloc);
    for _ in 0..count / 3 {
        let other = vec![in alloc; one_more(alloc, 0, 0)?]?;
        let choice = FlatStmt::If(
            FlatExpr::Value(0),
            List::from_vec(stmts),
            List::from_vec(other),
        );
        stmts = vec![in alloc; choice, one_more(alloc, 0, 0)?]?;
    }
    Ok(stmts)
}

/// Loops within one another, each of which is left for the outermost one's end.
fn deep_loops(alloc: Global, count: u32) -> Result<Vec<FlatStmt>, AllocError> {
    let mut stmts = Vec::new(alloc);
    let turns = count / 3;
    for k in 0..turns {
        stmts.push(FlatStmt::Break(turns - 1 - k))?;
        stmts = vec![in alloc;
            one_more(alloc, 0, 0)?,
            FlatStmt::Loop(List::from_vec(stmts)),
        ]?;
    }
    Ok(stmts)
}

/// Loops in a row, and then all values that were set before them are used.
fn alive(alloc: Global, values: u32, count: u32) -> Result<Vec<FlatStmt>, AllocError> {
    let mut stmts = loops(alloc, 1, count)?;
    for v in 0..values {
        stmts.push(FlatStmt::Give(FlatExpr::Value(v)))?;
    }
    Ok(stmts)
}

/// Twenty values at a time are set, then used behind a loop.
fn groups(alloc: Global, values: u32, count: u32) -> Result<Vec<FlatStmt>, AllocError> {
    let mut stmts = Vec::new(alloc);
    let mut first: u32 = 0;
    for _ in 0..count / 45 {
        for k in 0..20u32 {
            stmts.push(FlatStmt::Set(first.saturating_add(k), FlatExpr::Number(7)))?;
        }
        count_down(alloc, first, &mut stmts)?;
        for k in 0..20u32 {
            stmts.push(FlatStmt::Give(FlatExpr::Value(first.saturating_add(k))))?;
        }
        first = first.saturating_add(20);
        if first >= values {
            first = 0;
        }
    }
    Ok(stmts)
}

/// One statement, a sum of so many values that are all computed before the first addition.
fn wide(alloc: Global, count: u32) -> Result<Vec<FlatStmt>, AllocError> {
    let mut all = FlatExpr::Value(0);
    for _ in 0..count {
        all = operation(alloc, Operation::Add, FlatExpr::Value(0), all)?;
    }
    Ok(vec![in alloc; FlatStmt::Set(0, all)]?)
}

/// A loop, and a call of the first procedure with all values.
fn calling(alloc: Global, values: u32) -> Result<Vec<FlatStmt>, AllocError> {
    let mut stmts = loops(alloc, 1, 5)?;
    let mut arguments = Vec::new(alloc);
    for v in 0..values {
        arguments.push(FlatExpr::Value(v))?;
    }
    stmts.push(FlatStmt::Call(
        List::from_vec(Vec::new(alloc)),
        0,
        List::from_vec(arguments),
    ))?;
    Ok(stmts)
}

/// A procedure that sets all of its values, has these statements, and ends at a limit.
fn proc_of(alloc: Global, values: u32, body: Vec<FlatStmt>) -> Result<FlatProc, AllocError> {
    let mut stmts = Vec::new(alloc);
    for v in 0..values {
        stmts.push(FlatStmt::Set(v, FlatExpr::Number(10)))?;
    }
    for stmt in body {
        stmts.push(stmt)?;
    }
    stmts.push(FlatStmt::Limit(Exceeded::Objects))?;
    Ok(FlatProc {
        params: 0,
        values,
        charge: 0,
        body: List::from_vec(stmts),
    })
}

fn shape_of(name: &str) -> Option<Shape> {
    if name == "straight" {
        return Some(Shape::Straight);
    }
    if name == "choices" {
        return Some(Shape::Choices);
    }
    if name == "loops" {
        return Some(Shape::Loops);
    }
    if name == "deep_choices" {
        return Some(Shape::DeepChoices);
    }
    if name == "deep_loops" {
        return Some(Shape::DeepLoops);
    }
    if name == "alive" {
        return Some(Shape::Alive);
    }
    if name == "groups" {
        return Some(Shape::Groups);
    }
    if name == "wide" {
        return Some(Shape::Wide);
    }
    if name == "procedures" {
        return Some(Shape::Procedures);
    }
    None
}

/// The statements of a procedure of this shape that has so many values.
fn body_of(
    alloc: Global,
    shape: Shape,
    values: u32,
    count: u32,
) -> Result<Vec<FlatStmt>, AllocError> {
    match shape {
        Shape::Straight => straight(alloc, values, count),
        Shape::Choices => choices(alloc, values, count),
        Shape::Loops => loops(alloc, values, count),
        Shape::DeepChoices => deep_choices(alloc, count),
        Shape::DeepLoops => deep_loops(alloc, count),
        Shape::Alive => alive(alloc, values, count),
        Shape::Groups => groups(alloc, values, count),
        Shape::Wide => wide(alloc, count),
        Shape::Procedures => calling(alloc, values),
    }
}

fn values_of(shape: Shape) -> u32 {
    match shape {
        Shape::Straight => 200,
        Shape::Choices => 20,
        Shape::Loops => 20,
        Shape::DeepChoices => 1,
        Shape::DeepLoops => 1,
        Shape::Alive => 500,
        Shape::Groups => 1000,
        Shape::Wide => 1,
        Shape::Procedures => 10,
    }
}

fn procs_of(alloc: Global, shape: Shape, count: u32) -> Result<Vec<FlatProc>, AllocError> {
    let values = values_of(shape);
    let times = match shape {
        Shape::Procedures => count / 20,
        _ => 1,
    };
    let mut procs = Vec::new(alloc);
    for _ in 0..times.max(1) {
        let body = body_of(alloc, shape, values, count)?;
        let proc = proc_of(alloc, values, body)?;
        procs.push(proc)?;
    }
    Ok(procs)
}

/// The program of this name with about so many statements, if there is one.
pub fn program_of(
    alloc: Global,
    name: &str,
    count: u32,
) -> Result<Option<FlatProgram>, AllocError> {
    let Some(shape) = shape_of(name) else {
        return Ok(None);
    };
    let procs = procs_of(alloc, shape, count)?;
    Ok(Some(FlatProgram {
        procs: List::from_vec(procs),
        image: List::from_vec(Vec::new(alloc)),
        fixes: List::from_vec(Vec::new(alloc)),
        entry: 0,
    }))
}
