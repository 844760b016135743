ghost use Rattle.std.specs.Prelude.{◌≡◌, length, All};
ghost use Rattle.flatten.specs.Paths.{sets, uses_of, end_uses, goes_to, UsesAreSet};
ghost use Rattle.block_homes.specs.Valid.{IsNamed};
ghost use Rattle.reg_alloc.specs.Below as B;

use super::{Assignment, Home, Verdict, assign_all, validate};
use flat_ir::{Exceeded, FlatExpr, FlatProc, FlatProgram, FlatStmt, Operation, flat_ok};
use flatten::{Block, BlockEnd, BlockInsn, BlockProc, flatten};
use jf_base::{Boxed, List, Memory};
use std::alloc::{AllocError, Global};
use std::process::Abort;
use std::test::Fail;

#[tactic(auto, unfolding(crate::specs::Below::below))]
fn are_below(values: &[u32], n: u32) -> bool
    ensures { result ≡ B.below n values.now }
{
    let mut rest = values;
    while let Some((v, tail)) = rest.split_first() {
        if !(*v < n) {
            return false;
        }
        rest = tail;
    }
    true
}

fn uses_below(insn: &BlockInsn, n: u32) -> bool
    ensures { result ≡ B.below n (uses_of insn.now) }
{
    match insn {
        BlockInsn::Number(_, _) => true,
        BlockInsn::Copy(_, y) => *y < n,
        BlockInsn::Binary(_, _, y, z) => *y < n && *z < n,
        BlockInsn::Load(_, _, _, y) => *y < n,
        BlockInsn::Store(_, y, z) => *y < n && *z < n,
        BlockInsn::ProcAddress(_, _) => true,
        BlockInsn::ImageAddress(_, _) => true,
        BlockInsn::Call(_, _, ys) => are_below(ys.as_slice(), n),
        BlockInsn::CallAt(_, y, ys) => *y < n && are_below(ys.as_slice(), n),
        BlockInsn::Take(_) => true,
        BlockInsn::Give(y) => *y < n,
    }
}

fn sets_below(insn: &BlockInsn, n: u32) -> bool
    ensures { result ≡ B.below n (sets insn.now) }
{
    match insn {
        BlockInsn::Number(x, _) => *x < n,
        BlockInsn::Copy(x, _) => *x < n,
        BlockInsn::Binary(_, x, _, _) => *x < n,
        BlockInsn::Load(x, _, _, _) => *x < n,
        BlockInsn::Store(_, _, _) => true,
        BlockInsn::ProcAddress(x, _) => *x < n,
        BlockInsn::ImageAddress(x, _) => *x < n,
        BlockInsn::Call(xs, _, _) => are_below(xs.as_slice(), n),
        BlockInsn::CallAt(xs, _, _) => are_below(xs.as_slice(), n),
        BlockInsn::Take(x) => *x < n,
        BlockInsn::Give(_) => true,
    }
}

#[tactic(auto, unfolding(crate::specs::Below::insns_below))]
fn insns_below(insns: &[BlockInsn], n: u32) -> bool
    ensures { result ≡ B.insns_below n insns.now }
{
    let mut rest = insns;
    while let Some((insn, tail)) = rest.split_first() {
        if !(uses_below(insn, n) && sets_below(insn, n)) {
            return false;
        }
        rest = tail;
    }
    true
}

fn end_uses_below(end: &BlockEnd, n: u32) -> bool
    ensures { result ≡ B.below n (end_uses end.now) }
{
    match end {
        BlockEnd::Jump(_) => true,
        BlockEnd::Branch(y, _, _) => *y < n,
        BlockEnd::Return(ys) => are_below(ys.as_slice(), n),
        BlockEnd::Stop(y) => *y < n,
        BlockEnd::Limit(_) => true,
    }
}

fn goes_below(end: &BlockEnd, m: u32) -> bool
    ensures { result ≡ B.below m (goes_to end.now) }
{
    match end {
        BlockEnd::Jump(b) => *b < m,
        BlockEnd::Branch(_, a, b) => *a < m && *b < m,
        BlockEnd::Return(_) => true,
        BlockEnd::Stop(_) => true,
        BlockEnd::Limit(_) => true,
    }
}

#[tactic(auto, unfolding(crate::specs::Below::blocks_below))]
fn blocks_below(blocks: &[Block], n: u32, m: u32) -> bool
    ensures { result ≡ B.blocks_below n m blocks.now }
{
    let mut rest = blocks;
    while let Some((block, tail)) = rest.split_first() {
        if !(insns_below(block.insns.as_slice(), n)
            && (end_uses_below(&block.end, n) && goes_below(&block.end, m)))
        {
            return false;
        }
        rest = tail;
    }
    true
}

fn is_named(p: &BlockProc, count: u32) -> bool
    requires { count ≡ length p.now.blocks }
    ensures { result ≡ B.is_named p.now }
{
    !(p.values < p.params) && blocks_below(p.blocks.as_slice(), p.values, count)
}

fn is_home(home: &Home, n: u32) -> bool
    ensures { result ≡ B.is_home n home.now }
{
    match home {
        Home::Register(r) => (*r == 8 || *r == 9) || (17 < *r && *r < 28),
        Home::Slot(s) => *s < n,
    }
}

#[tactic(auto, unfolding(crate::specs::Below::all_homes))]
fn all_homes(homes: &[Home], n: u32) -> bool
    ensures { result ≡ B.all_homes n homes.now }
{
    let mut rest = homes;
    while let Some((home, tail)) = rest.split_first() {
        if !is_home(home, n) {
            return false;
        }
        rest = tail;
    }
    true
}

fn are_homes(a: &Assignment, n: u32) -> bool
    ensures { result ≡ B.are_homes n a.now.homes }
{
    a.homes.len() == n as usize && all_homes(a.homes.as_slice(), n)
}

// The verdict, where the conditions of `validate` are met.
fn checked(alloc: Global, p: &BlockProc, a: &Assignment) -> Result<Option<Verdict>, Memory> {
    let Ok(count) = u32::try_from(p.blocks.len()) else {
        return Ok(None);
    };
    if !is_named(p, count) {
        return Ok(None);
    }
    if !are_homes(a, p.values) {
        return Ok(None);
    }
    let verdict = validate(alloc, p, a)?;
    Ok(Some(verdict))
}

fn verdict(alloc: Global, p: &BlockProc, homes: Vec<Home>) -> Result<Option<Verdict>, Memory> {
    let a = Assignment {
        homes: List::from_vec(homes),
    };
    checked(alloc, p, &a)
}

fn block(insns: Vec<BlockInsn>, end: BlockEnd) -> Block {
    Block {
        insns: List::from_vec(insns),
        end,
    }
}

fn proc(params: u32, values: u32, blocks: Vec<Block>) -> BlockProc {
    BlockProc {
        params,
        blocks: List::from_vec(blocks),
        values,
        frame: 0,
    }
}

// Two values that are alive at once.
fn two_values(alloc: Global) -> Result<BlockProc, AllocError> {
    let insns = vec![in alloc;
        BlockInsn::Number(0, 5),
        BlockInsn::Number(1, 6),
        BlockInsn::Give(1),
        BlockInsn::Give(0),
    ]?;
    let only = block(insns, BlockEnd::Stop(1));
    Ok(proc(0, 2, vec![in alloc; only]?))
}

#[test]
fn two_values_with_one_register_are_lost_at_the_use_of_the_first(
    rt: HostRuntime,
) -> Result<(), Fail> {
    let alloc = rt.alloc();
    let p = two_values(alloc)?;
    let shared = vec![in alloc; Home::Register(8), Home::Register(8)]?;
    assert_eq!(rt; verdict(alloc, &p, shared)?, Some(Verdict::No(3)));
    let apart = vec![in alloc; Home::Register(8), Home::Slot(1)]?;
    assert_eq!(rt; verdict(alloc, &p, apart)?, Some(Verdict::Yes));
    let other = vec![in alloc; Home::Register(10), Home::Slot(1)]?;
    assert_eq!(rt; verdict(alloc, &p, other)?, None);
    Ok(())
}

// A block that no path reaches uses a value that nothing sets.
#[test]
fn what_no_path_reaches_is_kept(rt: HostRuntime) -> Result<(), Fail> {
    let alloc = rt.alloc();
    let first = block(vec![in alloc; BlockInsn::Number(0, 5)]?, BlockEnd::Stop(0));
    let second = block(vec![in alloc; BlockInsn::Give(1)]?, BlockEnd::Jump(1));
    let p = proc(0, 2, vec![in alloc; first, second]?);
    let homes = vec![in alloc; Home::Register(8), Home::Register(8)]?;
    assert_eq!(rt; verdict(alloc, &p, homes)?, Some(Verdict::Yes));
    Ok(())
}

// On one side of a choice a value is set, on the other the home gets another value.
#[test]
fn a_use_is_lost_where_one_path_loses_it(rt: HostRuntime) -> Result<(), Fail> {
    let alloc = rt.alloc();
    let choice = block(
        vec![in alloc; BlockInsn::Number(1, 5)]?,
        BlockEnd::Branch(0, 1, 2),
    );
    let left = block(vec![in alloc; BlockInsn::Number(2, 5)]?, BlockEnd::Jump(3));
    let right = block(Vec::new(alloc), BlockEnd::Jump(3));
    let last = block(vec![in alloc; BlockInsn::Give(0)]?, BlockEnd::Stop(1));
    let p = proc(1, 3, vec![in alloc; choice, left, right, last]?);
    let shared = vec![in alloc; Home::Register(8), Home::Register(9), Home::Register(9)]?;
    assert_eq!(rt; verdict(alloc, &p, shared)?, Some(Verdict::No(6)));
    let apart = vec![in alloc; Home::Register(8), Home::Register(9), Home::Register(18)]?;
    assert_eq!(rt; verdict(alloc, &p, apart)?, Some(Verdict::Yes));
    Ok(())
}

// The later of two results with one home stays there.
#[test]
fn results_go_to_their_homes_in_order(rt: HostRuntime) -> Result<(), Fail> {
    let alloc = rt.alloc();
    let results = List::from_vec(vec![in alloc; 0u32, 1u32]?);
    let call = BlockInsn::Call(results, 0, List::from_vec(Vec::new(alloc)));
    let insns = vec![in alloc;
        call,
        BlockInsn::Give(1),
        BlockInsn::Binary(Operation::Add, 2, 1, 0),
    ]?;
    let p = proc(0, 3, vec![in alloc; block(insns, BlockEnd::Stop(2))]?);
    let shared = vec![in alloc; Home::Slot(0), Home::Slot(0), Home::Register(27)]?;
    assert_eq!(rt; verdict(alloc, &p, shared)?, Some(Verdict::No(2)));
    Ok(())
}

// A value that is set before a loop and used in each turn, where another is set behind the use.
#[test]
fn a_use_is_lost_in_the_second_turn_of_a_loop(rt: HostRuntime) -> Result<(), Fail> {
    let alloc = rt.alloc();
    let before = block(vec![in alloc; BlockInsn::Number(0, 5)]?, BlockEnd::Jump(1));
    let turn = block(
        vec![in alloc; BlockInsn::Give(0), BlockInsn::Number(1, 6)]?,
        BlockEnd::Branch(1, 1, 2),
    );
    let behind = block(Vec::new(alloc), BlockEnd::Stop(1));
    let p = proc(0, 2, vec![in alloc; before, turn, behind]?);
    let shared = vec![in alloc; Home::Register(8), Home::Register(8)]?;
    assert_eq!(rt; verdict(alloc, &p, shared)?, Some(Verdict::No(2)));
    let apart = vec![in alloc; Home::Register(8), Home::Register(9)]?;
    assert_eq!(rt; verdict(alloc, &p, apart)?, Some(Verdict::Yes));
    Ok(())
}

// The result of a call goes to the home of its argument, which is used behind it.
#[test]
fn a_call_that_sets_the_home_of_its_argument_loses_it(rt: HostRuntime) -> Result<(), Fail> {
    let alloc = rt.alloc();
    let results = List::from_vec(vec![in alloc; 1u32]?);
    let arguments = List::from_vec(vec![in alloc; 0u32]?);
    let insns = vec![in alloc;
        BlockInsn::Number(0, 5),
        BlockInsn::Call(results, 0, arguments),
        BlockInsn::Give(0),
    ]?;
    let p = proc(0, 2, vec![in alloc; block(insns, BlockEnd::Stop(1))]?);
    let shared = vec![in alloc; Home::Register(27), Home::Register(27)]?;
    assert_eq!(rt; verdict(alloc, &p, shared)?, Some(Verdict::No(2)));
    let apart = vec![in alloc; Home::Register(27), Home::Slot(0)]?;
    assert_eq!(rt; verdict(alloc, &p, apart)?, Some(Verdict::Yes));
    Ok(())
}

// A program that sets so many values, has these statements, and ends at a limit.
fn program(alloc: Global, values: u32, body: Vec<FlatStmt>) -> Result<FlatProgram, AllocError> {
    let mut stmts = Vec::new(alloc);
    for v in 0..values {
        stmts.push(FlatStmt::Set(v, FlatExpr::Number(10)))?;
    }
    for stmt in body {
        stmts.push(stmt)?;
    }
    stmts.push(FlatStmt::Limit(Exceeded::Objects))?;
    let entry = FlatProc {
        params: 0,
        values,
        charge: 0,
        body: List::from_vec(stmts),
    };
    Ok(FlatProgram {
        procs: List::from_vec(vec![in alloc; entry]?),
        image: List::from_vec(Vec::new(alloc)),
        fixes: List::from_vec(Vec::new(alloc)),
        entry: 0,
    })
}

// How many of a procedure's values have slots by `assign_all`, where each verdict is Yes.
fn slots_of(alloc: Global, procs: &[BlockProc]) -> Result<Option<usize>, Memory>
    requires named { All IsNamed procs.now }
    requires set_first { All UsesAreSet procs.now }
{
    let assignments = assign_all(alloc, procs)?;
    let mut slots: usize = 0;
    for (p, a) in procs.iter().zip(assignments.as_slice()) {
        if checked(alloc, p, a)? != Some(Verdict::Yes) {
            return Ok(None);
        }
        for home in a.homes.as_slice() {
            if matches!(home, Home::Slot(_)) {
                slots = slots.saturating_add(1);
            }
        }
    }
    Ok(Some(slots))
}

// None where the program doesn't hold together, or a verdict is No.
fn slots_in(alloc: Global, p: &FlatProgram) -> Result<Option<usize>, Memory> {
    if !flat_ok(p) {
        return Ok(None);
    }
    let q = flatten(alloc, p)?;
    let slots = slots_of(alloc, q.procs.as_slice())?;
    Ok(slots)
}

#[test]
fn of_forty_values_that_are_alive_at_once_at_most_twelve_have_registers(
    rt: HostRuntime,
) -> Result<(), Fail> {
    let alloc = rt.alloc();
    let mut gives = Vec::new(alloc);
    for v in 0..40u32 {
        gives.push(FlatStmt::Give(FlatExpr::Value(v)))?;
    }
    let p = program(alloc, 40, gives)?;
    let slots = slots_in(alloc, &p)?.unwrap_or(0);
    assert!(rt; slots >= 28);
    Ok(())
}

// The counter is set before the loop, and set and used in each turn.
#[test]
fn a_counter_keeps_its_register_across_its_loop(rt: HostRuntime) -> Result<(), Fail> {
    let alloc = rt.alloc();
    let less = FlatExpr::Binary(
        Operation::Sub,
        Boxed::new(alloc, FlatExpr::Value(0))?,
        Boxed::new(alloc, FlatExpr::Number(1))?,
    );
    let turn = List::from_vec(vec![in alloc; FlatStmt::Set(0, less)]?);
    let out = List::from_vec(vec![in alloc; FlatStmt::Break(0)]?);
    let choice = FlatStmt::If(FlatExpr::Value(0), turn, out);
    let body = FlatStmt::Loop(List::from_vec(vec![in alloc; choice]?));
    let p = program(alloc, 1, vec![in alloc; body]?)?;
    assert_eq!(rt; slots_in(alloc, &p)?, Some(0));
    Ok(())
}
