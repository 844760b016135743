//! Code of statements, written from the last to the first.

ghost use Rattle.std.specs.Prelude.{◌≡◌, IfOk, OnOk};
ghost use Rattle.flat_ir.specs.Tree;
ghost use Rattle.flat_ir.specs.View.{expr_of, exprs_of, stmt_of, stmts_of};
ghost use Rattle.flatten.specs.Emission.{emitted, turning, looping, choosing};

use crate::blocks::{BlockEnd, BlockInsn};
use crate::emitter::Emitter;
use crate::expressions::{compute, compute_load, compute_operand, compute_operands, place, places};
use crate::measure::add;
use flat_ir::{Exceeded, FlatExpr, FlatStmt};
use jf_base::{List, Width};
use std::alloc::{AllocError, Global};

fn copy_numbers(alloc: Global, xs: &List<u32>) -> Result<List<u32>, AllocError>
    ensures { IfOk result (λ copy. copy ≡ xs.now) }
{
    let mut copy = Vec::new(alloc);
    copy.extend_from_slice(xs.as_slice())?;
    Ok(List::from_vec(copy))
}

#[tactic(auto, unfolding(crate::specs::Emission::emitted))]
fn emit_set(out: &mut Emitter, x: u32, e: &FlatExpr) -> Result<(), AllocError>
    ensures { OnOk result (out.new ≡ emitted (Tree.Set x (expr_of e.now)) out.old) }
{
    let spare = out.first_spare();
    compute(out, e, x, spare)
}

#[tactic(auto, unfolding(crate::specs::Emission::emitted))]
fn emit_load(
    out: &mut Emitter,
    x: u32,
    w: Width,
    is_signed: bool,
    a: &FlatExpr,
) -> Result<(), AllocError>
    ensures { OnOk result (out.new ≡ emitted (Tree.Set x (Tree.Load w is_signed (expr_of a.now))) out.old) }
{
    let spare = out.first_spare();
    compute_load(out, x, w, is_signed, a, spare)
}

#[tactic(auto, unfolding(crate::specs::Emission::emitted))]
fn emit_store(out: &mut Emitter, w: Width, a: &FlatExpr, e: &FlatExpr) -> Result<(), AllocError>
    ensures { OnOk result (out.new ≡ emitted (Tree.Store w (expr_of a.now) (expr_of e.now)) out.old) }
{
    let spare = out.first_spare();
    let second = add(spare, 1)?;
    out.put(BlockInsn::Store(w, place(a, spare), place(e, second)))?;
    compute_operand(out, e, second)?;
    compute_operand(out, a, spare)
}

#[tactic(auto, unfolding(crate::specs::Emission::emitted))]
fn emit_call(
    out: &mut Emitter,
    xs: &List<u32>,
    p: u32,
    es: &List<FlatExpr>,
) -> Result<(), AllocError>
    ensures { OnOk result (out.new ≡ emitted (Tree.Call xs.now p (exprs_of es.now)) out.old) }
{
    let alloc = out.allocator();
    let spare = out.first_spare();
    let ys = places(alloc, es.as_slice(), spare)?;
    let xs = copy_numbers(alloc, xs)?;
    out.put(BlockInsn::Call(xs, p, ys))?;
    compute_operands(out, es.as_slice(), spare)
}

#[tactic(auto, unfolding(crate::specs::Emission::emitted))]
fn emit_call_at(
    out: &mut Emitter,
    xs: &List<u32>,
    a: &FlatExpr,
    es: &List<FlatExpr>,
) -> Result<(), AllocError>
    ensures { OnOk result (out.new ≡ emitted (Tree.CallAt xs.now (expr_of a.now) (exprs_of es.now)) out.old) }
{
    let alloc = out.allocator();
    let spare = out.first_spare();
    let second = add(spare, 1)?;
    let ys = places(alloc, es.as_slice(), second)?;
    let xs = copy_numbers(alloc, xs)?;
    out.put(BlockInsn::CallAt(xs, place(a, spare), ys))?;
    compute_operands(out, es.as_slice(), second)?;
    compute_operand(out, a, spare)
}

// What follows is dropped here, at a return, a stop and a limit.
#[tactic(auto, unfolding(crate::specs::Emission::emitted))]
fn emit_break(out: &mut Emitter, k: u32) -> Result<(), AllocError>
    ensures { OnOk result (out.new ≡ emitted (Tree.Break k) out.old) }
{
    let behind = out.exit(k);
    out.restart(BlockEnd::Jump(behind));
    Ok(())
}

#[tactic(auto, unfolding(crate::specs::Emission::emitted))]
fn emit_return(out: &mut Emitter, es: &List<FlatExpr>) -> Result<(), AllocError>
    ensures { OnOk result (out.new ≡ emitted (Tree.Return (exprs_of es.now)) out.old) }
{
    let alloc = out.allocator();
    let spare = out.first_spare();
    let ys = places(alloc, es.as_slice(), spare)?;
    out.restart(BlockEnd::Return(ys));
    compute_operands(out, es.as_slice(), spare)
}

#[tactic(auto, unfolding(crate::specs::Emission::emitted))]
fn emit_take(out: &mut Emitter, x: u32) -> Result<(), AllocError>
    ensures { OnOk result (out.new ≡ emitted (Tree.Take x) out.old) }
{
    out.put(BlockInsn::Take(x))
}

#[tactic(auto, unfolding(crate::specs::Emission::emitted))]
fn emit_give(out: &mut Emitter, e: &FlatExpr) -> Result<(), AllocError>
    ensures { OnOk result (out.new ≡ emitted (Tree.Give (expr_of e.now)) out.old) }
{
    let spare = out.first_spare();
    out.put(BlockInsn::Give(place(e, spare)))?;
    compute_operand(out, e, spare)
}

#[tactic(auto, unfolding(crate::specs::Emission::emitted))]
fn emit_stop(out: &mut Emitter, e: &FlatExpr) -> Result<(), AllocError>
    ensures { OnOk result (out.new ≡ emitted (Tree.Stop (expr_of e.now)) out.old) }
{
    let spare = out.first_spare();
    out.restart(BlockEnd::Stop(place(e, spare)));
    compute_operand(out, e, spare)
}

#[tactic(auto, unfolding(crate::specs::Emission::emitted))]
fn emit_limit(out: &mut Emitter, l: Exceeded) -> Result<(), AllocError>
    ensures { OnOk result (out.new ≡ emitted (Tree.Limit l) out.old) }
{
    out.restart(BlockEnd::Limit(l));
    Ok(())
}

// A choice between the current block and the one of number `second`.
fn choose(out: &mut Emitter, e: &FlatExpr, second: u32) -> Result<(), AllocError>
    ensures { OnOk result (out.new ≡ choosing (expr_of e.now) second out.old) }
{
    let first = out.next_number();
    let spare = out.first_spare();
    out.finish(BlockEnd::Branch(place(e, spare), first, second))?;
    compute_operand(out, e, spare)
}

#[cycle(emit)]
#[tactic(auto, using(flat_ir::proofs::Rows::if_tree, flat_ir::proofs::Rows::loop_tree))]
fn emit_stmt(out: &mut Emitter, s: &FlatStmt) -> Result<(), AllocError>
    ensures { OnOk result (out.new ≡ emitted (stmt_of s.now) out.old) }
{
    match s {
        FlatStmt::Set(x, e) => emit_set(out, *x, e),
        FlatStmt::Load(x, w, is_signed, a) => emit_load(out, *x, *w, *is_signed, a),
        FlatStmt::Store(w, a, e) => emit_store(out, *w, a, e),
        FlatStmt::Call(xs, p, es) => emit_call(out, xs, *p, es),
        FlatStmt::CallAt(xs, a, es) => emit_call_at(out, xs, a, es),
        FlatStmt::If(e, a, b) => emit_if(out, e, a.as_slice(), b.as_slice()),
        FlatStmt::Loop(body) => emit_loop(out, body.as_slice()),
        FlatStmt::Break(k) => emit_break(out, *k),
        FlatStmt::Return(es) => emit_return(out, es),
        FlatStmt::Take(x) => emit_take(out, *x),
        FlatStmt::Give(e) => emit_give(out, e),
        FlatStmt::Stop(e) => emit_stop(out, e),
        FlatStmt::Limit(l) => emit_limit(out, *l),
    }
}

#[cycle(emit)]
#[tactic(auto, unfolding(crate::specs::Emission::emitted))]
fn emit_if(
    out: &mut Emitter,
    e: &FlatExpr,
    a: &[FlatStmt],
    b: &[FlatStmt],
) -> Result<(), AllocError>
    ensures { OnOk result (out.new ≡ emitted (Tree.If (expr_of e.now) (stmts_of a.now) (stmts_of b.now)) out.old) }
{
    let join = out.next_number();
    out.finish(BlockEnd::Jump(join))?;
    emit_stmts(out, b)?;
    let second = out.next_number();
    out.finish(BlockEnd::Jump(join))?;
    emit_stmts(out, a)?;
    choose(out, e, second)
}

#[cycle(emit)]
#[tactic(auto, unfolding(crate::specs::Emission::emitted))]
fn emit_loop(out: &mut Emitter, body: &[FlatStmt]) -> Result<(), AllocError>
    ensures { OnOk result (out.new ≡ emitted (Tree.Loop (stmts_of body.now)) out.old) }
{
    out.end_loop()?;
    emit_stmts(out, body)?;
    out.begin_loop()
}

/// Statements in front of the current block.
#[cycle(emit)]
#[tactic(auto, unfolding(crate::specs::Emission::emitted))]
pub fn emit_stmts(out: &mut Emitter, stmts: &[FlatStmt]) -> Result<(), AllocError>
    ensures { OnOk result (out.new ≡ emitted (stmts_of stmts.now) out.old) }
{
    for i in (0..stmts.len()).rev() {
        emit_stmt(out, &stmts[i])?;
    }
    Ok(())
}
