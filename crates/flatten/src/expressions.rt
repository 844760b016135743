//! Code that computes expressions.

ghost use Rattle.std.specs.Prelude.{◌≡◌, ◌+◌, IfOk, OnOk};
ghost use Rattle.flat_ir.specs.Tree;
ghost use Rattle.flat_ir.specs.View.{expr_of, exprs_of};
ghost use Rattle.flatten.specs.Code.{expr_code, operand, operands, places_of};
ghost use Rattle.flatten.specs.Code.{place as place_of};
ghost use Rattle.flatten.specs.Emission.{changed, stands};

use crate::blocks::BlockInsn;
use crate::emitter::Emitter;
use crate::measure::add;
use flat_ir::{FlatExpr, Operation};
use jf_base::{List, Width};
use std::alloc::{AllocError, Global};

// Whether an operand needs no code.
#[tactic(auto, using(flat_ir::proofs::Rows::binary_tree, flat_ir::proofs::Rows::load_tree))]
fn is_in_place(e: &FlatExpr) -> bool
    ensures { result ≡ stands (expr_of e.now) }
{
    match e {
        FlatExpr::Value(_) => true,
        FlatExpr::Number(_) => false,
        FlatExpr::Binary(_, _, _) => false,
        FlatExpr::Load(_, _, _) => false,
        FlatExpr::Procedure(_) => false,
        FlatExpr::Image(_) => false,
    }
}

/// Where an operand is: a value of the procedure stands for itself, and anything else is computed into the spare one.
#[tactic(auto, using(flat_ir::proofs::Rows::binary_tree, flat_ir::proofs::Rows::load_tree))]
pub fn place(e: &FlatExpr, spare: u32) -> u32
    ensures { result ≡ place_of (expr_of e.now) spare }
{
    match e {
        FlatExpr::Value(x) => *x,
        FlatExpr::Number(_) => spare,
        FlatExpr::Binary(_, _, _) => spare,
        FlatExpr::Load(_, _, _) => spare,
        FlatExpr::Procedure(_) => spare,
        FlatExpr::Image(_) => spare,
    }
}

/// In front of the current block: a value gets an expression. The values from `spare` on are spare.
#[cycle(compute)]
#[tactic(auto, using(flat_ir::proofs::Rows::binary_tree, flat_ir::proofs::Rows::load_tree))]
pub fn compute(out: &mut Emitter, e: &FlatExpr, x: u32, spare: u32) -> Result<(), AllocError>
    ensures { OnOk result (out.new ≡ changed (expr_code (expr_of e.now) x spare out.old.current) out.old) }
{
    match e {
        FlatExpr::Number(n) => out.put(BlockInsn::Number(x, *n)),
        FlatExpr::Value(y) => out.put(BlockInsn::Copy(x, *y)),
        FlatExpr::Binary(o, a, b) => compute_binary(out, *o, x, a.get(), b.get(), spare),
        FlatExpr::Load(w, is_signed, a) => compute_load(out, x, *w, *is_signed, a.get(), spare),
        FlatExpr::Procedure(p) => out.put(BlockInsn::ProcAddress(x, *p)),
        FlatExpr::Image(n) => out.put(BlockInsn::ImageAddress(x, *n)),
    }
}

#[cycle(compute)]
fn compute_binary(
    out: &mut Emitter,
    o: Operation,
    x: u32,
    a: &FlatExpr,
    b: &FlatExpr,
    spare: u32,
) -> Result<(), AllocError>
    ensures { OnOk result (out.new ≡ changed (expr_code (Tree.Bin o (expr_of a.now) (expr_of b.now)) x spare out.old.current) out.old) }
{
    let second = add(spare, 1)?;
    out.put(BlockInsn::Binary(o, x, place(a, spare), place(b, second)))?;
    compute_operand(out, b, second)?;
    compute_operand(out, a, spare)
}

/// In front of the current block: a value gets the bytes of a width at an address.
#[cycle(compute)]
pub fn compute_load(
    out: &mut Emitter,
    x: u32,
    w: Width,
    is_signed: bool,
    a: &FlatExpr,
    spare: u32,
) -> Result<(), AllocError>
    ensures { OnOk result (out.new ≡ changed (expr_code (Tree.Load w is_signed (expr_of a.now)) x spare out.old.current) out.old) }
{
    out.put(BlockInsn::Load(x, w, is_signed, place(a, spare)))?;
    compute_operand(out, a, spare)
}

/// In front of the current block: an operand is computed, where it needs to be, into a spare value.
#[cycle(compute)]
pub fn compute_operand(out: &mut Emitter, e: &FlatExpr, spare: u32) -> Result<(), AllocError>
    ensures { OnOk result (out.new ≡ changed (operand (expr_of e.now) spare out.old.current) out.old) }
{
    if is_in_place(e) {
        return Ok(());
    }
    compute(out, e, spare, spare)
}

fn spare_at(spare: u32, i: usize) -> Result<u32, AllocError>
    ensures { IfOk result (λ n. n ≡ spare + i) }
{
    match u32::try_from(i) {
        Ok(i) => add(spare, i),
        Err(_) => Err(AllocError),
    }
}

/// In front of the current block: operands are computed one after the other, each with a spare value.
pub fn compute_operands(out: &mut Emitter, es: &[FlatExpr], spare: u32) -> Result<(), AllocError>
    ensures { OnOk result (out.new ≡ changed (operands (exprs_of es.now) spare out.old.current) out.old) }
{
    for i in (0..es.len()).rev() {
        let at = spare_at(spare, i)?;
        compute_operand(out, &es[i], at)?;
    }
    Ok(())
}

/// Where these operands are.
pub fn places(alloc: Global, es: &[FlatExpr], spare: u32) -> Result<List<u32>, AllocError>
    ensures { IfOk result (λ ys. ys ≡ places_of (exprs_of es.now) spare) }
{
    let mut places = Vec::new(alloc);
    let mut rest = es;
    let mut at = spare;
    while let [first, others @ ..] = rest {
        places.push(place(first, at))?;
        at = add(at, 1)?;
        rest = others;
    }
    Ok(List::from_vec(places))
}
