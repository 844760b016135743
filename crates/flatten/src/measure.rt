//! What is to be known of a procedure before its blocks are written.

ghost use Rattle.std.specs.Prelude.{◌≡◌, ◌+◌, max, IfOk, OnOk};
ghost use Rattle.flat_ir.specs.Tree;
ghost use Rattle.flat_ir.specs.View.{expr_of, exprs_of, stmt_of, stmts_of};
ghost use Rattle.flatten.specs.Code.{spare, spares};
ghost use Rattle.flatten.specs.Emission.{measured, needing};

use crate::stack::Stack;
use flat_ir::{FlatExpr, FlatStmt};
use jf_base::List;
use std::alloc::AllocError;

/// How many blocks statements have beside the first one, how many spare values they need at once,
/// and of each loop how many blocks its body has beside its first one, the last loop first.
#[derive(Drop)]
pub struct Measure {
    pub blocks: u32,
    pub spare: u32,
    pub turns: Stack,
}

/// A sum; want of memory where it has more than 32 bits.
pub fn add(a: u32, b: u32) -> Result<u32, AllocError>
    ensures { IfOk result (λ n. n ≡ a + b) }
{
    a.checked_add(b).ok_or(AllocError)
}

#[cycle(spare)]
#[tactic(auto, using(flat_ir::proofs::Rows::binary_tree, flat_ir::proofs::Rows::load_tree))]
fn spare_values(e: &FlatExpr) -> Result<u32, AllocError>
    ensures { IfOk result (λ n. n ≡ spare (expr_of e.now)) }
{
    match e {
        FlatExpr::Number(_) => Ok(0),
        FlatExpr::Value(_) => Ok(0),
        FlatExpr::Binary(_, a, b) => spare_of_two(a.get(), b.get()),
        FlatExpr::Load(_, _, a) => spare_of_operand(a.get()),
        FlatExpr::Procedure(_) => Ok(0),
        FlatExpr::Image(_) => Ok(0),
    }
}

#[cycle(spare)]
fn spare_of_operand(e: &FlatExpr) -> Result<u32, AllocError>
    ensures { IfOk result (λ n. n ≡ 1 + spare (expr_of e.now)) }
{
    let n = spare_values(e)?;
    add(1, n)
}

// Of two operands, the first of which is kept while the second is computed.
#[cycle(spare)]
fn spare_of_two(a: &FlatExpr, b: &FlatExpr) -> Result<u32, AllocError>
    ensures { IfOk result (λ n. n ≡ max (1 + spare (expr_of a.now)) (2 + spare (expr_of b.now))) }
{
    let first = spare_of_operand(a)?;
    let n = spare_values(b)?;
    let second = add(2, n)?;
    Ok(first.max(second))
}

fn spare_of_all(es: &[FlatExpr]) -> Result<u32, AllocError>
    ensures { IfOk result (λ n. n ≡ spares (exprs_of es.now)) }
{
    let mut all = 0;
    for i in (0..es.len()).rev() {
        let one = spare_of_operand(&es[i])?;
        let others = add(1, all)?;
        all = one.max(others);
    }
    Ok(all)
}

impl Measure {
    fn need(&mut self, n: u32)
        ensures { self.new ≡ needing n self.old }
    {
        self.spare = self.spare.max(n);
    }

    fn compute(&mut self, e: &FlatExpr) -> Result<(), AllocError>
        ensures { OnOk result (self.new ≡ needing (spare (expr_of e.now)) self.old) }
    {
        let n = spare_values(e)?;
        self.need(n);
        Ok(())
    }

    fn operand(&mut self, e: &FlatExpr) -> Result<(), AllocError>
        ensures { OnOk result (self.new ≡ needing (1 + spare (expr_of e.now)) self.old) }
    {
        let n = spare_of_operand(e)?;
        self.need(n);
        Ok(())
    }

    fn two_operands(&mut self, a: &FlatExpr, b: &FlatExpr) -> Result<(), AllocError>
        ensures { OnOk result (self.new ≡ needing (max (1 + spare (expr_of a.now)) (2 + spare (expr_of b.now))) self.old) }
    {
        let n = spare_of_two(a, b)?;
        self.need(n);
        Ok(())
    }

    fn operands(&mut self, es: &List<FlatExpr>) -> Result<(), AllocError>
        ensures { OnOk result (self.new ≡ needing (spares (exprs_of es.now)) self.old) }
    {
        let n = spare_of_all(es.as_slice())?;
        self.need(n);
        Ok(())
    }

    fn operand_and_operands(&mut self, a: &FlatExpr, es: &List<FlatExpr>) -> Result<(), AllocError>
        ensures { OnOk result (self.new ≡ needing (max (1 + spare (expr_of a.now)) (1 + spares (exprs_of es.now))) self.old) }
    {
        let first = spare_of_operand(a)?;
        let n = spare_of_all(es.as_slice())?;
        let others = add(1, n)?;
        self.need(first.max(others));
        Ok(())
    }
}

#[cycle(measure)]
#[tactic(auto, using(flat_ir::proofs::Rows::if_tree, flat_ir::proofs::Rows::loop_tree), unfolding(crate::specs::Emission::measured))]
fn measure_stmt(m: &mut Measure, s: &FlatStmt) -> Result<(), AllocError>
    ensures { OnOk result (m.new ≡ measured (stmt_of s.now) m.old) }
{
    match s {
        FlatStmt::Set(_, e) => m.compute(e),
        FlatStmt::Load(_, _, _, a) => m.operand(a),
        FlatStmt::Store(_, a, e) => m.two_operands(a, e),
        FlatStmt::Call(_, _, es) => m.operands(es),
        FlatStmt::CallAt(_, a, es) => m.operand_and_operands(a, es),
        FlatStmt::If(e, a, b) => measure_if(m, e, a.as_slice(), b.as_slice()),
        FlatStmt::Loop(body) => measure_loop(m, body.as_slice()),
        FlatStmt::Break(_) => Ok(()),
        FlatStmt::Return(es) => m.operands(es),
        FlatStmt::Take(_) => Ok(()),
        FlatStmt::Give(e) => m.operand(e),
        FlatStmt::Stop(e) => m.operand(e),
        FlatStmt::Limit(_) => Ok(()),
    }
}

#[cycle(measure)]
#[tactic(auto, unfolding(crate::specs::Emission::measured))]
fn measure_if(
    m: &mut Measure,
    e: &FlatExpr,
    a: &[FlatStmt],
    b: &[FlatStmt],
) -> Result<(), AllocError>
    ensures { OnOk result (m.new ≡ measured (Tree.If (expr_of e.now) (stmts_of a.now) (stmts_of b.now)) m.old) }
{
    measure_stmts(m, a)?;
    measure_stmts(m, b)?;
    m.blocks = add(m.blocks, 3)?;
    m.operand(e)
}

#[cycle(measure)]
#[tactic(auto, unfolding(crate::specs::Emission::measured))]
fn measure_loop(m: &mut Measure, body: &[FlatStmt]) -> Result<(), AllocError>
    ensures { OnOk result (m.new ≡ measured (Tree.Loop (stmts_of body.now)) m.old) }
{
    let before = m.blocks;
    measure_stmts(m, body)?;
    m.turns.push(m.blocks.saturating_sub(before))?;
    m.blocks = add(m.blocks, 2)?;
    Ok(())
}

/// Adds what statements have and need.
#[cycle(measure)]
#[tactic(auto, unfolding(crate::specs::Emission::measured))]
pub fn measure_stmts(m: &mut Measure, stmts: &[FlatStmt]) -> Result<(), AllocError>
    ensures { OnOk result (m.new ≡ measured (stmts_of stmts.now) m.old) }
{
    let mut rest = stmts;
    while let [first, others @ ..] = rest {
        measure_stmt(m, first)?;
        rest = others;
    }
    Ok(())
}
