//! Whole programs in blocks.

ghost use Rattle.std.specs.Prelude.{◌≡◌, true, ℕ, List as ListOf, length, map, IfOk};
ghost use Rattle.behaviour.specs.Follows.{Follows};
ghost use Rattle.flat_ir.specs.Checked.{is_ok};
ghost use Rattle.flat_ir.specs.Flat.{flat};
ghost use Rattle.flat_ir.specs.Placement.{Placement};
ghost use Rattle.flat_ir.specs.View.{proc_of, procs_of};
ghost use Rattle.flatten.specs.Blocks.{blocks};
ghost use Rattle.flatten.specs.Code.{proc_code, program_code};
ghost use Rattle.flatten.specs.Forward.{OnlyLoopsGoBackIn};
ghost use Rattle.flatten.specs.Named.{ProcsNamed};
ghost use Rattle.flatten.specs.Paths.{AllUsesAreSet};
ghost use Rattle.flatten.specs.Sizes.{sizes_of, ProcsWithin};

use crate::blocks::{BlockEnd, BlockProc, BlockProgram};
use crate::emit::emit_stmts;
use crate::emitter::Emitter;
use crate::measure::{Measure, add, measure_stmts};
use crate::stack::Stack;
use flat_ir::{Fix, FlatProc, FlatProgram};
use jf_base::{List, Memory};
use std::alloc::{AllocError, Global};

fn flatten_proc(alloc: Global, f: &FlatProc) -> Result<BlockProc, AllocError>
    ensures { IfOk result (λ q. q ≡ proc_code (proc_of f.now)) }
{
    let mut m = Measure {
        blocks: 0,
        spare: 0,
        turns: Stack::new(alloc),
    };
    measure_stmts(&mut m, f.body.as_slice())?;
    let Measure {
        blocks,
        spare,
        turns,
    } = m;
    let at = add(1, blocks)?;
    let end = BlockEnd::Return(List::from_vec(Vec::new(alloc)));
    let mut out = Emitter::new(alloc, f.values, at, turns, end);
    emit_stmts(&mut out, f.body.as_slice())?;
    Ok(BlockProc {
        params: f.params,
        blocks: out.into_blocks()?,
        values: add(f.values, spare)?,
        frame: f.charge,
    })
}

fn flatten_procs(alloc: Global, fs: &[FlatProc]) -> Result<List<BlockProc>, AllocError>
    ensures { IfOk result (λ qs. qs ≡ map proc_code (procs_of fs.now)) }
{
    let mut procs = Vec::new(alloc);
    for f in fs {
        procs.push(flatten_proc(alloc, f)?)?;
    }
    Ok(List::from_vec(procs))
}

fn flatten_all(alloc: Global, p: &FlatProgram) -> Result<BlockProgram, AllocError>
    ensures { IfOk result (λ q. q ≡ program_code p.now) }
{
    let procs = flatten_procs(alloc, p.procs.as_slice())?;
    let mut image = Vec::new(alloc);
    image.extend_from_slice(p.image.as_slice())?;
    let mut fixes = Vec::new(alloc);
    fixes.extend_from_slice(p.fixes.as_slice())?;
    Ok(BlockProgram {
        procs,
        image: List::from_vec(image),
        fixes: List::from_vec(fixes),
        entry: p.entry,
    })
}

/// The blocks of a program that holds together. They follow the program wherever it is placed, whatever its limits and its input, within as many steps a unit as the program is long.
/// Each value, block, procedure and byte of the image that they name is there, only calls and the ends of loops go back,
/// each use of a value has a definition before it on every path, and values and instructions are in proportion to each procedure's size.
/// A program with numbers beyond 32 bits, of blocks or of values, is want of memory too.
pub fn flatten(alloc: Global, p: &FlatProgram) -> Result<BlockProgram, Memory>
    requires { is_ok p.now ≡ true }
    ensures code { IfOk result (λ q. q ≡ program_code p.now) }
    ensures follows { IfOk result (λ q. (g : Placement) (input : ListOf ℕ) → Follows (sizes_of (procs_of p.now.procs)) (blocks q g input) (flat p.now g input)) }
    ensures named { IfOk result (λ q. ProcsNamed (length p.now.procs) (length p.now.image) q.procs) }
    ensures forward { IfOk result (λ q. OnlyLoopsGoBackIn (procs_of p.now.procs) q.procs) }
    ensures set_first { IfOk result (λ q. AllUsesAreSet q.procs) }
    ensures within { IfOk result (λ q. ProcsWithin (procs_of p.now.procs) q.procs) }
{
    let q = flatten_all(alloc, p)?;
    Ok(q)
}
