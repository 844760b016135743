//! Whether lines of assembly can hold what a program has.

ghost use Rattle.std.specs.Prelude.{◌≤◌, ◌<◌, ◌^◌, length, OnOk};
ghost use Rattle.emitted_units.specs.Sizes.{InsnHeld, EndHeld, InsnsHeld, BlocksHeld, ProcHeld, ProcsHeld};

use flatten::{Block, BlockEnd, BlockInsn, BlockProc};
use rv_emit::frame_size;
use std::alloc::AllocError;

/// How many registers there are from a0 on.
const RESULTS: usize = 22;

fn check_call(xs: &[u32], ys: &[u32]) -> Result<(), AllocError>
    ensures results { OnOk result (length xs.now ≤ 22) }
    ensures arguments { OnOk result (length ys.now < 2 ^ 32) }
{
    if xs.len() > RESULTS || ys.len() >= 1 << 32 {
        return Err(AllocError);
    }
    Ok(())
}

fn check_insn(insn: &BlockInsn) -> Result<(), AllocError>
    ensures { OnOk result (InsnHeld insn.now) }
{
    match insn {
        BlockInsn::Number(_, n) => {
            let _number = *n;
            Ok(())
        }
        BlockInsn::Copy(_, _) => Ok(()),
        BlockInsn::Binary(_, _, _, _) => Ok(()),
        BlockInsn::Load(_, _, _, _) => Ok(()),
        BlockInsn::Store(_, _, _) => Ok(()),
        BlockInsn::ProcAddress(_, _) => Ok(()),
        BlockInsn::ImageAddress(_, _) => Ok(()),
        BlockInsn::Call(xs, _, ys) => check_call(xs.as_slice(), ys.as_slice()),
        BlockInsn::CallAt(xs, _, ys) => check_call(xs.as_slice(), ys.as_slice()),
        BlockInsn::Take(_) => Ok(()),
        BlockInsn::Give(_) => Ok(()),
    }
}

fn check_end(end: &BlockEnd) -> Result<(), AllocError>
    ensures { OnOk result (EndHeld end.now) }
{
    match end {
        BlockEnd::Return(ys) => {
            if ys.len() > RESULTS {
                return Err(AllocError);
            }
            Ok(())
        }
        BlockEnd::Jump(_) => Ok(()),
        BlockEnd::Branch(_, _, _) => Ok(()),
        BlockEnd::Stop(_) => Ok(()),
        BlockEnd::Limit(_) => Ok(()),
    }
}

fn check_insns(insns: &[BlockInsn]) -> Result<(), AllocError>
    ensures { OnOk result (InsnsHeld insns.now) }
{
    for i in (0..insns.len()).rev() {
        check_insn(&insns[i])?;
    }
    Ok(())
}

fn check_blocks(blocks: &[Block]) -> Result<(), AllocError>
    ensures { OnOk result (BlocksHeld blocks.now) }
{
    for i in (0..blocks.len()).rev() {
        check_insns(blocks[i].insns.as_slice())?;
        check_end(&blocks[i].end)?;
    }
    Ok(())
}

fn check_proc(f: &BlockProc) -> Result<(), AllocError>
    ensures { OnOk result (ProcHeld f.now) }
{
    let _values = f.values;
    check_blocks(f.blocks.as_slice())?;
    let frame = frame_size(f)?;
    match frame.checked_add(8 * f.params as u64) {
        Some(_) => Ok(()),
        None => Err(AllocError),
    }
}

/// Tells want of memory where lines of assembly can't hold what procedures have.
pub fn check_procs(procs: &[BlockProc]) -> Result<(), AllocError>
    ensures { OnOk result (ProcsHeld procs.now) }
{
    for i in (0..procs.len()).rev() {
        check_proc(&procs[i])?;
    }
    Ok(())
}
