//! Procedures of blocks, built, and their lines as text.

use crate::emit;
use block_homes::{Assignment, Home};
use flat_ir::Fix;
use flatten::{Block, BlockEnd, BlockInsn, BlockProc, BlockProgram};
use jf_base::{List, Memory};
use rv_assemble::{AsmLine, AsmUnit};
use std::alloc::{AllocError, Global};
use std::test::Fail;

/// A block.
pub fn block(insns: Vec<BlockInsn>, end: BlockEnd) -> Block {
    Block {
        insns: List::from_vec(insns),
        end,
    }
}

/// A procedure of one block, which returns nothing.
pub fn returning(
    alloc: Global,
    params: u32,
    values: u32,
    frame: u64,
    insns: Vec<BlockInsn>,
) -> Result<BlockProc, AllocError> {
    let end = BlockEnd::Return(List::from_vec(Vec::new(alloc)));
    let blocks = vec![in alloc; block(insns, end)]?;
    Ok(BlockProc {
        params,
        blocks: List::from_vec(blocks),
        values,
        frame,
    })
}

/// A program of one procedure, with an image.
pub fn program(
    alloc: Global,
    f: BlockProc,
    image: Vec<u8>,
    fixes: Vec<Fix>,
) -> Result<BlockProgram, AllocError> {
    Ok(BlockProgram {
        procs: List::from_vec(vec![in alloc; f]?),
        image: List::from_vec(image),
        fixes: List::from_vec(fixes),
        entry: 0,
    })
}

fn one(alloc: Global, homes: Vec<Home>) -> Result<Vec<Assignment>, AllocError> {
    let homes = List::from_vec(homes);
    Ok(vec![in alloc; Assignment { homes }]?)
}

/// The units of a program of one procedure, whose values have these homes.
pub fn units(alloc: Global, q: &BlockProgram, homes: Vec<Home>) -> Result<Vec<AsmUnit>, Memory> {
    let assignments = one(alloc, homes)?;
    emit(alloc, q, assignments.as_slice())
}

/// Lines as text.
pub fn text(alloc: Global, lines: &[AsmLine]) -> Result<String, AllocError> {
    let mut text = String::new(alloc);
    for line in lines {
        let one = format!(in alloc; "{line:?}\n")?;
        text.push_str(one.as_str())?;
    }
    Ok(text)
}

/// The lines of a procedure, whose values have these homes.
pub fn lines(alloc: Global, f: BlockProc, homes: Vec<Home>) -> Result<String, Fail> {
    let q = program(alloc, f, Vec::new(alloc), Vec::new(alloc))?;
    let units = units(alloc, &q, homes)?;
    let unit = units.get(0).ok_or("there is no unit")?;
    Ok(text(alloc, unit.lines.as_slice())?)
}
