//! Where the lines stand. A branch is as long as its distance asks in the layout in which each line takes all the bytes that it may take;
//! the lines between then take no more, so the branch reaches. Each pass goes over the lines once.
ghost use Rattle.std.specs.Prelude.{◌≡◌, ◌<◌, ◌≤◌, ◌+◌, ◌-◌, ◌^◌, IfOk, length, slice_index, vec_len};
ghost use Rattle.rv_assemble.specs.Places.{widest_of, jump_size, branch_size, size_of_line, gap, AreWide, AreTargets, ArePlaces};

use crate::unit::AsmLine;
use rv_isa::Insn;
use std::alloc::{AllocError, Global};

/// A unit with so many bytes counts as want of memory.
pub(crate) const LIMIT: u64 = 2_000_000_000;

fn widest(line: &AsmLine) -> u64
    ensures { result ≡ widest_of line.now }
{
    match line {
        AsmLine::Label(_) => 0,
        AsmLine::Plain(_) => 4,
        AsmLine::Branch { .. } => 12,
        AsmLine::Call { .. } | AsmLine::Address { .. } => 8,
    }
}

fn size_of_jump(far: u64) -> u64
    ensures { result ≡ jump_size far }
{
    if far < 1_048_000 { 4 } else { 8 }
}

fn size_of_branch(insn: &Insn, far: u64) -> u64
    ensures { result ≡ branch_size insn.now far }
{
    match insn {
        Insn::Jal { .. } => size_of_jump(far),
        _ => { if far < 4000 { 4 } else { 4 + size_of_jump(far) } }
    }
}

fn size(line: &AsmLine, far: u64) -> u64
    ensures { result ≡ size_of_line line.now far }
{
    match line {
        AsmLine::Label(_) => 0,
        AsmLine::Plain(_) => 4,
        AsmLine::Branch { insn, .. } => size_of_branch(insn, far),
        AsmLine::Call { .. } | AsmLine::Address { .. } => 8,
    }
}

/// The places of lines that take all the bytes that they may take.
pub(crate) fn wide_places(alloc: Global, lines: &[AsmLine]) -> Result<Vec<u64>, AllocError>
    ensures { IfOk result (λ wide. AreWide lines.now wide.items) }
{
    let mut wide = Vec::new(alloc);
    let mut end = 0;
    wide.push(end)?;
    for line in lines {
        if end >= LIMIT - 22 {
            return Err(AllocError);
        }
        end += widest(line);
        wide.push(end)?;
    }
    Ok(wide)
}

/// The places of the lines.
pub(crate) fn places(
    alloc: Global,
    lines: &[AsmLine],
    targets: &[u64],
    wide: &[u64],
) -> Result<Vec<u64>, AllocError>
    requires targets { AreTargets lines.now targets.now }
    requires wide { AreWide lines.now wide.now }
    ensures { IfOk result (λ places. ArePlaces lines.now targets.now wide.now places.items) }
{
    let mut places = Vec::new(alloc);
    let mut end = 0;
    places.push(end)?;
    for (k, line) in lines.iter().enumerate() {
        let here = wide[k];
        let there = wide[targets[k] as usize];
        end += size(line, here.abs_diff(there));
        places.push(end)?;
    }
    Ok(places)
}
