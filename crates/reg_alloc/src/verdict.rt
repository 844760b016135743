//! The verdict on an assignment.

ghost use Rattle.std.specs.Prelude.{◌≡◌, ℕ, ◌+◌, ◌<◌, ◌^◌, length, IfOk, MatchOption};
ghost use Rattle.block_homes.specs.Held.{total};
ghost use Rattle.block_homes.specs.Valid.{IsNamed, AreHomes, IsVerdict};
ghost use Rattle.block_homes.specs.declared.homes.Verdict.TheVariants as V;
ghost use Rattle.reg_alloc.specs.Rows.{Places, width, Judged};

use crate::occurrences::{occurrences_by, sources_of};
use crate::places::{places_of, start_row, width_of};
use crate::reach::reached_of;
use crate::trace::{Facts, first_of_all};
use block_homes::{Assignment, Verdict};
use flatten::BlockProc;
use jf_base::Memory;
use std::alloc::{AllocError, Global};

// How many instructions there are, with the blocks' ends.
pub fn count_insns(p: &BlockProc) -> Result<u32, Memory>
    ensures { IfOk result (λ n. n ≡ total p.now.blocks) }
{
    let mut sum: u32 = 0;
    for block in p.blocks.as_slice() {
        let Ok(len) = u32::try_from(block.insns.len()) else {
            return Err(Memory);
        };
        let Some(with_insns) = sum.checked_add(len) else {
            return Err(Memory);
        };
        let Some(with_end) = with_insns.checked_add(1) else {
            return Err(Memory);
        };
        sum = with_end;
    }
    Ok(sum)
}

// No at the first use that is lost, if one is.
fn verdict_at(first: Option<u32>) -> Verdict
    ensures { MatchOption first (result ≡ V.Yes) (λ k. result ≡ V.No k) }
{
    match first {
        Some(k) => Verdict::No(k),
        None => Verdict::Yes,
    }
}

fn verdict_of(alloc: Global, p: &BlockProc, places: &[usize]) -> Result<Verdict, AllocError>
    requires some { 0 < length p.now.blocks }
    requires named { IsNamed p.now }
    requires places { Places p.now.values (width places.now) places.now }
    requires size { total p.now.blocks < 2 ^ 32 }
    requires width { width places.now < 2 ^ 64 }
    ensures { IfOk result (λ v. Judged places.now p.now v) }
{
    let size = width_of(places);
    let reached = reached_of(alloc, p)?;
    let sources = sources_of(alloc, p)?;
    let start = start_row(alloc, places, p.params, size, p.values)?;
    let rows = occurrences_by(alloc, p, places, size)?;
    let facts = Facts {
        proc: p,
        places,
        reached: reached.as_slice(),
        sources: sources.as_slice(),
        start: start.as_slice(),
    };
    let first = first_of_all(alloc, &facts, rows.as_slice())?;
    let verdict = verdict_at(first);
    Ok(verdict)
}

/// Whether each use finds its value at home, whatever path leads to it, or the number of the first instruction with a use that on some path doesn't.
/// Instructions are numbered through from 0 in the order of the blocks, and a block's end counts as one. A procedure with 2^32 instructions or more is want of memory too.
pub fn validate(alloc: Global, p: &BlockProc, a: &Assignment) -> Result<Verdict, Memory>
    requires named { IsNamed p.now }
    requires homes { AreHomes p.now.values a.now.homes }
    ensures { IfOk result (λ v. IsVerdict a.now.homes p.now v) }
{
    if p.blocks.len() == 0 {
        return Ok(Verdict::Yes);
    }
    let _values = p.values;
    let _size = count_insns(p)?;
    let places = places_of(alloc, a.homes.as_slice())?;
    let verdict = verdict_of(alloc, p, places.as_slice())?;
    Ok(verdict)
}
