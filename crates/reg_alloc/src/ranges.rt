//! From where to where each value is present.

ghost use Rattle.std.specs.Prelude.{◌≡◌, ℕ, ◌+◌, ◌-◌, ◌<◌, ◌≤◌, ◌^◌, [], ◌++◌, length, slice_index, cond, ◌==◌, ◌||◌, ◌∷◌, slice_set, IfOk, OnOk};
ghost use Rattle.block_homes.specs.Held.{total};
ghost use Rattle.block_homes.specs.Valid.{IsNamed};
ghost use Rattle.reg_alloc.specs.Occurs.{Occurrences, Sources, BlockStarts, Each, widened, hull, marked, stacked, in_blocks};
ghost use Rattle.reg_alloc.specs.Ranges.{Covers, RangeOk, RangeOf};
ghost use Rattle.reg_alloc.specs.Scan.{Ranges};

use crate::occurrences::{Occurrence, occurrences_of, sources_of, starts_of};
use crate::scan::filled;
use flatten::BlockProc;
use jf_base::List;
use std::alloc::{AllocError, Global};

/// From the first to the last instruction at which a value is present; `first` is above `last` where there is none.
#[derive(Clone, Copy, Debug)]
pub struct Range {
    pub first: u32,
    pub last: u32,
}

fn widen(range: &mut Range, k: u32)
    ensures { range.new ≡ widened range.old k }
{
    range.first = range.first.min(k);
    range.last = range.last.max(k);
}

// Takes in an occurrence. Its block gets the mark and, where it hasn't got it before and the value isn't set there first, is put on the stack.
fn visit(
    marks: &mut Vec<u32>,
    stack: &mut Vec<u32>,
    range: &mut Range,
    o: &Occurrence,
    mark: u32,
) -> Result<(), AllocError>
    requires { o.now.block < length marks.old.items }
    ensures marks { OnOk result (marks.new.items ≡ slice_set marks.old.items o.now.block mark) }
    ensures stack { OnOk result (stack.new.items ≡ cond ((slice_index marks.old.items o.now.block == mark) || o.now.sets) stack.old.items (stack.old.items ++ o.now.block ∷ [])) }
    ensures range { OnOk result (range.new ≡ widened range.old o.now.insn) }
{
    let block = o.block as usize;
    widen(range, o.insn);
    let is_known = marks[block] == mark || o.sets;
    marks[block] = mark;
    if !is_known {
        stack.push(o.block)?;
    }
    Ok(())
}

fn visit_all(
    marks: &mut Vec<u32>,
    stack: &mut Vec<u32>,
    range: &mut Range,
    occurrences: &[Occurrence],
    mark: u32,
) -> Result<(), AllocError>
    requires { Each (λ o. o.block < length marks.old.items) occurrences.now }
    ensures marks { OnOk result (marks.new.items ≡ marked mark occurrences.now marks.old.items) }
    ensures stack { OnOk result (stack.new.items ≡ stacked mark occurrences.now marks.old.items stack.old.items) }
    ensures range { OnOk result (range.new ≡ hull occurrences.now range.old) }
{
    let mut rest = occurrences;
    while let Some((o, tail)) = rest.split_first() {
        visit(marks, stack, range, o, mark)?;
        rest = tail;
    }
    Ok(())
}

// A parameter is present at the first instruction.
fn range_at_start(p: &BlockProc, v: u32) -> Range
    ensures ok { RangeOk p.now v result }
    ensures param { (v < p.now.params) → Covers result 0 }
{
    if v < p.params {
        Range { first: 0, last: 0 }
    } else {
        Range {
            first: 4294967295,
            last: 0,
        }
    }
}

// From the first to the last instruction at which v, with these occurrences, is present. No mark is above v, and afterwards none is above v + 1.
fn range_of(
    alloc: Global,
    p: &BlockProc,
    v: u32,
    occurrences: &[Occurrence],
    sources: &[List<Occurrence>],
    starts: &[u32],
    marks: &mut Vec<u32>,
) -> Result<Range, AllocError>
    requires named { IsNamed p.now }
    requires size { total p.now.blocks < 2 ^ 32 - 1 }
    requires value { v < p.now.values }
    requires occurrences { occurrences.now ≡ in_blocks v 0 0 p.now.blocks }
    requires sources { Sources p.now sources.now }
    requires starts { BlockStarts p.now starts.now }
    requires count { length marks.old.items ≡ length p.now.blocks }
    requires marks { (c : ℕ) → slice_index marks.old.items c ≤ v }
    ensures count { OnOk result (length marks.new.items ≡ length p.now.blocks) }
    ensures marks { OnOk result ((c : ℕ) → slice_index marks.new.items c ≤ v + 1) }
    ensures range { IfOk result (λ r. RangeOf p.now v r) }
{
    let _values = p.values;
    let mark = v + 1;
    let mut range = range_at_start(p, v);
    let mut stack = Vec::new(alloc);
    visit_all(marks, &mut stack, &mut range, occurrences, mark)?;
    while let Some(t) = stack.pop() {
        widen(&mut range, starts[t as usize]);
        visit_all(
            marks,
            &mut stack,
            &mut range,
            sources[t as usize].as_slice(),
            mark,
        )?;
    }
    Ok(range)
}

pub fn ranges_of(alloc: Global, p: &BlockProc) -> Result<Vec<Range>, AllocError>
    requires named { IsNamed p.now }
    requires size { total p.now.blocks < 2 ^ 32 - 1 }
    ensures { IfOk result (λ rs. Ranges p.now rs.items) }
{
    let occurrences = occurrences_of(alloc, p)?;
    let sources = sources_of(alloc, p)?;
    let starts = starts_of(alloc, p)?;
    let mut marks = filled(alloc, p.blocks.len(), 0)?;
    let mut ranges = Vec::with_capacity(alloc, occurrences.len())?;
    for v in 0..p.values {
        let named = occurrences[v as usize].as_slice();
        ranges.push(range_of(
            alloc,
            p,
            v,
            named,
            sources.as_slice(),
            starts.as_slice(),
            &mut marks,
        )?)?;
    }
    Ok(ranges)
}
