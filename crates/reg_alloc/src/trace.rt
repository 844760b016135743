//! Back from the uses of a place to what was written to it.

ghost use Rattle.std.specs.Prelude.{◌≡◌, ◌≢◌, ℕ, ◌+◌, ◌<◌, ◌≤◌, cond, true, false, length, slice_index, slice_set, MatchOption, MatchBool, IfOk, OnOk};
ghost use Rattle.reg_alloc.specs.Steps.{init_of};
ghost use Rattle.block_homes.specs.Valid.{IsNamed};
ghost use Rattle.reg_alloc.specs.Occurs.{Each, OccurrencesBy, ends_to, in_blocks_by, unmarked};
ghost use Rattle.reg_alloc.specs.Trace.{Lead, Good, Bad, Passes, Writes, AllStale, Ends, Claims, Stepped, SteppedAll, UseKept, UseLost, Scans, IsOf, Answer, cur, left, lower, IsFacts, Looks};

use crate::occurrences::Occurrence;
use crate::scan::filled;
use flatten::BlockProc;
use jf_base::List;
use std::alloc::{AllocError, Global};

/// A procedure with the place of each value, which of its blocks are reached, the ends that go to each block, and what each place holds at the start.
#[derive(Clone, Copy)]
pub struct Facts<'a> {
    pub proc: &'a BlockProc,
    pub places: &'a [usize],
    pub reached: &'a [bool],
    pub sources: &'a [List<Occurrence>],
    pub start: &'a [u32],
}

/// The block that wrote to a place last, as far as it was read, and the value.
#[derive(Clone, Copy)]
struct Written {
    block: u32,
    value: u32,
}

fn leave(last: &mut Vec<u32>, o: &Occurrence)
    requires { o.now.block < length last.old.items }
    ensures len { length last.new.items ≡ length last.old.items }
    ensures last { last.new.items ≡ cond o.now.sets (slice_set last.old.items o.now.block o.now.named) last.old.items }
{
    if o.sets {
        last[o.block as usize] = o.named;
    }
}

// What each block leaves in the place that is set at these occurrences.
#[tactic(auto, unfolding(crate::specs::Trace::left))]
fn leave_all(last: &mut Vec<u32>, occurrences: &[Occurrence])
    requires { Each (λ o. o.block < length last.old.items) occurrences.now }
    ensures { last.new.items ≡ left occurrences.now last.old.items }
{
    let mut rest = occurrences;
    while let Some((o, tail)) = rest.split_first() {
        leave(last, o);
        rest = tail;
    }
}

fn place_of(facts: &Facts<'_>, v: u32) -> usize
    requires facts { IsFacts facts.now }
    requires value { v < facts.now.proc.now.values }
    ensures { result ≡ slice_index facts.now.places.now v }
{
    let places = facts.places;
    places[v as usize]
}

fn is_reached(facts: &Facts<'_>, c: u32) -> bool
    requires facts { IsFacts facts.now }
    requires block { c < length facts.now.proc.now.blocks }
    ensures { MatchBool result (Lead facts.now.proc.now c) (¬ Lead facts.now.proc.now c) }
{
    let reached = facts.reached;
    reached[c as usize]
}

// What block b has written to a place so far, or none.
fn written_in(facts: &Facts<'_>, written: &Written, b: u32) -> u32
    ensures { result ≡ cur facts.now.places.now facts.now.proc.now written.now.block written.now.value b }
{
    if written.block == b {
        written.value
    } else {
        facts.proc.values
    }
}

// What block c leaves in the place of v, where it writes to it.
fn left_by(facts: &Facts<'_>, last: &[u32], c: usize, v: u32) -> Option<u32>
    requires facts { IsFacts facts.now }
    requires value { v < facts.now.proc.now.values }
    requires block { c < length facts.now.proc.now.blocks }
    requires ends { Ends facts.now.places.now facts.now.proc.now (slice_index facts.now.places.now v) last.now }
    ensures { MatchOption result (Passes facts.now.places.now facts.now.proc.now (slice_index facts.now.places.now v) c) (λ w. Writes facts.now.places.now facts.now.proc.now (slice_index facts.now.places.now v) c w) }
{
    let w = last[c];
    if w == facts.proc.values {
        return None;
    }
    let is_its = place_of(facts, w) == place_of(facts, v);
    if !is_its {
        return None;
    }
    Some(w)
}

// The place of v is to hold it at the start of block c.
fn claim(claims: &mut Vec<u32>, c: usize, v: u32)
    requires { c < length claims.old.items }
    ensures { claims.new.items ≡ slice_set claims.old.items c v }
{
    claims[c] = v;
}

// Goes back to block c, at whose end the place of v has to hold it: false where on some path it doesn't.
fn step_back(
    facts: &Facts<'_>,
    last: &[u32],
    claims: &mut Vec<u32>,
    stack: &mut Vec<u32>,
    c: u32,
    v: u32,
) -> Result<bool, AllocError>
    requires facts { IsFacts facts.now }
    requires value { v < facts.now.proc.now.values }
    requires block { c < length facts.now.proc.now.blocks }
    requires ends { Ends facts.now.places.now facts.now.proc.now (slice_index facts.now.places.now v) last.now }
    requires count { length claims.old.items ≡ length facts.now.proc.now.blocks }
    ensures { IfOk result (λ ok. Stepped facts.now.places.now facts.now.proc.now v c claims.old.items stack.old.items claims.new.items stack.new.items ok) }
{
    let block = c as usize;
    if !is_reached(facts, c) {
        return Ok(true);
    }
    if let Some(w) = left_by(facts, last, block, v) {
        return Ok(w == v);
    }
    if claims[block] == v {
        return Ok(true);
    }
    claim(claims, block, v);
    stack.push(c)?;
    Ok(true)
}

// Goes back to the blocks of these ends, up to the first one that doesn't hold v at its end.
fn step_back_all(
    facts: &Facts<'_>,
    last: &[u32],
    claims: &mut Vec<u32>,
    stack: &mut Vec<u32>,
    sources: &[Occurrence],
    v: u32,
) -> Result<bool, AllocError>
    requires facts { IsFacts facts.now }
    requires value { v < facts.now.proc.now.values }
    requires blocks { Each (λ o. o.block < length facts.now.proc.now.blocks) sources.now }
    requires ends { Ends facts.now.places.now facts.now.proc.now (slice_index facts.now.places.now v) last.now }
    requires count { length claims.old.items ≡ length facts.now.proc.now.blocks }
    ensures stepped { IfOk result (λ ok. SteppedAll facts.now.places.now facts.now.proc.now v sources.now claims.old.items stack.old.items claims.new.items stack.new.items ok) }
    ensures falls { OnOk result (unmarked v claims.new.items + length stack.new.items ≤ unmarked v claims.old.items + length stack.old.items) }
{
    let mut rest = sources;
    while let Some((o, tail)) = rest.split_first() {
        let went = step_back(facts, last, claims, stack, o.block, v)?;
        if !went {
            return Ok(false);
        }
        rest = tail;
    }
    Ok(true)
}

// Whether block t is the first one, and the place of v holds another value at the start.
fn starts_otherwise(facts: &Facts<'_>, t: u32, v: u32) -> bool
    requires facts { IsFacts facts.now }
    requires value { v < facts.now.proc.now.values }
    ensures { MatchBool result ((t ≡ 0) × (init_of facts.now.places.now facts.now.proc.now (slice_index facts.now.places.now v) ≢ v)) (t ≡ 0 → init_of facts.now.places.now facts.now.proc.now (slice_index facts.now.places.now v) ≡ v) }
{
    if t != 0 {
        return false;
    }
    let start = facts.start;
    let first = start[place_of(facts, v)];
    if first == v {
        return false;
    }
    true
}

// The ends that go to block t.
fn sources_to<'a>(facts: &Facts<'a>, t: u32) -> &'a [Occurrence]
    requires facts { IsFacts facts.now }
    requires block { t < length facts.now.proc.now.blocks }
    ensures { result.now ≡ ends_to t 0 0 facts.now.proc.now.blocks }
{
    let sources = facts.sources;
    sources[t as usize].as_slice()
}

// Whether the place of v holds it at the start of block b on every path.
fn is_held(
    alloc: Global,
    facts: &Facts<'_>,
    last: &[u32],
    claims: &mut Vec<u32>,
    b: u32,
    v: u32,
) -> Result<bool, AllocError>
    requires facts { IsFacts facts.now }
    requires value { v < facts.now.proc.now.values }
    requires block { b < length facts.now.proc.now.blocks }
    requires ends { Ends facts.now.places.now facts.now.proc.now (slice_index facts.now.places.now v) last.now }
    requires claims { Claims facts.now.places.now facts.now.proc.now (slice_index facts.now.places.now v) claims.old.items }
    ensures held { IfOk result (λ ok. MatchBool ok (Good facts.now.places.now facts.now.proc.now v b) (Bad facts.now.places.now facts.now.proc.now v b)) }
    ensures claims { IfOk result (λ ok. MatchBool ok (Claims facts.now.places.now facts.now.proc.now (slice_index facts.now.places.now v) claims.new.items) (AllStale facts.now.places.now facts.now.proc.now (slice_index facts.now.places.now v + 1) claims.new.items)) }
{
    let _value = v;
    if claims[b as usize] == v {
        return Ok(true);
    }
    claim(claims, b as usize, v);
    let mut stack = Vec::new(alloc);
    stack.push(b)?;
    while let Some(t) = stack.pop() {
        if starts_otherwise(facts, t, v) {
            return Ok(false);
        }
        let went = step_back_all(facts, last, claims, &mut stack, sources_to(facts, t), v)?;
        if !went {
            return Ok(false);
        }
    }
    Ok(true)
}

// Whether a use is kept on every path, by what its block has left in its place before.
fn is_kept(
    alloc: Global,
    facts: &Facts<'_>,
    last: &[u32],
    claims: &mut Vec<u32>,
    written: &Written,
    o: &Occurrence,
) -> Result<bool, AllocError>
    requires facts { IsFacts facts.now }
    requires use_of { IsOf facts.now.places.now facts.now.proc.now (slice_index facts.now.places.now o.now.named) o.now }
    requires ends { Ends facts.now.places.now facts.now.proc.now (slice_index facts.now.places.now o.now.named) last.now }
    requires claims { Claims facts.now.places.now facts.now.proc.now (slice_index facts.now.places.now o.now.named) claims.old.items }
    ensures kept { IfOk result (λ ok. MatchBool ok (UseKept facts.now.places.now facts.now.proc.now (cur facts.now.places.now facts.now.proc.now written.now.block written.now.value o.now.block) o.now.block o.now.named) (UseLost facts.now.places.now facts.now.proc.now (cur facts.now.places.now facts.now.proc.now written.now.block written.now.value o.now.block) o.now.block o.now.named)) }
    ensures claims { IfOk result (λ ok. MatchBool ok (Claims facts.now.places.now facts.now.proc.now (slice_index facts.now.places.now o.now.named) claims.new.items) (AllStale facts.now.places.now facts.now.proc.now (slice_index facts.now.places.now o.now.named + 1) claims.new.items)) }
{
    if !is_reached(facts, o.block) {
        return Ok(true);
    }
    let here = written_in(facts, written, o.block);
    if here == facts.proc.values {
        let held = is_held(alloc, facts, last, claims, o.block, o.named)?;
        return Ok(held);
    }
    Ok(here == o.named)
}

// Looks at one occurrence: false where it is a use that is lost.
fn look(
    alloc: Global,
    facts: &Facts<'_>,
    last: &[u32],
    claims: &mut Vec<u32>,
    written: &mut Written,
    o: &Occurrence,
) -> Result<bool, AllocError>
    requires facts { IsFacts facts.now }
    requires occurrence { IsOf facts.now.places.now facts.now.proc.now (slice_index facts.now.places.now o.now.named) o.now }
    requires ends { Ends facts.now.places.now facts.now.proc.now (slice_index facts.now.places.now o.now.named) last.now }
    requires claims { Claims facts.now.places.now facts.now.proc.now (slice_index facts.now.places.now o.now.named) claims.old.items }
    ensures look { IfOk result (λ ok. Looks facts.now.places.now facts.now.proc.now o.now written.old.block written.old.value written.new.block written.new.value ok) }
    ensures claims { IfOk result (λ ok. MatchBool ok (Claims facts.now.places.now facts.now.proc.now (slice_index facts.now.places.now o.now.named) claims.new.items) (AllStale facts.now.places.now facts.now.proc.now (slice_index facts.now.places.now o.now.named + 1) claims.new.items)) }
{
    if o.sets {
        written.block = o.block;
        written.value = o.named;
        return Ok(true);
    }
    let kept = is_kept(alloc, facts, last, claims, &*written, o)?;
    Ok(kept)
}

// The number of the first use that is lost, of the values whose place is h.
fn first_lost(
    alloc: Global,
    facts: &Facts<'_>,
    last: &[u32],
    claims: &mut Vec<u32>,
    occurrences: &[Occurrence],
    _h: usize,
) -> Result<Option<u32>, AllocError>
    requires facts { IsFacts facts.now }
    requires occurrences { Each (IsOf facts.now.places.now facts.now.proc.now _h) occurrences.now }
    requires ends { Ends facts.now.places.now facts.now.proc.now _h last.now }
    requires claims { Claims facts.now.places.now facts.now.proc.now _h claims.old.items }
    ensures lost { IfOk result (λ a. Scans facts.now.places.now facts.now.proc.now 0 facts.now.proc.now.values occurrences.now a) }
    ensures claims { OnOk result (AllStale facts.now.places.now facts.now.proc.now (_h + 1) claims.new.items) }
{
    let mut written = Written {
        block: 0,
        value: facts.proc.values,
    };
    let mut rest = occurrences;
    while let Some((o, tail)) = rest.split_first() {
        let kept = look(alloc, facts, last, claims, &mut written, o)?;
        if !kept {
            return Ok(Some(o.insn));
        }
        rest = tail;
    }
    Ok(None)
}

// The same with the place's occurrences alone; the two lists say nothing of it before.
fn lost_at(
    alloc: Global,
    facts: &Facts<'_>,
    last: &mut Vec<u32>,
    claims: &mut Vec<u32>,
    occurrences: &[Occurrence],
    h: usize,
) -> Result<Option<u32>, AllocError>
    requires facts { IsFacts facts.now }
    requires named { IsNamed facts.now.proc.now }
    requires occurrences { occurrences.now ≡ in_blocks_by facts.now.places.now h 0 0 facts.now.proc.now.blocks }
    requires last { AllStale facts.now.places.now facts.now.proc.now h last.old.items }
    requires claims { AllStale facts.now.places.now facts.now.proc.now h claims.old.items }
    ensures lost { IfOk result (λ a. Answer facts.now.places.now facts.now.proc.now (λ g. g ≡ h) a) }
    ensures last { OnOk result (AllStale facts.now.places.now facts.now.proc.now (h + 1) last.new.items) }
    ensures claims { OnOk result (AllStale facts.now.places.now facts.now.proc.now (h + 1) claims.new.items) }
{
    leave_all(last, occurrences);
    let lost = first_lost(alloc, facts, last.as_slice(), claims, occurrences, h)?;
    Ok(lost)
}

fn earlier(a: Option<u32>, b: Option<u32>) -> Option<u32>
    ensures { result ≡ lower a b }
{
    let Some(k) = a else {
        return b;
    };
    let Some(l) = b else {
        return a;
    };
    Some(k.min(l))
}

/// The number of the first use whose home on some path doesn't hold its value, by the occurrences of the values with each place.
pub fn first_of_all(
    alloc: Global,
    facts: &Facts<'_>,
    rows: &[List<Occurrence>],
) -> Result<Option<u32>, AllocError>
    requires facts { IsFacts facts.now }
    requires named { IsNamed facts.now.proc.now }
    requires rows { OccurrencesBy facts.now.places.now (length facts.now.start.now) facts.now.proc.now rows.now }
    ensures { IfOk result (λ a. Answer facts.now.places.now facts.now.proc.now (λ h. h < length facts.now.start.now) a) }
{
    let none = facts.proc.values;
    let mut last = filled(alloc, facts.proc.blocks.len(), none)?;
    let mut claims = filled(alloc, facts.proc.blocks.len(), none)?;
    let mut first: Option<u32> = None;
    for h in 0..rows.len() {
        let lost = lost_at(alloc, facts, &mut last, &mut claims, rows[h].as_slice(), h)?;
        first = earlier(first, lost);
    }
    Ok(first)
}
