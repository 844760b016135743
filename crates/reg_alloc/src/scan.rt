//! Homes by a linear scan over the values' ranges.

ghost use Rattle.std.specs.Prelude.{◌≡◌, ◌≢◌, true, false, ℕ, ◌+◌, ◌-◌, ◌<◌, ◌≤◌, ◌^◌, length, slice_index, slice_index_or, IfOk};
ghost use Rattle.std.specs.List.Sorted.{IsNonDecreasingBy};
ghost use Rattle.flatten.specs.Paths.{UsesAreSet};
ghost use Rattle.block_homes.specs.Held.{total};
ghost use Rattle.block_homes.specs.Valid.{IsNamed, AreHomes, IsVerdict};
ghost use Rattle.block_homes.specs.declared.homes.Verdict.TheVariants as V;
ghost use Rattle.reg_alloc.specs.Live.{SlotsCrowded};
ghost use Rattle.reg_alloc.specs.Scan.{first_of, Ranges, Scan, Starts, FreeAnswer, AllUsers, IsChoice, Scanned, Chosen, code, codes, IsProper, AllProper};
ghost use Rattle.reg_alloc.specs.declared.scan.Choice.TheVariants as C;

use crate::ranges::{Range, ranges_of};
use crate::verdict::count_insns;
use block_homes::{Assignment, Home};
use flatten::BlockProc;
use jf_base::{List, Memory};
use std::alloc::{AllocError, Global};

/// Where the range of a value begins.
#[derive(Clone, Copy, Debug)]
pub struct Start {
    pub first: u32,
    pub value: u32,
}

/// What the scan says of a value: nothing yet, one of the twelve registers that callees keep, by its place among them, or a slot of its own.
#[derive(Clone, Copy, Debug)]
pub enum Choice {
    Open,
    Saved(u8),
    Slot,
}

fn is_open(choice: &Choice) -> bool
    ensures open { (result ≡ true) → code choice.now ≡ 13 }
    ensures chosen { (result ≡ false) → IsProper choice.now → code choice.now ≢ 13 }
{
    match choice {
        Choice::Open => true,
        Choice::Saved(_) => false,
        Choice::Slot => false,
    }
}

fn starts_by_value(alloc: Global, ranges: &[Range]) -> Result<Vec<Start>, AllocError>
    requires { length ranges.now < 2 ^ 32 }
    ensures { IfOk result (λ starts. Starts ranges.now starts.items) }
{
    let mut starts = Vec::with_capacity(alloc, ranges.len())?;
    for v in 0..ranges.len() {
        starts.push(Start {
            first: ranges[v].first,
            value: v as u32,
        })?;
    }
    Ok(starts)
}

fn starts_in_order(alloc: Global, ranges: &[Range]) -> Result<Vec<Start>, AllocError>
    requires { length ranges.now < 2 ^ 32 }
    ensures starts { IfOk result (λ starts. Starts ranges.now starts.items) }
    ensures order { IfOk result (λ starts. IsNonDecreasingBy (λ s. s.first) starts.items) }
{
    let mut starts = starts_by_value(alloc, ranges)?;
    starts.sort_by_key(|start| start.first)?;
    Ok(starts)
}

// A register whose last user's range has ended before k.
fn free_at(ranges: &[Range], users: &[u32], k: u32, none: u32) -> Option<usize>
    requires count { length ranges.now ≡ none }
    requires users { AllUsers none users.now }
    ensures { FreeAnswer none ranges.now users.now k result }
{
    for r in 0..users.len() {
        let user = users[r];
        if user == none || ranges[user as usize].last < k {
            return Some(r);
        }
    }
    None
}

// Chooses a home for a value whose range begins here, and that has none yet; no range that begins later has been seen.
fn choose(
    _p: &BlockProc,
    ranges: &[Range],
    choices: &mut Vec<Choice>,
    users: &mut Vec<u32>,
    _at: u32,
    start: &Start,
)
    requires ranges { Ranges _p.now ranges.now }
    requires value { start.now.value < _p.now.values }
    requires first { start.now.first ≡ first_of ranges.now start.now.value }
    requires order { _at ≤ start.now.first }
    requires scan { Scan _p.now ranges.now (codes choices.old.items) users.old.items _at }
    requires proper { AllProper choices.old.items }
    ensures scan { Scan _p.now ranges.now (codes choices.new.items) users.new.items start.now.first }
    ensures proper { AllProper choices.new.items }
    ensures kept { (u : ℕ) → slice_index (codes choices.old.items) u ≢ 13 → slice_index (codes choices.new.items) u ≢ 13 }
    ensures done { start.now.first < 4294967295 → slice_index (codes choices.new.items) start.now.value ≢ 13 }
{
    if start.first == 4294967295 {
        return;
    }
    let v = start.value as usize;
    if !is_open(&choices[v]) {
        return;
    }
    match free_at(ranges, users.as_slice(), start.first, _p.values) {
        Some(r) => {
            choices[v] = Choice::Saved(r as u8);
            users[r] = start.value;
        }
        None => {
            choices[v] = Choice::Slot;
        }
    }
}

pub fn filled(alloc: Global, len: usize, item: u32) -> Result<Vec<u32>, AllocError>
    ensures len { IfOk result (λ v. length v.items ≡ len) }
    ensures all { IfOk result (λ v. (u : ℕ) → u < len → slice_index v.items u ≡ item) }
{
    let mut items = Vec::with_capacity(alloc, len)?;
    for _ in 0..len {
        items.push(item)?;
    }
    Ok(items)
}

fn all_open(alloc: Global, len: usize) -> Result<Vec<Choice>, AllocError>
    ensures len { IfOk result (λ v. length v.items ≡ len) }
    ensures all { IfOk result (λ v. (u : ℕ) → u < len → slice_index_or v.items u (C.Open) ≡ C.Open) }
{
    let mut items = Vec::with_capacity(alloc, len)?;
    for _ in 0..len {
        items.push(Choice::Open)?;
    }
    Ok(items)
}

// A register or a slot for each value that is present anywhere.
fn scan(alloc: Global, p: &BlockProc, ranges: &[Range]) -> Result<Vec<Choice>, AllocError>
    requires ranges { Ranges p.now ranges.now }
    ensures scan { IfOk result (λ choices. Scanned p.now ranges.now (codes choices.items)) }
    ensures proper { IfOk result (λ choices. AllProper choices.items) }
{
    let _values = p.values;
    let starts = starts_in_order(alloc, ranges)?;
    let mut choices = all_open(alloc, ranges.len())?;
    let mut users = filled(alloc, 12, p.values)?;
    let mut at = 0u32;
    for i in 0..starts.len() {
        let start = &starts[i];
        choose(p, ranges, &mut choices, &mut users, at, start);
        at = start.first;
    }
    Ok(choices)
}

// Those registers are 8, 9 and 18 to 27. A value that is present nowhere gets the first.
fn home_of(choice: &Choice, v: u32) -> Home
    requires { IsProper choice.now }
    ensures { IsChoice v (code choice.now) result }
{
    match choice {
        Choice::Open => Home::Register(8),
        Choice::Saved(r) => Home::Register(if *r < 2 { 8 + *r } else { 16 + *r }),
        Choice::Slot => Home::Slot(v),
    }
}

fn homes_of(alloc: Global, choices: &[Choice]) -> Result<Vec<Home>, AllocError>
    requires count { length choices.now < 2 ^ 32 }
    requires proper { AllProper choices.now }
    ensures { IfOk result (λ homes. Chosen (codes choices.now) homes.items) }
{
    let mut homes = Vec::with_capacity(alloc, choices.len())?;
    for v in 0..choices.len() {
        homes.push(home_of(&choices[v], v as u32))?;
    }
    Ok(homes)
}

fn homes_by_scan(alloc: Global, p: &BlockProc, count: u32) -> Result<List<Home>, AllocError>
    requires named { IsNamed p.now }
    requires count { count ≡ total p.now.blocks }
    requires size { count < 2 ^ 32 - 1 }
    requires set_first { UsesAreSet p.now }
    ensures homes { IfOk result (λ homes. AreHomes p.now.values homes) }
    ensures valid { IfOk result (λ homes. IsVerdict homes p.now V.Yes) }
    ensures slots { IfOk result (λ homes. SlotsCrowded p.now homes) }
{
    let _values = p.values;
    let ranges = ranges_of(alloc, p)?;
    let choices = scan(alloc, p, ranges.as_slice())?;
    let homes = homes_of(alloc, choices.as_slice())?;
    Ok(List::from_vec(homes))
}

/// A home for each value, by a linear scan over their ranges, where each use has a definition before it on every path. The assignment is valid, and a value has a slot only where some instruction lies in its range and in those of at least twelve others.
/// A procedure with 2^32 - 1 instructions or more is want of memory too.
pub fn assign(alloc: Global, p: &BlockProc) -> Result<Assignment, Memory>
    requires named { IsNamed p.now }
    requires set_first { UsesAreSet p.now }
    ensures homes { IfOk result (λ a. AreHomes p.now.values a.homes) }
    ensures valid { IfOk result (λ a. IsVerdict a.homes p.now V.Yes) }
    ensures slots { IfOk result (λ a. SlotsCrowded p.now a.homes) }
{
    let count = count_insns(p)?;
    if count == 4294967295 {
        return Err(Memory);
    }
    let homes = homes_by_scan(alloc, p, count)?;
    Ok(Assignment { homes })
}
