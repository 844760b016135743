//! The places of values, and what they hold at the start of a procedure.

ghost use Rattle.std.specs.Prelude.{◌≡◌, ℕ, ◌<◌, ◌≤◌, ◌^◌, length, slice_index, IfOk};
ghost use Rattle.block_homes.specs.Held.{place, places_of as all_places, starting};
ghost use Rattle.reg_alloc.specs.Rows.{Places, width};

use block_homes::Home;
use std::alloc::{AllocError, Global};

fn place_of(home: &Home) -> usize
    ensures { result ≡ place home.now }
{
    match home {
        Home::Register(r) => *r as usize,
        Home::Slot(s) => 32 + *s as usize,
    }
}

pub fn places_of(alloc: Global, homes: &[Home]) -> Result<Vec<usize>, AllocError>
    ensures { IfOk result (λ v. v.items ≡ all_places homes.now) }
{
    homes.iter().map(|home| place_of(home)).collect(alloc)
}

/// How many places there are up to the last home.
#[tactic(auto, unfolding(crate::specs::Rows::top))]
pub fn width_of(places: &[usize]) -> usize
    requires { width places.now < 2 ^ 64 }
    ensures { result ≡ width places.now }
{
    let mut last = 0;
    let mut rest = places;
    while let Some((place, tail)) = rest.split_first() {
        last = last.max(*place);
        rest = tail;
    }
    last + 1
}

/// What the places hold when the parameters have been written.
pub fn start_row(
    alloc: Global,
    places: &[usize],
    params: u32,
    size: usize,
    none: u32,
) -> Result<Vec<u32>, AllocError>
    requires params { params ≤ length places.now }
    requires places { Places (length places.now) size places.now }
    ensures len { IfOk result (λ row. length row.items ≡ size) }
    ensures cells { IfOk result (λ row. (h : ℕ) → h < size → slice_index row.items h ≡ starting places.now none h params) }
{
    let mut row = Vec::with_capacity(alloc, size)?;
    for _ in 0..size {
        row.push(none)?;
    }
    for v in 0..params {
        let at = places[v as usize];
        row[at] = v;
    }
    Ok(row)
}
