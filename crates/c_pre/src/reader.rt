//! Reading texts that include one another.

ghost use Rattle.std.specs.Prelude.{◌≡◌, ℕ, ◌≤◌, List, length, reverse, OnOk, Some};
ghost use Rattle.c_directives.specs.Conditions.{asked};
ghost use Rattle.c_directives.specs.Reading.{act_at, line_at, file_at};
ghost use Rattle.c_directives.specs.Sorting.{state_of};
ghost use Rattle.c_pre.specs.Files.{Gives, StopCounts, StopStrays, include_at};

use c_directives::{
    Action, Asked, Open, Origin, Pre, Stop, breaks, define, first_open, header, header_text,
    place_of, sort, undefine,
};
use c_lines::{Head, Rule, row_at};
use c_text::{Lexeme, Point, lexemes};
use jf_base::Place;
use jf_outside::{Library, LibraryFault};
use std::alloc::Global;

/// The most bytes of a file.
const MOST_BYTES: usize = 1_048_576;

/// Where a text is read: how many tokens there may be, how deep includes may nest behind it, and where it comes from.
#[derive(Clone, Copy, Debug)]
pub struct Reading {
    pub limit: usize,
    pub depth: usize,
    pub origin: Origin,
}

// Does what a directive says that is no conditional.
#[cycle(reader)]
fn act<L: Library>(
    alloc: Global,
    library: &mut L,
    reading: Reading,
    pre: &mut Pre,
    action: &Action,
) -> Result<(), Stop>
    requires { length pre.old.out.items ≤ reading.limit }
    ensures room { OnOk result (length pre.new.out.items ≤ reading.limit) }
    ensures files { L.files library.new ≡ L.files library.old }
    ensures cause { StopCounts result (L.faults library.old) (L.faults library.new) }
    ensures strays { (files : List (List ℕ × List ℕ)) → L.files library.old ≡ Some files → StopStrays result files (L.strays library.old) (L.strays library.new) }
    ensures gives { (files : List (List ℕ × List ℕ)) → L.files library.old ≡ Some files →
        Gives result (λ k. state_of k pre.new) (λ k. act_at (include_at files reading.limit reading.depth) action.now.head (state_of k pre.old) action.now.place action.now.tail.now) }
{
    let place = action.place;
    match action.head {
        Head::Include => match header(alloc, &mut pre.macros, place, action.tail) {
            Err(stop) => Err(stop),
            Ok(asked) => include(alloc, library, reading, pre, &asked, place),
        },
        Head::Define => define(alloc, &mut pre.macros, place, action.tail),
        Head::Undef => undefine(&mut pre.macros, place, action.tail),
        Head::Error => Err(breaks(Rule::Error, place)),
        Head::Unknown => Err(breaks(Rule::Form, place)),
        _ => Ok(()),
    }
}

// The text of a header.
#[cycle(reader)]
fn include<L: Library>(
    alloc: Global,
    library: &mut L,
    reading: Reading,
    pre: &mut Pre,
    name: &Asked,
    place: Place,
) -> Result<(), Stop>
    requires { length pre.old.out.items ≤ reading.limit }
    ensures room { OnOk result (length pre.new.out.items ≤ reading.limit) }
    ensures files { L.files library.new ≡ L.files library.old }
    ensures cause { StopCounts result (L.faults library.old) (L.faults library.new) }
    ensures strays { (files : List (List ℕ × List ℕ)) → L.files library.old ≡ Some files → StopStrays result files (L.strays library.old) (L.strays library.new) }
    ensures gives { (files : List (List ℕ × List ℕ)) → L.files library.old ≡ Some files →
        Gives result (λ k. state_of k pre.new) (λ k. include_at files reading.limit reading.depth (state_of k pre.old) (asked name.now) place) }
{
    if reading.depth == 0 {
        return Err(breaks(Rule::Header, place));
    }
    let inner = Reading {
        limit: reading.limit,
        depth: reading.depth - 1,
        origin: Origin::Included(place),
    };
    match name {
        Asked::BuiltIn(name) => match header_text(name.as_slice()) {
            None => Err(breaks(Rule::Header, place)),
            Some(bytes) => read(alloc, library, inner, pre, bytes),
        },
        Asked::File(name) => {
            let asked = String::from_str(alloc, name.as_str())?;
            match library.read(alloc, name.as_str()) {
                Err(LibraryFault::Memory) => Err(Stop::Memory),
                Err(LibraryFault::Failed) => Err(Stop::Library(asked)),
                Ok(bytes) => read(alloc, library, inner, pre, &bytes),
            }
        }
    }
}

// A line.
#[cycle(reader)]
fn step<L: Library>(
    alloc: Global,
    library: &mut L,
    reading: Reading,
    pre: &mut Pre,
    opens: &mut Vec<Open>,
    row: &[Lexeme],
) -> Result<(), Stop>
    requires { length pre.old.out.items ≤ reading.limit }
    ensures room { OnOk result (length pre.new.out.items ≤ reading.limit) }
    ensures files { L.files library.new ≡ L.files library.old }
    ensures cause { StopCounts result (L.faults library.old) (L.faults library.new) }
    ensures strays { (files : List (List ℕ × List ℕ)) → L.files library.old ≡ Some files → StopStrays result files (L.strays library.old) (L.strays library.new) }
    ensures gives { (files : List (List ℕ × List ℕ)) → L.files library.old ≡ Some files →
        Gives result (λ k. (reverse opens.new.items, state_of k pre.new)) (λ k. line_at (include_at files reading.limit reading.depth) reading.limit reading.origin (reverse opens.old.items, state_of k pre.old) row.now) }
{
    match sort(alloc, pre, opens, reading.limit, reading.origin, row) {
        Err(stop) => Err(stop),
        Ok(sorted) => match sorted {
            None => Ok(()),
            Some(action) => act(alloc, library, reading, pre, &action),
        },
    }
}

/// A whole text, line by line.
#[cycle(reader)]
pub fn read<L: Library>(
    alloc: Global,
    library: &mut L,
    reading: Reading,
    pre: &mut Pre,
    bytes: &[u8],
) -> Result<(), Stop>
    requires { length pre.old.out.items ≤ reading.limit }
    ensures room { OnOk result (length pre.new.out.items ≤ reading.limit) }
    ensures files { L.files library.new ≡ L.files library.old }
    ensures cause { StopCounts result (L.faults library.old) (L.faults library.new) }
    ensures strays { (files : List (List ℕ × List ℕ)) → L.files library.old ≡ Some files → StopStrays result files (L.strays library.old) (L.strays library.new) }
    ensures gives { (files : List (List ℕ × List ℕ)) → L.files library.old ≡ Some files →
        Gives result (λ k. state_of k pre.new) (λ k. file_at (include_at files reading.limit reading.depth) reading.limit reading.origin (state_of k pre.old) bytes.now) }
{
    if bytes.len() > MOST_BYTES {
        let first = Point { line: 1, column: 1 };
        return Err(breaks(Rule::TooMany, place_of(reading.origin, first)));
    }
    let lexemes = lexemes(alloc, bytes)?;
    let mut opens = Vec::new(alloc);
    let mut rest = lexemes.as_slice();
    'lines: while !rest.is_empty() {
        let (row, behind) = row_at(rest);
        match step(alloc, library, reading, pre, &mut opens, row) {
            Err(stop) => return Err(stop),
            Ok(()) => rest = behind,
        }
    }
    match first_open(&opens) {
        None => Ok(()),
        Some(place) => Err(breaks(Rule::Balance, place)),
    }
}
