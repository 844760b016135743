//! From which entities a name comes.

ghost use Rattle.std.specs.Prelude.{◌≡◌, OnOk};
ghost use Rattle.f_use.specs.Origins.{differs, origins_of, added, added_some, added_entry};

use f_scope::{Entry, Table};
use std::alloc::{AllocError, Global};

/// The entities that a name denotes, each by the place of the first item that declares it: one, and another if there are several.
#[derive(Clone, Copy, PartialEq, Eq, Debug)]
pub struct Origins {
    pub first: usize,
    pub other: Option<usize>,
}

/// The entities of a name's entry in a table of used names: there `told` is the first that differs.
pub fn origins_of(entry: Option<Entry>) -> Option<Origins>
    ensures { result ≡ origins_of entry }
{
    match entry {
        None => None,
        Some(entry) => Some(Origins {
            first: entry.first,
            other: entry.told,
        }),
    }
}

/// The entity at a place differs from the first of an entry.
fn differs(entry: Option<Entry>, place: usize) -> bool
    ensures { result ≡ differs entry place }
{
    match entry {
        None => false,
        Some(entry) => entry.first != place,
    }
}

/// Adds to a table that the name comes from the entity that is declared at a place.
pub fn add(alloc: Global, table: &mut Table, name: &[u8], place: usize) -> Result<(), AllocError>
    ensures { OnOk result (table.new ≡ added table.old name.now place) }
{
    let differs = differs(table.find(name), place);
    table.note(alloc, name, place, differs)
}

/// Adds to a table that the name comes from the entity at a place, if there is one.
pub fn add_some(
    alloc: Global,
    table: &mut Table,
    name: &[u8],
    place: Option<usize>,
) -> Result<(), AllocError>
    ensures { OnOk result (table.new ≡ added_some table.old name.now place) }
{
    match place {
        None => Ok(()),
        Some(place) => add(alloc, table, name, place),
    }
}

/// Adds to a table that the name comes from the entities of an entry.
pub fn add_entry(
    alloc: Global,
    table: &mut Table,
    name: &[u8],
    entry: Option<Entry>,
) -> Result<(), AllocError>
    ensures { OnOk result (table.new ≡ added_entry table.old name.now entry) }
{
    match entry {
        None => Ok(()),
        Some(entry) => {
            add(alloc, table, name, entry.first)?;
            add_some(alloc, table, name, entry.told)
        }
    }
}
