//! The names that a scope declares.

ghost use Rattle.std.specs.Prelude.{◌≡◌, [], OnOk, OnErr, None, Some, MatchOption, length, slice_get};
ghost use Rattle.f_scope.specs.Tables.{entry_at, put, entry_with, noted};

use indexmap::IndexMap;
use std::alloc::{AllocError, Global};
use std::marker::Model;

/// Where a scope declares a name: the place of the first item that names it, and of the first that tells what it is.
#[derive(Clone, Copy, PartialEq, Eq, Debug)]
pub struct Entry {
    pub first: usize,
    pub told: Option<usize>,
}

/// The names that a scope declares, in the order in which they are named first.
#[derive(Drop)]
pub struct Table {
    entries: IndexMap<Vec<u8>, Entry>,
}

impl Model for Table {
    ghost use Rattle.std.specs.Prelude.{List, map};
    ghost use Rattle.f_scope.specs.Tables.{Row};

    ghost Value = { List Row };

    ghost view = { λ t. map (λ e. (e.0.items, e.1)) t.entries.entries };
}

/// An entry, behind one more declaration at a place.
fn entry_with(entry: Option<Entry>, place: usize, tells: bool) -> Entry
    ensures { result ≡ entry_with entry place tells }
{
    let told = if tells { Some(place) } else { None };
    match entry {
        None => Entry { first: place, told },
        Some(entry) => match entry.told {
            None => Entry {
                first: entry.first,
                told,
            },
            Some(_) => entry,
        },
    }
}

impl Table {
    /// No names.
    pub fn new(alloc: Global) -> Table
        ensures { result ≡ [] }
    {
        Table {
            entries: IndexMap::new(alloc),
        }
    }

    /// Where the name is declared, if it is.
    pub fn find(&self, name: &[u8]) -> Option<Entry>
        ensures { result ≡ entry_at name.now self.now }
    {
        self.entries.get(name).copied()
    }

    /// How many names it has.
    pub fn len(&self) -> usize
        ensures { result ≡ length self.now }
    {
        self.entries.len()
    }

    /// A name with its entry, by its number among the names.
    pub fn row(&self, index: usize) -> Option<(&[u8], Entry)>
        ensures { MatchOption result (slice_get self.now index ≡ None) (λ row. slice_get self.now index ≡ Some (row.0.now, row.1)) }
    {
        match self.entries.get_index(index) {
            None => None,
            Some((name, entry)) => Some((name.as_slice(), *entry)),
        }
    }

    /// Gives a name an entry.
    fn put(&mut self, name: Vec<u8>, entry: Entry) -> Result<(), AllocError>
        ensures { OnOk result (self.new ≡ put self.old name.items entry) }
    {
        self.entries.insert(name, entry)?;
        Ok(())
    }

    /// Notes a declaration of a name at a place.
    pub fn note(
        &mut self,
        alloc: Global,
        name: &[u8],
        place: usize,
        tells: bool,
    ) -> Result<(), AllocError>
        ensures { OnOk result (self.new ≡ noted self.old name.now place tells) }
    {
        let entry = entry_with(self.find(name), place, tells);
        let name = name.to_vec(alloc)?;
        self.put(name, entry)
    }
}
