//! A table of names with where they are defined, in the order in which they were seen.
ghost use Rattle.std.specs.Prelude.{◌≡◌, ℕ, List, [], ◌∷◌, ◌++◌, None, IfOk, OnOk, OnErr, string_bytes};
ghost use Rattle.linker.specs.Names.{Entry, definition_at, unit_entries, entries_from, asked_names, all_asked};
ghost use Rattle.linker.specs.Table.{IsTable, AreMissed};

use indexmap::IndexMap;
use jf_base::Text;
use rv_assemble::{ObjUnit, Relocation};
use std::alloc::{AllocError, Global};
use std::marker::Model;

/// Where a name is defined: its unit, and its place there.
#[derive(Clone, Copy, PartialEq, Eq, Debug)]
pub(crate) struct Definition {
    pub(crate) unit: u64,
    pub(crate) place: u64,
}

/// The names with their definitions, in first-seen order.
#[derive(Drop)]
pub(crate) struct Names {
    definitions: IndexMap<String, Definition>,
}

impl Model for Names {
    ghost use Rattle.std.specs.Prelude.{List, map};
    ghost use Rattle.linker.specs.Names.{Entry, entry_of};

    ghost Value = { List Entry };

    ghost view = { λ n. map entry_of n.definitions.entries };
}

impl Names {
    pub(crate) fn new(alloc: Global) -> Names
        ensures { result ≡ [] }
    {
        Names {
            definitions: IndexMap::new(alloc),
        }
    }

    /// The definition of a name, and none exactly where it is not there.
    pub(crate) fn find(&self, name: &str) -> Option<Definition>
        ensures { result ≡ definition_at name.now self.now }
    {
        self.definitions.get(name).copied()
    }

    /// Adds a name that is not there yet. It goes last.
    pub(crate) fn insert(&mut self, name: String, definition: Definition) -> Result<(), AllocError>
        requires { definition_at (string_bytes name) self.old ≡ None }
        ensures ok { OnOk result (self.new ≡ self.old ++ (string_bytes name, definition) ∷ []) }
        ensures err { OnErr result (self.new ≡ self.old) }
    {
        self.definitions.insert(name, definition)?;
        Ok(())
    }
}

/// Adds a definition: the first of its name goes into the table, and a name that has one already goes behind `twice`.
fn define(
    table: &mut Names,
    twice: &mut Vec<Text>,
    name: &Text,
    definition: Definition,
) -> Result<(), AllocError>
    ensures { OnOk result ((entries : List Entry) → IsTable entries table.old twice.old.items → IsTable (entries ++ (name.now, definition) ∷ []) table.new twice.new.items) }
{
    let text = name.clone()?;
    match table.find(name.as_str()) {
        Some(_) => twice.push(text)?,
        None => table.insert(text.into_string(), definition)?,
    }
    Ok(())
}

/// Adds what the k-th unit defines.
fn define_unit(
    table: &mut Names,
    twice: &mut Vec<Text>,
    unit: u64,
    names: &[(Text, u64)],
) -> Result<(), AllocError>
    ensures { OnOk result ((entries : List Entry) → IsTable entries table.old twice.old.items → IsTable (entries ++ unit_entries unit names.now) table.new twice.new.items) }
{
    for (name, place) in names {
        define(
            table,
            twice,
            name,
            Definition {
                unit,
                place: *place,
            },
        )?;
    }
    Ok(())
}

/// The definitions of all units, and the names that have two.
pub(crate) fn table_of(alloc: Global, units: &[ObjUnit]) -> Result<(Names, Vec<Text>), AllocError>
    ensures { IfOk result (λ r. IsTable (entries_from 0 units.now) r.0 r.1.items) }
{
    let mut table = Names::new(alloc);
    let mut twice = Vec::new(alloc);
    for (k, u) in units.iter().enumerate() {
        define_unit(&mut table, &mut twice, k as u64, u.names.as_slice())?;
    }
    Ok((table, twice))
}

/// Puts a name that isn't in the table behind `missing`.
fn ask(table: &Names, missing: &mut Vec<Text>, name: &Text) -> Result<(), AllocError>
    ensures { OnOk result ((asked : List (List ℕ)) → AreMissed asked table.now missing.old.items → AreMissed (asked ++ name.now ∷ []) table.now missing.new.items) }
{
    match table.find(name.as_str()) {
        Some(_) => {}
        None => missing.push(name.clone()?)?,
    }
    Ok(())
}

fn ask_unit(
    table: &Names,
    missing: &mut Vec<Text>,
    relocations: &[Relocation],
) -> Result<(), AllocError>
    ensures { OnOk result ((asked : List (List ℕ)) → AreMissed asked table.now missing.old.items → AreMissed (asked ++ asked_names relocations.now) table.now missing.new.items) }
{
    for r in relocations {
        ask(table, missing, &r.name)?;
    }
    Ok(())
}

/// The names that are asked for and have no definition.
pub(crate) fn missing_of(
    alloc: Global,
    table: &Names,
    units: &[ObjUnit],
) -> Result<Vec<Text>, AllocError>
    ensures { IfOk result (λ missing. AreMissed (all_asked units.now) table.now missing.items) }
{
    let mut missing = Vec::new(alloc);
    for u in units {
        ask_unit(table, &mut missing, u.relocations.as_slice())?;
    }
    let entry = Text::from_text(alloc, "main")?;
    ask(table, &mut missing, &entry)?;
    Ok(missing)
}
