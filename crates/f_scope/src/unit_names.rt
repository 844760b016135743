//! The names of programs and modules.

ghost use Rattle.std.specs.Prelude.{◌≡◌, IfOk, map};
ghost use Rattle.std.specs.Option.{option_copied};
ghost use Rattle.f_scope.specs.Rows.{seen};
ghost use Rattle.f_scope.specs.UnitNames.{is_unit_name, unit_named, scan_units, UnitsFound};

use crate::placement::{Placed, ScopeRow};
use crate::table::Table;
use f_items::{Class, Item};
use jf_base::List;
use std::alloc::{AllocError, Global};

/// The name of a program or of a module itself is declared so.
pub fn is_unit_name(class: Class) -> bool
    ensures { result ≡ is_unit_name class }
{
    match class {
        Class::UnitName => true,
        _ => false,
    }
}

/// The name of a program or a module, where an item declares it.
fn unit_named(item: &Item) -> Option<&List<u8>>
    ensures { option_copied result ≡ unit_named item.now }
{
    match item {
        Item::Declares(declared) => {
            if is_unit_name(declared.class) {
                Some(&declared.name.bytes)
            } else {
                None
            }
        }
        _ => None,
    }
}

#[tactic(auto, unfolding(crate::specs::UnitNames::scan_units))]
fn scan(alloc: Global, table: &mut Table, items: &[Placed]) -> Result<Option<usize>, AllocError>
    ensures { IfOk result (λ twice. (twice, table.new) ≡ scan_units table.old 0 items.now) }
{
    let mut place = 0;
    let mut rest = items;
    'items: while let Some((item, behind)) = rest.split_first() {
        match unit_named(&item.item) {
            None => {}
            Some(name) => match table.find(name.as_slice()) {
                Some(_) => return Ok(Some(place)),
                None => table.note(alloc, name.as_slice(), place, true)?,
            },
        }
        place += 1;
        rest = behind;
    }
    Ok(None)
}

/// The first place at which a program or a module has the name of another before it, or none, and the place of each name up to there.
pub fn collect_unit_names(
    alloc: Global,
    scopes: &[ScopeRow],
    items: &[Placed],
) -> Result<(Option<usize>, Table), AllocError>
    ensures { IfOk result (λ found. UnitsFound (map (seen scopes.now) items.now) found.0 found.1) }
{
    let mut table = Table::new(alloc);
    let twice = scan(alloc, &mut table, items)?;
    let _scopes = scopes;
    Ok((twice, table))
}
