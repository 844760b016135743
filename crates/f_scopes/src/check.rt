//! The rules on names, and the scopes of a program that keeps them.

ghost use Rattle.std.specs.Prelude.{[]};
ghost use Rattle.f_items.specs.Places.{located};
ghost use Rattle.f_unit_items.specs.Units.{items_of};
ghost use Rattle.f_scopes.specs.Answer.{IsAnswer};

use crate::place::{item_places, refused};
use crate::scope_table::{Scopes, scopes_of};
use f_names::{Checked, check_names};
use f_tree::Unit;
use f_unit_items::items_of;
use jf_base::Refusal;
use std::alloc::Global;

/// The scopes of a program with these units, the files' units one behind the other (ISO/IEC 1539-1:2018, 19).
///
/// The refusal is the first broken rule on names, N01 to N08, at the first token of what breaks it: a name that two program units have, then a cycle of
/// USE statements, then the units by their order, in each the first item and of its rules the one with the smallest number. `Refusal::Memory` is want of
/// memory.
pub fn scopes(alloc: Global, units: &[Unit]) -> Result<Scopes, Refusal>
    ensures { IsAnswer (located 1 [] (items_of units.now)) result }
{
    let items = items_of(alloc, units)?;
    let places = item_places(alloc, items.as_slice())?;
    match check_names(alloc, items)? {
        Checked::Broken(broken) => Err(refused(places.as_slice(), broken)),
        Checked::Kept(resolved) => {
            let scopes = scopes_of(alloc, resolved)?;
            Ok(scopes)
        }
    }
}
