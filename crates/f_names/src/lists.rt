//! The places of the items of each unit.

ghost use Rattle.std.specs.Prelude.{◌≡◌, OnOk, IfOk};
ghost use Rattle.f_order.specs.Units.{AreUnits};
ghost use Rattle.f_names.specs.Lists.{put_unit, ArePlaces};

use f_order::unit_at;
use f_scope::{Program, item_count, scope_count};
use f_use::{Places, no_lists, put_at};
use std::alloc::{AllocError, Global};

/// Puts a place into the list of a unit, if there is one.
fn put_unit(lists: &mut Vec<Places>, unit: Option<usize>, place: usize) -> Result<(), AllocError>
    ensures { OnOk result (lists.new.items ≡ put_unit lists.old.items unit place) }
{
    match unit {
        None => Ok(()),
        Some(unit) => put_at(lists, unit, place),
    }
}

/// The places of the items of each unit, by its number, in the order of the text. It takes time in proportion to the items.
pub(crate) fn unit_places(
    alloc: Global,
    program: &Program,
    units: &[usize],
) -> Result<Vec<Places>, AllocError>
    requires { AreUnits program.now units.now }
    ensures { IfOk result (λ lists. ArePlaces program.now.items lists.items) }
{
    let count = item_count(program);
    let mut lists = no_lists(alloc, scope_count(program))?;
    let mut place = 0;
    'items: while place < count {
        put_unit(&mut lists, unit_at(program, units, place), place)?;
        place += 1;
    }
    Ok(lists)
}
