//! An order of all scopes in which each stands behind the modules that it uses.

ghost use Rattle.std.specs.Prelude.{◌≡◌, [], IfOk, length};
ghost use Rattle.f_items.specs.Order.{InOrder};
ghost use Rattle.f_use.specs.Associated.{IsOrder};
ghost use Rattle.f_order.specs.Units.{AreUnits};
ghost use Rattle.f_order.specs.Scopes.{AreMembers, UnitsIn, ScopesIn};

use crate::marks::no_marks;
use crate::reach::{extend, extend_one};
use crate::units::number_at;
use f_scope::{Program, scope_count};
use f_use::{Places, no_lists, places_in, put_at};
use std::alloc::{AllocError, Global};

/// The scopes in each unit, by its number.
fn members(alloc: Global, units: &[usize], count: usize) -> Result<Vec<Places>, AllocError>
    ensures { IfOk result (λ lists. AreMembers units.now count lists.items) }
{
    let mut lists = no_lists(alloc, count)?;
    let mut scope = 0;
    'scopes: while scope < count {
        put_at(&mut lists, number_at(units, scope), scope)?;
        scope += 1;
    }
    Ok(lists)
}

/// Puts the scopes of the units behind one another, in the order of these units.
fn put_units(
    program: &Program,
    units: &[usize],
    lists: &[Places],
    order: &[usize],
    found: &mut Vec<usize>,
    marks: &mut Vec<bool>,
) -> Result<(), AllocError>
    requires units { AreUnits program.now units.now }
    requires lists { AreMembers units.now program.now.scopes lists.now }
    requires order { InOrder program.now.items [] order.now }
    requires none { ScopesIn program.now (found.old.items, marks.old.items) }
    ensures { Rattle.std.specs.Prelude.OnOk result (UnitsIn program.now units.now (found.new.items, marks.new.items)) }
{
    let _count = scope_count(program);
    let mut rest = order;
    'units: while let Some((unit, behind)) = rest.split_first() {
        extend(found, marks, places_in(lists, *unit))?;
        rest = behind;
    }
    Ok(())
}

/// Puts the scopes behind that aren't there yet.
fn put_others(
    program: &Program,
    units: &[usize],
    found: &mut Vec<usize>,
    marks: &mut Vec<bool>,
) -> Result<(), AllocError>
    requires units { AreUnits program.now units.now }
    requires known { UnitsIn program.now units.now (found.old.items, marks.old.items) }
    ensures { Rattle.std.specs.Prelude.OnOk result (IsOrder program.now found.new.items) }
{
    let count = scope_count(program);
    let mut scope = 0;
    'scopes: while scope < count {
        extend_one(found, marks, scope)?;
        scope += 1;
    }
    Ok(())
}

/// All scopes of a program, each behind the modules that it uses, by the unit of each scope and the order of the units. It takes time in proportion to the
/// scopes.
pub fn order_scopes(
    alloc: Global,
    program: &Program,
    units: &[usize],
    order: &[usize],
) -> Result<Vec<usize>, AllocError>
    requires units { AreUnits program.now units.now }
    requires order { InOrder program.now.items [] order.now }
    ensures { IfOk result (λ scopes. IsOrder program.now scopes.items) }
{
    let count = scope_count(program);
    let lists = members(alloc, units, count)?;
    let mut marks = no_marks(alloc, count)?;
    let mut found = Vec::new(alloc);
    put_units(
        program,
        units,
        lists.as_slice(),
        order,
        &mut found,
        &mut marks,
    )?;
    put_others(program, units, &mut found, &mut marks)?;
    Ok(found)
}
