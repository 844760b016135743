//! Which units there are, in which a module is, and on which others each depends.

ghost use Rattle.std.specs.Prelude.{◌≡◌, OnOk, IfOk, Decides};
ghost use Rattle.f_items.specs.Order.{IsUnit, IsModuleUnit};
ghost use Rattle.f_order.specs.Units.{AreUnits};
ghost use Rattle.f_order.specs.Graph.{AreEdges, put_some};
ghost use Rattle.f_order.specs.Marks.{marked};

use crate::marks::{mark_some, no_marks};
use crate::units::{Edge, edge_at, module_at, unit_at};
use f_scope::{Program, item_count, scope_count};
use f_use::{Places, no_lists, put_at};
use std::alloc::{AllocError, Global};

/// What is known of units, by the numbers of their scopes, lent: which there are, in which a module is, and on which others each depends.
#[derive(Clone, Copy)]
pub(crate) struct Graph<'a> {
    pub(crate) units: &'a [bool],
    pub(crate) modules: &'a [bool],
    pub(crate) edges: &'a [Places],
}

/// Marks the units in which items stand.
pub(crate) fn mark_units(
    alloc: Global,
    program: &Program,
    units: &[usize],
) -> Result<Vec<bool>, AllocError>
    requires { AreUnits program.now units.now }
    ensures { IfOk result (λ marks. (u : _) → Decides (marked marks.items u) (IsUnit program.now.items u)) }
{
    let mut marks = no_marks(alloc, scope_count(program))?;
    let count = item_count(program);
    let mut place = 0;
    'items: while place < count {
        mark_some(&mut marks, unit_at(program, units, place));
        place += 1;
    }
    Ok(marks)
}

/// Marks the units in which modules are.
pub(crate) fn mark_modules(
    alloc: Global,
    program: &Program,
    units: &[usize],
) -> Result<Vec<bool>, AllocError>
    requires { AreUnits program.now units.now }
    ensures { IfOk result (λ marks. (u : _) → Decides (marked marks.items u) (IsModuleUnit program.now.items u)) }
{
    let mut marks = no_marks(alloc, scope_count(program))?;
    let count = item_count(program);
    let mut place = 0;
    'items: while place < count {
        mark_some(&mut marks, module_at(program, units, place));
        place += 1;
    }
    Ok(marks)
}

/// Puts an edge into the list of its unit, if there is one.
fn put_some(lists: &mut Vec<Places>, edge: Option<Edge>) -> Result<(), AllocError>
    ensures { OnOk result (lists.new.items ≡ put_some lists.old.items edge) }
{
    match edge {
        None => Ok(()),
        Some(edge) => put_at(lists, edge.unit, edge.module_unit),
    }
}

/// The units on which each unit depends. It takes time in proportion to the items.
pub(crate) fn find_edges(
    alloc: Global,
    program: &Program,
    units: &[usize],
) -> Result<Vec<Places>, AllocError>
    requires { AreUnits program.now units.now }
    ensures { IfOk result (λ edges. AreEdges program.now.items edges.items) }
{
    let mut edges = no_lists(alloc, scope_count(program))?;
    let count = item_count(program);
    let mut place = 0;
    'items: while place < count {
        put_some(&mut edges, edge_at(program, units, place))?;
        place += 1;
    }
    Ok(edges)
}
