//! The first USE statement on a cycle of modules.

ghost use Rattle.std.specs.Prelude.{IfOk, Decides};
ghost use Rattle.f_items.specs.Order.{IsOnCycle};
ghost use Rattle.f_order.specs.Units.{AreUnits};
ghost use Rattle.f_order.specs.Graph.{AreEdges};
ghost use Rattle.f_order.specs.Order.{CycleFound};

use crate::marks::is_marked;
use crate::reach::reached_from;
use crate::units::edge_at;
use f_scope::{Program, item_count};
use f_use::Places;
use std::alloc::{AllocError, Global};

/// Whether the item at a place is of a USE statement on a cycle.
fn is_on_cycle(
    alloc: Global,
    program: &Program,
    units: &[usize],
    edges: &[Places],
    place: usize,
) -> Result<bool, AllocError>
    requires units { AreUnits program.now units.now }
    requires edges { AreEdges program.now.items edges.now }
    ensures { IfOk result (λ is. Decides is (IsOnCycle program.now.items place)) }
{
    match edge_at(program, units, place) {
        None => Ok(false),
        Some(edge) => {
            let marks = reached_from(alloc, program, edges, edge.module_unit)?;
            Ok(is_marked(marks.as_slice(), edge.unit))
        }
    }
}

/// The first place of an item of a USE statement on a cycle, if there is one. It takes time in proportion to the edges for each.
pub(crate) fn first_on_cycle(
    alloc: Global,
    program: &Program,
    units: &[usize],
    edges: &[Places],
) -> Result<Option<usize>, AllocError>
    requires units { AreUnits program.now units.now }
    requires edges { AreEdges program.now.items edges.now }
    ensures { IfOk result (λ first. CycleFound program.now.items first) }
{
    let count = item_count(program);
    let mut place = 0;
    'items: while place < count {
        if is_on_cycle(alloc, program, units, edges, place)? {
            return Ok(Some(place));
        }
        place += 1;
    }
    Ok(None)
}
