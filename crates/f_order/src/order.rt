//! The order in which units are looked at.

ghost use Rattle.std.specs.Prelude.{◌≡◌, ◌++◌, ◌∷◌, ◌<◌, [], OnOk, IfOk, false, replicate};
ghost use Rattle.f_order.specs.Marks.{set_mark};
ghost use Rattle.f_order.specs.Units.{AreUnits};
ghost use Rattle.f_order.specs.Graph.{IsGraph, is_other, LeastFound};
ghost use Rattle.f_order.specs.Order.{IsUnitOrder, AreDone, AllModules, ModulesDone, OthersDone};

use crate::cycle::first_on_cycle;
use crate::graph::{Graph, find_edges, mark_modules, mark_units};
use crate::marks::{is_marked, mark, no_marks};
use crate::ready::{next_module, release, users_of, wait_for_uses};
use f_scope::{Program, scope_count};
use f_use::places_in;
use std::alloc::{AllocError, Global};

/// In which order units are looked at, or why they have none.
#[derive(Drop)]
pub enum UnitOrder {
    /// The first item of a USE statement on a cycle of modules, counted from 0: N05.
    OnCycle(usize),
    /// The units in their order, each by the number of its scope.
    Ordered(Vec<usize>),
}

/// Whether there is such a unit that wasn't looked at.
fn is_other(units: &[bool], done: &[bool], unit: usize) -> bool
    ensures { result ≡ is_other units.now done.now unit }
{
    is_marked(units, unit) && !is_marked(done, unit)
}

/// The first of these units that wasn't looked at.
fn first_other(units: &[bool], done: &[bool]) -> Option<usize>
    ensures { LeastFound (λ u. is_other units.now done.now u) result }
{
    let mut unit = 0;
    'units: while unit < units.len() {
        if is_other(units, done, unit) {
            return Some(unit);
        }
        unit += 1;
    }
    None
}

/// Puts a unit behind those that were looked at.
fn take(order: &mut Vec<usize>, done: &mut Vec<bool>, unit: usize) -> Result<(), AllocError>
    ensures order { OnOk result (order.new.items ≡ order.old.items ++ unit ∷ []) }
    ensures done { OnOk result (done.new.items ≡ set_mark done.old.items unit) }
{
    order.push(unit)?;
    mark(done, unit);
    Ok(())
}

/// Puts modules behind one another as long as one can be looked at, where none was. It takes time in proportion to the edges, and to the modules that are
/// ready at once by the logarithm of their number.
fn order_modules(
    alloc: Global,
    program: &Program,
    graph: &Graph<'_>,
    order: &mut Vec<usize>,
    done: &mut Vec<bool>,
) -> Result<(), AllocError>
    requires graph { IsGraph program.now graph.now.units.now graph.now.modules.now graph.now.edges.now }
    requires done { AreDone program.now order.old.items done.old.items }
    requires none { done.old.items ≡ replicate program.now.scopes false }
    ensures { OnOk result (ModulesDone program.now graph.now.modules.now graph.now.edges.now order.new.items done.new.items) }
{
    let users = users_of(alloc, graph.edges, scope_count(program))?;
    let mut waiting = wait_for_uses(alloc, graph, done.as_slice())?;
    'modules: while let Some(unit) = next_module(&mut waiting) {
        take(order, done, unit)?;
        let using = places_in(users.as_slice(), unit);
        release(graph, done.as_slice(), &mut waiting, using)?;
    }
    Ok(())
}

/// Puts a unit behind the others, if it wasn't looked at.
fn take_other(
    units: &[bool],
    order: &mut Vec<usize>,
    done: &mut Vec<bool>,
    unit: usize,
) -> Result<(), AllocError>
    ensures order { OnOk result (order.new.items ≡ Rattle.f_order.specs.Order.with_other units.now order.old.items done.old.items unit) }
    ensures done { OnOk result (done.new.items ≡ Rattle.f_order.specs.Order.done_other units.now done.old.items unit) }
{
    if is_other(units, done.as_slice(), unit) {
        take(order, done, unit)?;
    }
    Ok(())
}

/// Puts the units behind the modules that were not looked at.
fn order_others(
    program: &Program,
    graph: &Graph<'_>,
    order: &mut Vec<usize>,
    done: &mut Vec<bool>,
) -> Result<(), AllocError>
    requires graph { IsGraph program.now graph.now.units.now graph.now.modules.now graph.now.edges.now }
    requires done { AreDone program.now order.old.items done.old.items }
    requires modules { AllModules program.now order.old.items }
    ensures { OnOk result (OthersDone program.now order.new.items) }
{
    let count = scope_count(program);
    let mut unit = 0;
    'units: while unit < count {
        take_other(graph.units, order, done, unit)?;
        unit += 1;
    }
    Ok(())
}

/// The order of units of which it is known which there are and on which others each depends.
fn order_in(
    alloc: Global,
    program: &Program,
    units: &[usize],
    graph: &Graph<'_>,
) -> Result<UnitOrder, AllocError>
    requires units { AreUnits program.now units.now }
    requires graph { IsGraph program.now graph.now.units.now graph.now.modules.now graph.now.edges.now }
    ensures { IfOk result (λ order. IsUnitOrder program.now.items order) }
{
    let mut order = Vec::new(alloc);
    let mut done = no_marks(alloc, scope_count(program))?;
    order_modules(alloc, program, graph, &mut order, &mut done)?;
    match first_other(graph.modules, done.as_slice()) {
        None => {
            order_others(program, graph, &mut order, &mut done)?;
            Ok(UnitOrder::Ordered(order))
        }
        Some(_) => match first_on_cycle(alloc, program, units, graph.edges)? {
            Some(place) => Ok(UnitOrder::OnCycle(place)),
            None => unreachable!(),
        },
    }
}

/// The order in which the units of a program are looked at: modules first, a module behind those that it uses, and else in the order of the text; then the
/// other units in that order. `units` has the unit of each scope. Where modules use one another in a cycle, it is the first item on one.
pub fn order_units(
    alloc: Global,
    program: &Program,
    units: &[usize],
) -> Result<UnitOrder, AllocError>
    requires { AreUnits program.now units.now }
    ensures { IfOk result (λ order. IsUnitOrder program.now.items order) }
{
    let present = mark_units(alloc, program, units)?;
    let modules = mark_modules(alloc, program, units)?;
    let edges = find_edges(alloc, program, units)?;
    let graph = Graph {
        units: present.as_slice(),
        modules: modules.as_slice(),
        edges: edges.as_slice(),
    };
    order_in(alloc, program, units, &graph)
}
