//! Modules that can be looked at, and those that wait for others.

ghost use Rattle.std.specs.Prelude.{◌≡◌, OnOk, IfOk, length, map};
ghost use Rattle.f_order.specs.Ready.{is_ready, lowered, released_one, released, with_ready, with_user, AreUsers, AreReady, TakesFirst};

use crate::graph::Graph;
use crate::marks::is_marked;
use crate::units::number_at;
use f_use::{Places, no_lists, places_in, put_at};
use std::alloc::{AllocError, Global};
use std::collections::BTreeSet;

/// How many uses of units that weren't looked at each unit waits for, and the modules that wait for none.
#[derive(Drop)]
pub(crate) struct Waiting {
    counts: Vec<usize>,
    ready: BTreeSet<usize>,
}

/// How many uses of others each unit has.
fn use_counts(alloc: Global, edges: &[Places]) -> Result<Vec<usize>, AllocError>
    ensures { IfOk result (λ counts. counts.items ≡ map length edges.now) }
{
    let mut counts = Vec::new(alloc);
    let mut rest = edges;
    'units: while let Some((used, behind)) = rest.split_first() {
        counts.push(used.as_slice().len())?;
        rest = behind;
    }
    Ok(counts)
}

/// Puts a unit into the lists of those that it uses, once for each use.
#[tactic(auto, unfolding(crate::specs::Ready::with_user))]
fn put_user(users: &mut Vec<Places>, unit: usize, used: &[usize]) -> Result<(), AllocError>
    ensures { OnOk result (users.new.items ≡ with_user users.old.items unit used.now) }
{
    let mut rest = used;
    'used: while let Some((module, behind)) = rest.split_first() {
        put_at(users, *module, unit)?;
        rest = behind;
    }
    Ok(())
}

/// The units that use each of so many, each as often as it does. It takes time in proportion to the edges.
pub(crate) fn users_of(
    alloc: Global,
    edges: &[Places],
    count: usize,
) -> Result<Vec<Places>, AllocError>
    ensures { IfOk result (λ users. AreUsers count edges.now users.items) }
{
    let mut users = no_lists(alloc, count)?;
    let mut unit = 0;
    'units: while unit < edges.len() {
        put_user(&mut users, unit, places_in(edges, unit))?;
        unit += 1;
    }
    Ok(users)
}

/// Whether a unit is a module that wasn't looked at and waits for no other.
fn is_ready(graph: &Graph<'_>, done: &[bool], counts: &[usize], unit: usize) -> bool
    ensures { result ≡ is_ready graph.now.modules.now done.now counts.now unit }
{
    is_marked(graph.modules, unit) && !is_marked(done, unit) && number_at(counts, unit) == 0
}

/// Puts a unit among the modules that are ready, if it is one.
fn put_ready(
    graph: &Graph<'_>,
    done: &[bool],
    counts: &[usize],
    ready: &mut BTreeSet<usize>,
    unit: usize,
) -> Result<(), AllocError>
    ensures { OnOk result (ready.new.keys ≡ with_ready graph.now.modules.now done.now counts.now ready.old.keys unit) }
{
    if is_ready(graph, done, counts, unit) {
        ready.insert(unit)?;
    }
    Ok(())
}

/// The modules that are ready.
fn all_ready(
    alloc: Global,
    graph: &Graph<'_>,
    done: &[bool],
    counts: &[usize],
) -> Result<BTreeSet<usize>, AllocError>
    ensures { IfOk result (λ ready. AreReady graph.now.modules.now done.now counts.now ready.keys) }
{
    let mut ready = BTreeSet::new(alloc);
    let mut unit = 0;
    'units: while unit < graph.modules.len() {
        put_ready(graph, done, counts, &mut ready, unit)?;
        unit += 1;
    }
    Ok(ready)
}

/// What units wait for where none was looked at.
pub(crate) fn wait_for_uses(
    alloc: Global,
    graph: &Graph<'_>,
    done: &[bool],
) -> Result<Waiting, AllocError>
    ensures counts { IfOk result (λ waiting. waiting.counts.items ≡ map length graph.now.edges.now) }
    ensures ready { IfOk result (λ waiting. AreReady graph.now.modules.now done.now waiting.counts.items waiting.ready.keys) }
{
    let counts = use_counts(alloc, graph.edges)?;
    let ready = all_ready(alloc, graph, done, counts.as_slice())?;
    Ok(Waiting { counts, ready })
}

/// Takes away the first of the modules that are ready.
pub(crate) fn next_module(waiting: &mut Waiting) -> Option<usize>
    ensures first { TakesFirst waiting.old.ready.keys result waiting.new.ready.keys }
    ensures counts { waiting.new.counts.items ≡ waiting.old.counts.items }
{
    waiting.ready.pop_first()
}

/// Lowers the count of a unit.
fn lower(counts: &mut Vec<usize>, unit: usize)
    ensures { counts.new.items ≡ lowered counts.old.items unit }
{
    if unit < counts.len() {
        counts[unit] = counts[unit].saturating_sub(1);
    }
}

/// Lowers the count of a unit, and puts it among the modules that are ready where it waits for no other.
fn release_one(
    graph: &Graph<'_>,
    done: &[bool],
    waiting: &mut Waiting,
    unit: usize,
) -> Result<(), AllocError>
    ensures { OnOk result ((waiting.new.counts.items, waiting.new.ready.keys) ≡ released_one graph.now.modules.now done.now unit (waiting.old.counts.items, waiting.old.ready.keys)) }
{
    lower(&mut waiting.counts, unit);
    put_ready(
        graph,
        done,
        waiting.counts.as_slice(),
        &mut waiting.ready,
        unit,
    )
}

/// Lowers the counts of units, each as often as it stands there, and puts those among the modules that are ready that wait for no other.
#[tactic(auto, unfolding(crate::specs::Ready::released))]
pub(crate) fn release(
    graph: &Graph<'_>,
    done: &[bool],
    waiting: &mut Waiting,
    users: &[usize],
) -> Result<(), AllocError>
    ensures { OnOk result ((waiting.new.counts.items, waiting.new.ready.keys) ≡ released graph.now.modules.now done.now users.now (waiting.old.counts.items, waiting.old.ready.keys)) }
{
    let mut rest = users;
    'users: while let Some((user, behind)) = rest.split_first() {
        release_one(graph, done, waiting, *user)?;
        rest = behind;
    }
    Ok(())
}
