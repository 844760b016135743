//! The scope of each item.

ghost use Rattle.std.specs.Prelude.{◌≡◌, ◌++◌, [], IfOk, OnOk, length, map, reverse};
ghost use Rattle.f_items.specs.Places.{located};
ghost use Rattle.f_scope.specs.Rows.{opened_rows, opened_at, closed_at, rows_after, placed_after, seen, AreHosts, AreWithin};

use f_items::{Item, ScopeKind};
use std::alloc::{AllocError, Global};

/// A scope: what it is, the number of the scope around it, and that of the program unit in which it lies.
#[derive(Clone, Copy, PartialEq, Eq, Debug)]
pub struct ScopeRow {
    pub kind: ScopeKind,
    pub host: usize,
    pub unit: usize,
}

/// An item, and the number of the scope in which it stands.
#[derive(Drop)]
pub struct Placed {
    pub item: Item,
    pub scope: usize,
}

/// The scopes by their numbers, and the items of a program.
#[derive(Drop)]
pub struct Placement {
    pub scopes: Vec<ScopeRow>,
    pub items: Vec<Placed>,
}

/// The program unit of a scope that begins in this one.
fn unit_in(scopes: &[ScopeRow], current: usize) -> usize
    ensures { result ≡ Rattle.f_scope.specs.Rows.unit_in scopes.now current }
{
    if current == 0 {
        scopes.len()
    } else if current < scopes.len() {
        scopes[current].unit
    } else {
        0
    }
}

/// The scope around a scope.
pub fn host_in(scopes: &[ScopeRow], current: usize) -> usize
    ensures { result ≡ Rattle.f_scope.specs.Rows.host_in scopes.now current }
{
    if current < scopes.len() {
        scopes[current].host
    } else {
        0
    }
}

/// The scopes behind an item's begin, and the one in which it stands.
fn open_scope(scopes: &mut Vec<ScopeRow>, current: usize, item: &Item) -> Result<usize, AllocError>
    ensures { IfOk result (λ at. (scopes.new.items ≡ opened_rows scopes.old.items current item.now) × (at ≡ opened_at scopes.old.items current item.now)) }
{
    match item {
        Item::Enter { kind, place: _ } => {
            let number = scopes.len();
            let unit = unit_in(scopes.as_slice(), current);
            scopes.push(ScopeRow {
                kind: *kind,
                host: current,
                unit,
            })?;
            Ok(number)
        }
        _ => Ok(current),
    }
}

/// The scope in which the item behind stands.
fn close_scope(scopes: &[ScopeRow], at: usize, item: &Item) -> usize
    ensures { result ≡ closed_at scopes.now at item.now }
{
    match item {
        Item::Leave => host_in(scopes, at),
        _ => at,
    }
}

/// Places items that lie from the last to the first.
fn place_all(
    scopes: &mut Vec<ScopeRow>,
    placed: &mut Vec<Placed>,
    backward: Vec<Item>,
) -> Result<(), AllocError>
    ensures rows { OnOk result (scopes.new.items ≡ rows_after scopes.old.items 0 (reverse backward.items)) }
    ensures items { OnOk result (placed.new.items ≡ placed.old.items ++ placed_after scopes.old.items 0 (reverse backward.items)) }
{
    let mut current = 0;
    let mut left = backward;
    'items: while let Some(item) = left.pop() {
        let at = open_scope(scopes, current, &item)?;
        current = close_scope(scopes.as_slice(), at, &item);
        placed.push(Placed { item, scope: at })?;
    }
    Ok(())
}

/// The scope of each item. It takes time in proportion to the items.
pub fn place_items(alloc: Global, items: Vec<Item>) -> Result<Placement, AllocError>
    ensures items { IfOk result (λ p. map (seen p.scopes.items) p.items.items ≡ located 1 [] items.items) }
    ensures hosts { IfOk result (λ p. AreHosts p.scopes.items) }
    ensures within { IfOk result (λ p. AreWithin (length p.scopes.items) p.items.items) }
{
    let mut scopes = Vec::new(alloc);
    scopes.push(ScopeRow {
        kind: ScopeKind::Intrinsic,
        host: 0,
        unit: 0,
    })?;
    let mut placed = Vec::new(alloc);
    let mut backward = items;
    backward.reverse();
    place_all(&mut scopes, &mut placed, backward)?;
    Ok(Placement {
        scopes,
        items: placed,
    })
}
