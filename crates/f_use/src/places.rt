//! Where the USE statements of each scope stand.

ghost use Rattle.std.specs.Prelude.{◌≡◌, ◌++◌, ◌∷◌, [], OnOk, IfOk, length, map, replicate};
ghost use Rattle.f_scope.specs.Rows.{AreHosts, seen};
ghost use Rattle.f_use.specs.Places.{list_at, put_at, put_item, put_items, AreUsePlaces};

use f_items::Item;
use f_scope::{Placed, ScopeRow};
use std::alloc::{AllocError, Global};
use std::marker::Model;

/// Places of items, in the order of the text. Contracts see the list.
#[derive(Drop)]
pub struct Places {
    places: Vec<usize>,
}

impl Model for Places {
    ghost use Rattle.std.specs.Prelude.{List, ℕ};

    ghost Value = { List ℕ };

    ghost view = { λ p. p.places.items };
}

impl Places {
    /// No places.
    pub fn new(alloc: Global) -> Places
        ensures { result ≡ [] }
    {
        Places {
            places: Vec::new(alloc),
        }
    }

    /// Appends a place.
    pub fn push(&mut self, place: usize) -> Result<(), AllocError>
        ensures { OnOk result (self.new ≡ self.old ++ place ∷ []) }
    {
        self.places.push(place)?;
        Ok(())
    }

    /// The places.
    pub fn as_slice(&self) -> &[usize]
        ensures { result.now ≡ self.now }
    {
        self.places.as_slice()
    }
}

/// The places of a scope.
pub fn places_in(lists: &[Places], scope: usize) -> &[usize]
    ensures { result.now ≡ list_at lists.now scope }
{
    if scope < lists.len() {
        lists[scope].as_slice()
    } else {
        &[]
    }
}

/// So many empty lists.
pub fn no_lists(alloc: Global, count: usize) -> Result<Vec<Places>, AllocError>
    ensures { IfOk result (λ lists. lists.items ≡ replicate count []) }
{
    let mut lists = Vec::new(alloc);
    'numbers: while lists.len() < count {
        lists.push(Places::new(alloc))?;
    }
    Ok(lists)
}

/// Puts a place into the list with a number, if there is one.
pub fn put_at(lists: &mut Vec<Places>, at: usize, place: usize) -> Result<(), AllocError>
    ensures { OnOk result (lists.new.items ≡ put_at lists.old.items at place) }
{
    if at < lists.len() {
        lists[at].push(place)?;
    }
    Ok(())
}

/// Puts the place of a USE statement, or of a name in one, into the list of its scope.
fn put_item(lists: &mut Vec<Places>, item: &Placed, place: usize) -> Result<(), AllocError>
    ensures { OnOk result (lists.new.items ≡ put_item lists.old.items item.now.item item.now.scope place) }
{
    match &item.item {
        Item::Uses {
            place: _,
            module: _,
            is_intrinsic: _,
            is_only: _,
        } => put_at(lists, item.scope, place),
        Item::Takes {
            module: _,
            local: _,
            used: _,
            is_renamed: _,
        } => put_at(lists, item.scope, place),
        _ => Ok(()),
    }
}

/// Puts the places of items, the first of which is 0.
#[tactic(auto, unfolding(crate::specs::Places::put_items))]
fn put_all(lists: &mut Vec<Places>, items: &[Placed]) -> Result<(), AllocError>
    ensures { OnOk result (lists.new.items ≡ put_items lists.old.items 0 items.now) }
{
    let mut place = 0;
    let mut rest = items;
    'items: while let Some((item, behind)) = rest.split_first() {
        put_item(lists, item, place)?;
        place += 1;
        rest = behind;
    }
    Ok(())
}

/// For each scope, by its number, where its USE statements and the names in them stand. It takes time in proportion to the items.
pub fn use_places(
    alloc: Global,
    scopes: &[ScopeRow],
    items: &[Placed],
) -> Result<Vec<Places>, AllocError>
    requires { AreHosts scopes.now }
    ensures { IfOk result (λ lists. AreUsePlaces (map (seen scopes.now) items.now) lists.items (length scopes.now)) }
{
    let mut lists = no_lists(alloc, scopes.len())?;
    put_all(&mut lists, items)?;
    Ok(lists)
}
