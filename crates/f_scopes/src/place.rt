//! The places of items in a text, and refusals there.

ghost use Rattle.std.specs.Prelude.{◌≡◌, IfOk, map};
ghost use Rattle.jf_base.specs.declared.place.Refusal.TheVariants.{At};
ghost use Rattle.f_rules.specs.RuleOf.{number_of};
ghost use Rattle.f_scopes.specs.Answer.{tag_of};
ghost use Rattle.f_scopes.specs.Places.{item_place, place_at};

use f_items::Item;
use f_names::Broken;
use f_rules::NameRule;
use jf_base::{Place, Refusal, Tag};
use std::alloc::{AllocError, Global};

const NO_PLACE: Place = Place {
    file: 0,
    line: 0,
    column: 0,
};

/// The place of the first token of what an item is.
fn item_place(item: &Item) -> Place
    ensures { result ≡ item_place item.now }
{
    match item {
        Item::Enter { kind: _, place } => *place,
        Item::Declares(declared) => declared.name.place,
        Item::Heads(declared) => declared.name.place,
        Item::Uses {
            place: _,
            module,
            is_intrinsic: _,
            is_only: _,
        } => module.place,
        Item::Takes {
            module: _,
            local: _,
            used,
            is_renamed: _,
        } => used.place,
        Item::Imports(name) => name.place,
        Item::Accesses { name, access: _ } => name.place,
        Item::Refers { name, need: _ } => name.place,
        Item::Selects(name) => name.place,
        Item::Untyped { place } => *place,
        _ => NO_PLACE,
    }
}

/// The places of all items.
pub(crate) fn item_places(alloc: Global, items: &[Item]) -> Result<Vec<Place>, AllocError>
    ensures { IfOk result (λ places. places.items ≡ map item_place items.now) }
{
    let mut places = Vec::new(alloc);
    for item in items {
        places.push(item_place(item))?;
    }
    Ok(places)
}

fn place_at(places: &[Place], item: usize) -> Place
    ensures { result ≡ place_at places.now item }
{
    if item < places.len() {
        places[item]
    } else {
        NO_PLACE
    }
}

/// The tag of a rule on names.
fn tag_of(rule: NameRule) -> Tag
    ensures { result ≡ tag_of (number_of rule) }
{
    let number = match rule {
        NameRule::DeclaredOnce => 301,
        NameRule::Declared => 302,
        NameRule::Public => 303,
        NameRule::Present => 304,
        NameRule::Acyclic => 305,
        NameRule::Single => 306,
        NameRule::Typed => 307,
        NameRule::Fitting => 308,
    };
    Tag(number)
}

/// The refusal of a program that breaks a rule, by the places of its items.
pub(crate) fn refused(places: &[Place], broken: Broken) -> Refusal
    ensures { result ≡ At (place_at places.now broken.place) (tag_of (number_of broken.rule)) }
{
    Refusal::At {
        place: place_at(places, broken.place),
        tag: tag_of(broken.rule),
    }
}
