//! The first broken rule along units.

ghost use Rattle.std.specs.Prelude.{◌≡◌};
ghost use Rattle.f_rules.specs.PartTypes.{ArePartTypes};
ghost use Rattle.f_names.specs.Walk.{FirstIn, FirstOf};

use f_rules::{NameRule, PartType, broken_rule};
use f_use::{Associated, Places, places_in};

/// A broken rule, and the item at which it is broken, counted from 0.
#[derive(Clone, Copy, PartialEq, Eq, Debug)]
pub struct Broken {
    pub place: usize,
    pub rule: NameRule,
}

/// The first of the items at these places that breaks a rule, by the types of the parts before items.
fn first_in(program: &Associated, types: &[PartType], places: &[usize]) -> Option<Broken>
    requires { ArePartTypes program.now.items types.now }
    ensures { FirstIn program.now.items places.now result }
{
    let mut rest = places;
    'places: while let Some((place, behind)) = rest.split_first() {
        match broken_rule(program, types, *place) {
            Some(rule) => {
                return Some(Broken {
                    place: *place,
                    rule,
                });
            }
            None => rest = behind,
        }
    }
    None
}

/// The first broken rule in units in their order, by the places of their items.
pub(crate) fn first_of(
    program: &Associated,
    types: &[PartType],
    lists: &[Places],
    order: &[usize],
) -> Option<Broken>
    requires { ArePartTypes program.now.items types.now }
    ensures { FirstOf program.now.items lists.now order.now result }
{
    let mut rest = order;
    'units: while let Some((unit, behind)) = rest.split_first() {
        match first_in(program, types, places_in(lists, *unit)) {
            Some(broken) => return Some(broken),
            None => rest = behind,
        }
    }
    None
}
