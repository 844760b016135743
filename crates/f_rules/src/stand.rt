//! Where items stand, and what is declared at a place.

ghost use Rattle.std.specs.Prelude.{◌≡◌, ◌<◌, slice_get};
ghost use Rattle.std.specs.Option.{option_copied};
ghost use Rattle.f_use.specs.Associated.{Found};
ghost use Rattle.f_use.specs.Uses.{ModuleIn, declared_class};
ghost use Rattle.f_rules.specs.Standing.{StandFound, ClassFound, ClassOf, IsIn};

use f_find::merge;
use f_items::{Class, Item};
use f_scope::{Placed, Program, host_in};
use f_use::{Associated, Origins, entity_of};

/// An item, lent, with the numbers of its scope and of the scope around that.
#[derive(Clone, Copy)]
pub struct Stand<'a> {
    pub item: &'a Item,
    pub scope: usize,
    pub host: usize,
}

fn item_at(items: &[Placed], place: usize) -> Option<&Placed>
    ensures { option_copied result ≡ slice_get items.now place }
{
    items.get(place)
}

/// The item at a place, counted from 0, with its scope.
pub fn stand_at(program: &Program, place: usize) -> Option<Stand<'_>>
    ensures { StandFound program.now place result }
{
    let parts = program.parts();
    match item_at(parts.items, place) {
        None => None,
        Some(placed) => Some(Stand {
            item: &placed.item,
            scope: placed.scope,
            host: host_in(parts.scopes, placed.scope),
        }),
    }
}

fn declared_class(item: Option<&Placed>) -> Option<Class>
    ensures { result ≡ declared_class (option_copied item.entry) }
{
    match item {
        None => None,
        Some(item) => match &item.item {
            Item::Declares(declared) => Some(declared.class),
            Item::Heads(declared) => Some(declared.class),
            _ => None,
        },
    }
}

/// The class of what the item at a place declares.
pub fn class_at(program: &Program, place: usize) -> Option<Class>
    ensures { ClassFound program.now.items place result }
{
    declared_class(item_at(program.parts().items, place))
}

/// The class of the first of the entities.
pub(crate) fn class_of(program: &Program, found: Option<Origins>) -> Option<Class>
    ensures { ClassOf program.now.items found result }
{
    match found {
        None => None,
        Some(found) => class_at(program, found.first),
    }
}

/// The scope of the module with this name, which is one of the program's scopes.
pub(crate) fn module_of(program: &Program, name: &[u8]) -> Option<usize>
    ensures { ModuleIn program.now name.now result }
{
    let _parts = program.parts();
    program.module(name)
}

/// The entities that the name denotes in the module with this scope, whether they are public or not.
pub(crate) fn entities_in(program: &Associated, scope: usize, name: &[u8]) -> Option<Origins>
    requires { scope < program.now.scopes }
    ensures { Found (IsIn program.now.items scope name.now) result }
{
    let own = entity_of(program.stated().program(), scope, name);
    let used = program.used(scope, name);
    merge(own, used)
}
