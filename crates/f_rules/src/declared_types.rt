//! The types of what is declared, and the components of derived types.

ghost use Rattle.std.specs.Prelude.{◌≡◌, ◌<◌};
ghost use Rattle.f_items.specs.Selections.{IsOfType};
ghost use Rattle.f_rules.specs.PartTypes.{only, ClassAt, is_type_class, is_data_class, where_holds, type_by, before, TypeTold, TypeNamed, SelectorFound, HasType, StepTold, step_of, ComponentFound};

use crate::stand::{class_at, stand_at};
use f_find::{visible, visible_around};
use f_items::{Class, Declared, DeclaredType, Item};
use f_scope::Program;
use f_use::{Associated, Origins};

/// The type of a part of a reference, as far as declarations say it.
#[derive(Clone, Copy, PartialEq, Eq, Debug)]
pub enum PartType {
    /// Nothing is said: the part breaks a rule, or something that it stands on does.
    Untold,
    /// No derived type.
    NotDerived,
    /// The derived type that is defined at this item, counted from 0.
    Derived(usize),
}

/// What a declaration says of a type.
#[derive(Clone, Copy)]
pub(crate) enum TypeStep {
    /// It says the type, or nothing.
    Told(PartType),
    /// The type is that of what is declared at this item.
    SameAs(usize),
}

/// The entity, where it is the only one.
pub(crate) fn only(found: Option<Origins>) -> Option<usize>
    ensures { result ≡ only found }
{
    match found {
        None => None,
        Some(found) => {
            if found.other.is_some() {
                None
            } else {
                Some(found.first)
            }
        }
    }
}

pub(crate) fn class_where(program: &Program, found: Option<usize>) -> Option<Class>
    ensures { ClassAt program.now.items found result }
{
    match found {
        None => None,
        Some(place) => class_at(program, place),
    }
}

fn is_type_class(class: Option<Class>) -> bool
    ensures { result ≡ is_type_class class }
{
    match class {
        Some(Class::DerivedType) => true,
        _ => false,
    }
}

pub(crate) fn is_data_class(class: Option<Class>) -> bool
    ensures { result ≡ is_data_class class }
{
    match class {
        Some(Class::Data) => true,
        _ => false,
    }
}

pub(crate) fn where_holds(found: Option<usize>, holds: bool) -> Option<usize>
    ensures { result ≡ where_holds found holds }
{
    if holds { found } else { None }
}

fn type_by(found: Option<usize>) -> PartType
    ensures { result ≡ type_by found }
{
    match found {
        None => PartType::Untold,
        Some(place) => PartType::Derived(place),
    }
}

/// The derived type of a name that stands in the scope.
fn named_type(program: &Associated, scope: usize, name: &[u8]) -> PartType
    requires { scope < program.now.scopes }
    ensures { TypeNamed program.now.items scope name.now result }
{
    let found = only(visible(program, scope, name));
    let class = class_where(program.stated().program(), found);
    type_by(where_holds(found, is_type_class(class)))
}

fn before(found: Option<usize>, place: usize) -> Option<usize>
    ensures { result ≡ before found place }
{
    match found {
        None => None,
        Some(found) => { if found < place { Some(found) } else { None } }
    }
}

/// The selector of this name outside a construct with this scope, where it is declared before a place.
fn selector(program: &Associated, place: usize, scope: usize, name: &[u8]) -> Option<usize>
    requires { scope < program.now.scopes }
    ensures { SelectorFound program.now.items scope place name.now result }
{
    before(only(visible_around(program, scope, name)), place)
}

fn step_of(selector: Option<usize>) -> TypeStep
    ensures { result ≡ step_of selector }
{
    match selector {
        None => TypeStep::Told(PartType::Untold),
        Some(selector) => TypeStep::SameAs(selector),
    }
}

/// What a declaration at the place says of a type.
fn declared_step(
    program: &Associated,
    place: usize,
    scope: usize,
    of_type: &DeclaredType,
) -> TypeStep
    requires scope { scope < program.now.scopes }
    requires at { HasType program.now.items place scope of_type.now }
    ensures { StepTold program.now.items place result }
{
    match of_type {
        DeclaredType::NotDerived => TypeStep::Told(PartType::NotDerived),
        DeclaredType::Derived(name) => {
            TypeStep::Told(named_type(program, scope, name.as_slice()))
        }
        DeclaredType::OfSelector(name) => {
            step_of(selector(program, place, scope, name.as_slice()))
        }
    }
}

/// What the item at a place says of a type.
fn type_step(program: &Associated, place: usize) -> TypeStep
    ensures { StepTold program.now.items place result }
{
    match stand_at(program.stated().program(), place) {
        None => TypeStep::Told(PartType::Untold),
        Some(stand) => match stand.item {
            Item::Declares(declared) => {
                declared_step(program, place, stand.scope, &declared.of_type)
            }
            Item::Heads(declared) => declared_step(program, place, stand.scope, &declared.of_type),
            _ => TypeStep::Told(PartType::Untold),
        },
    }
}

/// The type of what the item at a place declares. It goes from a selector to the next.
pub(crate) fn type_at(program: &Associated, place: usize) -> PartType
    ensures { TypeTold (IsOfType program.now.items place) result }
{
    match type_step(program, place) {
        TypeStep::Told(told) => told,
        TypeStep::SameAs(selector) => type_at(program, selector),
    }
}

/// The component of this name in the derived type that is defined at a place.
pub fn component_at(program: &Program, definition: usize, name: &[u8]) -> Option<usize>
    ensures { ComponentFound program.now.items definition name.now result }
{
    match stand_at(program, definition) {
        None => None,
        Some(stand) => match stand.item {
            Item::Heads(declared) => {
                if is_type(declared) {
                    program.declared(stand.scope, name)
                } else {
                    None
                }
            }
            _ => None,
        },
    }
}

fn is_type(declared: &Declared) -> bool
    ensures { result ≡ is_type_class (Rattle.std.specs.Prelude.Some declared.now.class) }
{
    is_type_class(Some(declared.class))
}
