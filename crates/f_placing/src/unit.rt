//! Declarations by what is open (ISO/IEC 1539-1:2018, 5.1 to 5.3, 7.5 and 15.4.3.2).

ghost use Rattle.std.specs.Prelude.{◌≡◌, ℕ, List, [], ◌∷◌, map, ◌&&◌};
ghost use Rattle.f_unit_grammar.specs.Units.{File, InUnit, Beginning, enters, are_component_attributes, is_component, are_components, declared_role, type_role, interface_role, containing_role, file_role};
ghost use Rattle.f_declared.specs.Views.{view_attribute, view_entity, view_variables, view_declared};
ghost use Rattle.f_placing.specs.Views.{view_part, view_scope, view_role, name_declared};

use crate::part::{
    beginning, contains_role, declaring, ends_unit, implicit_role, import_role, is_name, leaves_if,
    use_role,
};
use crate::state::{Part, Role, Scope, State};
use f_declared::{Declared, Ended};
use f_tree::{Attribute, AttributeForm, Entity, Variables};
use jf_base::List;

/// A declaration in a unit or an interface body.
pub fn declared_role(scope: Scope, part: Part, name: &List<u8>, declared: &Declared) -> Role
    ensures { view_role name.now (name_declared (view_declared declared.now)) result ≡ declared_role (view_scope name.now scope) (view_part part) (view_declared declared.now) }
{
    match declared {
        Declared::Use(_) => use_role(scope, part),
        Declared::Import(_) => import_role(scope, part),
        Declared::ImplicitNone { .. } => implicit_role(scope, part),
        Declared::Variables(_) => declaring(scope, part),
        Declared::Access(_) => declaring(scope, part),
        Declared::Save { .. } => declaring(scope, part),
        Declared::ProcedurePointers(_) => declaring(scope, part),
        Declared::TypeStart(_) => beginning(scope, part, State::Type),
        Declared::InterfaceStart { .. } => beginning(scope, part, State::Interface),
        Declared::Contains { .. } => contains_role(scope),
        Declared::End { .. } => Role::Leaves,
        Declared::EndOf {
            what,
            name: other,
            ..
        } => leaves_if(ends_unit(scope, name, *what, other)),
        Declared::Program { .. } => Role::NoPlace,
        Declared::Module { .. } => Role::NoPlace,
        Declared::Head(_) => Role::NoPlace,
    }
}

fn is_dimension(attribute: &Attribute) -> bool
    ensures { result ≡ are_component_attributes (view_attribute attribute.now ∷ []) }
{
    matches!(attribute.form, AttributeForm::Dimension(_))
}

// A component has no attribute but DIMENSION.
fn are_component_attributes(attributes: &[Attribute]) -> bool
    ensures { result ≡ are_component_attributes (map view_attribute attributes.now) }
{
    match attributes {
        [] => true,
        [attribute] => is_dimension(attribute),
        [_, _, ..] => false,
    }
}

// A component has no value.
fn is_component(entity: &Entity) -> bool
    ensures { result ≡ is_component (view_entity entity.now) }
{
    entity.initial.is_none()
}

fn are_components(entities: &[Entity]) -> bool
    ensures { result ≡ are_components (map view_entity entities.now) }
{
    let mut rest = entities;
    while let Some((first, tail)) = rest.split_first() {
        if !is_component(first) {
            return false;
        }
        rest = tail;
    }
    true
}

// A statement that declares components.
fn declares_components(variables: &Variables) -> bool
    ensures { result ≡ (variables.now.has_colons && are_component_attributes (map view_attribute variables.now.attributes) && are_components (map view_entity variables.now.entities)) }
{
    variables.has_colons
        && are_component_attributes(variables.attributes.as_slice())
        && are_components(variables.entities.as_slice())
}

// Components in the definition of a derived type.
fn component_role(variables: &Variables) -> Role
    ensures { (name inner : List ℕ) → view_role name inner result ≡ type_role name (view_variables variables.now) }
{
    if declares_components(variables) {
        Role::Stays(State::Type)
    } else {
        Role::NoPlace
    }
}

/// A declaration in the definition of a derived type.
pub fn type_role(name: &List<u8>, declared: &Declared) -> Role
    ensures { (inner : List ℕ) → view_role name.now inner result ≡ type_role name.now (view_declared declared.now) }
{
    match declared {
        Declared::Variables(variables) => component_role(variables),
        Declared::EndOf {
            what: Ended::Type,
            name: other,
            ..
        } => leaves_if(is_name(name, other)),
        _ => Role::NoPlace,
    }
}

/// A declaration in an interface block.
pub fn interface_role(declared: &Declared) -> Role
    ensures { (name : List ℕ) → view_role name (name_declared (view_declared declared.now)) result ≡ interface_role (view_declared declared.now) }
{
    match declared {
        Declared::Head(head) => Role::Enters {
            next: State::Interface,
            inside: State::Unit(Scope::InterfaceBody(head.kind), Part::Beginning),
        },
        Declared::EndOf {
            what: Ended::Interface,
            ..
        } => Role::Leaves,
        _ => Role::NoPlace,
    }
}

/// A declaration in a module behind CONTAINS.
pub fn containing_role(name: &List<u8>, declared: &Declared) -> Role
    ensures { view_role name.now (name_declared (view_declared declared.now)) result ≡ containing_role name.now (view_declared declared.now) }
{
    match declared {
        Declared::Head(head) => Role::Enters {
            next: State::Containing,
            inside: State::Unit(Scope::Procedure(head.kind), Part::Beginning),
        },
        Declared::End { .. } => Role::Leaves,
        Declared::EndOf {
            what: Ended::Module,
            name: other,
            ..
        } => leaves_if(is_name(name, other)),
        _ => Role::NoPlace,
    }
}

/// A declaration outside of all units.
pub fn file_role(declared: &Declared) -> Role
    ensures { (name : List ℕ) → view_role name (name_declared (view_declared declared.now)) result ≡ file_role (view_declared declared.now) }
{
    match declared {
        Declared::Program { .. } => entered(Scope::Program),
        Declared::Module { .. } => entered(Scope::Module),
        Declared::Head(head) => entered(Scope::Procedure(head.kind)),
        _ => Role::NoPlace,
    }
}

// A unit begins.
fn entered(scope: Scope) -> Role
    ensures { (name inner : List ℕ) → view_role name inner result ≡ enters File (InUnit (view_scope inner scope) Beginning) }
{
    Role::Enters {
        next: State::File,
        inside: State::Unit(scope, Part::Beginning),
    }
}
