//! Components of derived types (ISO/IEC 1539-1:2018, 7.5.4).

ghost use Rattle.std.specs.Prelude.{◌≡◌, ◌++◌, ◌&&◌, [], ◌∷◌, List, map, true, false, IfOk, OnOk};
ghost use Rattle.f_unit_grammar.specs.Units.{are_component_attributes, is_component, are_components};
ghost use Rattle.f_declared.specs.Views.{view_attribute, view_entity};
ghost use Rattle.f_construct_parts.specs.Views.{IfMisplaced};
ghost use Rattle.f_unit_parts.specs.Units.{view_field, dimension_of, variables_line, component_line};
ghost use Rattle.f_unit_parts.specs.Views.{bare, declares_components};

use f_construct_parts::BlockError;
use f_tree::{Attribute, AttributeForm, Component, Dimension, Entity, Field, Variables};
use jf_base::List;
use std::alloc::{AllocError, Global};

fn is_dimension(attribute: &Attribute) -> bool
    ensures { result ≡ are_component_attributes (view_attribute attribute.now ∷ []) }
{
    matches!(attribute.form, AttributeForm::Dimension(_))
}

// A component has no attribute but DIMENSION.
fn are_component_attributes(attributes: &[Attribute]) -> bool
    ensures { result ≡ are_component_attributes (map view_attribute attributes.now) }
{
    match attributes {
        [] => true,
        [attribute] => is_dimension(attribute),
        [_, _, ..] => false,
    }
}

// A component has no value.
fn is_component(entity: &Entity) -> bool
    ensures { result ≡ is_component (view_entity entity.now) }
{
    entity.initial.is_none()
}

fn are_components(entities: &[Entity]) -> bool
    ensures { result ≡ are_components (map view_entity entities.now) }
{
    let mut rest = entities;
    while let Some((first, tail)) = rest.split_first() {
        if !is_component(first) {
            return false;
        }
        rest = tail;
    }
    true
}

fn declares_components(variables: &Variables) -> bool
    ensures { result ≡ declares_components variables.now }
{
    variables.has_colons
        && are_component_attributes(variables.attributes.as_slice())
        && are_components(variables.entities.as_slice())
}

// The dimensions of an attribute that stands alone.
fn dimensions(attribute: Attribute) -> Option<List<Dimension>>
    requires { are_component_attributes (view_attribute attribute ∷ []) ≡ true }
    ensures { dimension_of result ≡ view_attribute attribute ∷ [] }
{
    match attribute.form {
        AttributeForm::Dimension(dimensions) => Some(dimensions),
        _ => unreachable!(),
    }
}

// DIMENSION, where it is there.
fn dimension(attributes: List<Attribute>) -> Option<List<Dimension>>
    requires { are_component_attributes (map view_attribute attributes) ≡ true }
    ensures { dimension_of result ≡ map view_attribute attributes }
{
    let mut all = attributes.into_vec();
    match all.pop() {
        None => None,
        Some(attribute) => dimensions(attribute),
    }
}

fn put_field(fields: &mut List<Field>, entity: Entity) -> Result<(), AllocError>
    ensures { OnOk result (map view_field fields.new ≡ map view_field fields.old ++ bare entity ∷ []) }
{
    fields.push(Field {
        name: entity.name,
        dimensions: entity.dimensions,
    })
}

// The components of a statement.
fn fields(alloc: Global, entities: List<Entity>) -> Result<List<Field>, AllocError>
    ensures { IfOk result (λ fields. map view_field fields ≡ map bare entities) }
{
    let mut fields = List::from_vec(Vec::new(alloc));
    let mut left = entities.into_vec();
    left.reverse();
    'entities: while let Some(entity) = left.pop() {
        put_field(&mut fields, entity)?;
    }
    Ok(fields)
}

fn made(alloc: Global, variables: Variables) -> Result<Component, AllocError>
    requires { declares_components variables ≡ true }
    ensures { IfOk result (λ c. component_line c ≡ variables_line variables) }
{
    let fields = fields(alloc, variables.entities)?;
    Ok(Component {
        declared: variables.declared,
        dimensions: dimension(variables.attributes),
        fields,
    })
}

/// A statement that declares components: it has `::`, no attribute but DIMENSION and no value.
pub fn component(alloc: Global, variables: Variables) -> Result<Component, BlockError>
    ensures exact { IfOk result (λ c. component_line c ≡ variables_line variables) }
    ensures misplaced { IfMisplaced result (declares_components variables ≡ false) }
{
    if declares_components(&variables) {
        Ok(made(alloc, variables)?)
    } else {
        Err(BlockError::Misplaced)
    }
}
