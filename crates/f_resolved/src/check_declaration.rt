//! Whether each number in a declaration names a thing of the right kind.

ghost use Rattle.std.specs.Prelude.{◌≡◌};
ghost use Rattle.std.specs.List.{list_all};
ghost use Rattle.f_resolved.specs.Declarations.{alike, at_most_one, bound_fits, bound_is_constant, component_fits, component_kind_fits, declaration_fits, declarations_fit, dimension_fits, dimension_is_constant, holds_value, if_so, initial_fits, is_bound, is_known, is_labelled, is_one_sort, is_valued, shape_fits, shape_is_constant, type_fits};

use crate::attributes::Attributes;
use crate::check_expression::is_expression;
use crate::check_kind::is_kind;
use crate::declaration::{Component, Declaration, Initial};
use crate::dimension::{Bound, Dimension, Shape};
use crate::kind::{DataType, Length, Scope};
use crate::program::FProgram;
use jf_base::List;

fn is_bound(p: &FProgram, here: Scope, bound: &Bound) -> bool
    ensures { result ≡ bound_fits p.now here bound.now }
{
    match bound {
        Bound::Constant(_) => true,
        Bound::Computed(e) => is_expression(p, here, e.get()),
    }
}

fn is_dimension(p: &FProgram, here: Scope, dimension: &Dimension) -> bool
    ensures { result ≡ dimension_fits p.now here dimension.now }
{
    match dimension {
        Dimension::Explicit { lower, upper } => is_bound(p, here, lower)
            && is_bound(p, here, upper),
        Dimension::AssumedShape { lower } => is_bound(p, here, lower),
        Dimension::Deferred => true,
        Dimension::AssumedSize { lower } => is_bound(p, here, lower),
    }
}

fn are_dimensions(p: &FProgram, here: Scope, all: &[Dimension]) -> bool
    ensures { result ≡ list_all (λ d. dimension_fits p.now here d) all.now }
{
    all.iter().all(|d| is_dimension(p, here, d))
}

fn is_shape(p: &FProgram, here: Scope, shape: &Shape) -> bool
    ensures { result ≡ shape_fits p.now here shape.now }
{
    match shape {
        Shape::Scalar => true,
        Shape::Array(a) => are_dimensions(p, here, a.get().dimensions.as_slice()),
        Shape::AssumedRank => true,
    }
}

fn at_most_one(first: bool, second: bool, third: bool) -> bool
    ensures { result ≡ at_most_one first second third }
{
    if first {
        !second && !third
    } else if second {
        !third
    } else {
        true
    }
}

fn is_one_sort(a: Attributes) -> bool
    ensures { result ≡ is_one_sort a }
{
    at_most_one(
        a.has(Attributes::ALLOCATABLE),
        a.has(Attributes::POINTER),
        a.has(Attributes::PARAMETER),
    )
}

fn holds_value(initial: &Option<Initial>) -> bool
    ensures { result ≡ holds_value initial.now }
{
    match initial {
        None => false,
        Some(Initial::Value(_)) => true,
        Some(Initial::Null) => false,
    }
}

fn if_so(condition: bool, conclusion: bool) -> bool
    ensures { result ≡ if_so condition conclusion }
{
    !condition || conclusion
}

fn is_valued(a: Attributes, initial: &Option<Initial>) -> bool
    ensures { result ≡ is_valued a initial.now }
{
    if_so(a.has(Attributes::PARAMETER), holds_value(initial))
}

fn is_labelled(label: &Option<List<u8>>) -> bool
    ensures { result ≡ is_labelled label.now }
{
    match label {
        None => false,
        Some(_) => true,
    }
}

fn alike(left: bool, right: bool) -> bool
    ensures { result ≡ alike left right }
{
    if left { right } else { !right }
}

fn is_bound_to_c(a: Attributes, label: &Option<List<u8>>) -> bool
    ensures { result ≡ is_bound a label.now }
{
    alike(a.has(Attributes::BIND_C), is_labelled(label))
}

fn is_initial(p: &FProgram, here: Scope, initial: &Option<Initial>) -> bool
    ensures { result ≡ initial_fits p.now here initial.now }
{
    match initial {
        None => true,
        Some(Initial::Value(e)) => is_expression(p, here, e.get()),
        Some(Initial::Null) => true,
    }
}

fn is_declaration(p: &FProgram, here: Scope, d: &Declaration) -> bool
    ensures { result ≡ declaration_fits p.now here d.now }
{
    is_kind(p, d.kind)
        && is_shape(p, here, &d.shape)
        && is_one_sort(d.attributes)
        && is_valued(d.attributes, &d.initial)
        && is_bound_to_c(d.attributes, &d.label)
        && is_initial(p, here, &d.initial)
}

/// Whether each number in these declarations of a scope names a thing of the right kind.
pub fn are_declarations(p: &FProgram, here: Scope, all: &[Declaration]) -> bool
    ensures { result ≡ declarations_fit p.now here all.now }
{
    all.iter().all(|d| is_declaration(p, here, d))
}

fn is_known(length: Length) -> bool
    ensures { result ≡ is_known length }
{
    match length {
        Length::Known(_) => true,
        Length::Unknown => false,
    }
}

fn is_component_kind(t: usize, kind: DataType) -> bool
    ensures { result ≡ component_kind_fits t kind }
{
    match kind {
        DataType::Integer(_) => true,
        DataType::Logical(_) => true,
        DataType::Character(length) => is_known(length),
        DataType::CPtr => true,
        DataType::CFunPtr => true,
        DataType::Derived(s) => (s as usize) < t,
        DataType::Assumed => false,
        DataType::Procedure(_) => false,
    }
}

fn is_constant_bound(bound: &Bound) -> bool
    ensures { result ≡ bound_is_constant bound.now }
{
    match bound {
        Bound::Constant(_) => true,
        Bound::Computed(_) => false,
    }
}

fn is_constant_dimension(dimension: &Dimension) -> bool
    ensures { result ≡ dimension_is_constant dimension.now }
{
    match dimension {
        Dimension::Explicit { lower, upper } => is_constant_bound(lower)
            && is_constant_bound(upper),
        Dimension::AssumedShape { .. } => false,
        Dimension::Deferred => false,
        Dimension::AssumedSize { .. } => false,
    }
}

fn are_constant_dimensions(all: &[Dimension]) -> bool
    ensures { result ≡ list_all (λ d. dimension_is_constant d) all.now }
{
    all.iter().all(|d| is_constant_dimension(d))
}

fn is_constant_shape(shape: &Shape) -> bool
    ensures { result ≡ shape_is_constant shape.now }
{
    match shape {
        Shape::Scalar => true,
        Shape::Array(a) => are_constant_dimensions(a.get().dimensions.as_slice()),
        Shape::AssumedRank => false,
    }
}

fn is_component(t: usize, c: &Component) -> bool
    ensures { result ≡ component_fits t c.now }
{
    is_component_kind(t, c.kind) && is_constant_shape(&c.shape)
}

fn are_components(t: usize, all: &[Component]) -> bool
    ensures { result ≡ list_all (λ c. component_fits t c) all.now }
{
    all.iter().all(|c| is_component(t, c))
}

/// Whether the derived type of this number has components whose sizes are known.
pub fn is_type(p: &FProgram, t: usize) -> bool
    ensures { result ≡ type_fits p.now t }
{
    match p.types.as_slice().get(t) {
        None => false,
        Some(d) => are_components(t, d.components.as_slice()),
    }
}
