//! Whether each number in an expression names a thing of the right kind.

ghost use Rattle.std.specs.Prelude.{◌≡◌, ◌&&◌, map};
ghost use Rattle.f_resolved.specs.Lists.{all_of, of_any};
ghost use Rattle.f_resolved.specs.Kinds.{component_at};
ghost use Rattle.f_resolved.specs.Expressions.{argument_fits, arguments_fit, expression_fits, expressions_fit, form_fits, is_of, kind_of, link_fits, may_name, part_seen, range_fits, reference_fits, selects, subscript_fits, subscripts_stand};

use crate::check_kind::{
    Row, are_as_many, component_at, has_components, is_callee, is_pointer, is_value, is_visible,
    named_row, names_variable, takes,
};
use crate::expression::{
    Argument, Callee, Expression, Form, Link, Part, Range, Reference, Subscript,
};
use crate::kind::{DataType, Named, Scope};
use crate::program::FProgram;

fn kind_of(row: Option<Row>) -> Option<DataType>
    ensures { result ≡ kind_of row }
{
    match row {
        None => None,
        Some(row) => Some(row.kind),
    }
}

fn is_of(before: Option<DataType>, of: u32) -> bool
    ensures { result ≡ is_of before of }
{
    match before {
        Some(DataType::Derived(t)) => t == of,
        _ => false,
    }
}

fn may_stand(row: Option<Row>, subscripts: usize) -> bool
    ensures { result ≡ subscripts_stand row subscripts }
{
    match row {
        None => false,
        Some(row) => are_as_many(row.rank, subscripts),
    }
}

fn may_name(of_variable: bool, named: Named) -> bool
    ensures { result ≡ may_name of_variable named }
{
    if of_variable {
        names_variable(named)
    } else {
        true
    }
}

/// Whether each number in an expression names a thing of the right kind.
#[cycle(fit)]
pub fn is_expression(p: &FProgram, here: Scope, e: &Expression) -> bool
    ensures { result ≡ expression_fits p.now here e.now }
{
    is_form(p, here, e.form.get()) && is_value(p, e.kind, e.rank)
}

/// Whether an expression is absent, or each number in it names a thing of the right kind.
#[cycle(fit)]
pub fn is_optional_expression(p: &FProgram, here: Scope, e: &Option<Expression>) -> bool
    ensures { result ≡ of_any (expression_fits p.now here) e.now }
{
    match e {
        None => true,
        Some(e) => is_expression(p, here, e),
    }
}

#[cycle(fit)]
fn is_form(p: &FProgram, here: Scope, form: &Form) -> bool
    ensures { result ≡ form_fits p.now here form.now }
{
    match form {
        Form::Integer(_) => true,
        Form::Logical(_) => true,
        Form::Text(_) => true,
        Form::Object(r) => is_reference(p, here, false, r.get()),
        Form::Function { callee, arguments } => is_callee(p, here, true, *callee)
            && are_arguments(p, here, *callee, arguments.as_slice()),
        Form::Structure { of, values } => has_components(p, *of, values.len())
            && are_expressions(p, here, values.as_slice()),
        Form::Array(items) => are_expressions(p, here, items.as_slice()),
        Form::Parenthesized(inner) => is_expression(p, here, inner),
        Form::Chain { first, links, .. } => is_expression(p, here, first)
            && are_links(p, here, links.as_slice()),
        Form::Null => true,
        Form::Procedure(f) => is_visible(p, here, *f),
        Form::ProcedurePointer(d) => is_pointer(p, here, *d),
    }
}

/// Whether each number in these expressions names a thing of the right kind.
#[cycle(fit)]
pub fn are_expressions(p: &FProgram, here: Scope, all: &[Expression]) -> bool
    ensures { result ≡ expressions_fit p.now here all.now }
{
    'expressions: for one in all {
        if !is_expression(p, here, one) {
            return false;
        }
    }
    true
}

#[cycle(fit)]
fn is_argument(p: &FProgram, here: Scope, callee: Callee, one: &Argument) -> bool
    ensures { result ≡ argument_fits p.now here one.now callee }
{
    takes(p, callee, one.dummy) && is_expression(p, here, &one.value)
}

/// Whether these arguments have dummy arguments of what is invoked, and each number in them names a thing of the right kind.
#[cycle(fit)]
pub fn are_arguments(p: &FProgram, here: Scope, callee: Callee, all: &[Argument]) -> bool
    ensures { result ≡ arguments_fit p.now here callee all.now }
{
    'arguments: for one in all {
        if !is_argument(p, here, callee, one) {
            return false;
        }
    }
    true
}

#[cycle(fit)]
fn is_link(p: &FProgram, here: Scope, one: &Link) -> bool
    ensures { result ≡ link_fits p.now here one.now }
{
    is_expression(p, here, &one.right) && is_value(p, one.kind, one.rank)
}

#[cycle(fit)]
fn are_links(p: &FProgram, here: Scope, all: &[Link]) -> bool
    ensures { result ≡ all_of (map (link_fits p.now here) all.now) }
{
    'links: for one in all {
        if !is_link(p, here, one) {
            return false;
        }
    }
    true
}

#[cycle(fit)]
fn is_range(p: &FProgram, here: Scope, range: &Range) -> bool
    ensures { result ≡ range_fits p.now here range.now }
{
    is_optional_expression(p, here, &range.lower) && is_optional_expression(p, here, &range.upper)
}

#[cycle(fit)]
fn is_optional_range(p: &FProgram, here: Scope, range: &Option<Range>) -> bool
    ensures { result ≡ of_any (range_fits p.now here) range.now }
{
    match range {
        None => true,
        Some(range) => is_range(p, here, range),
    }
}

#[cycle(fit)]
fn is_subscript(p: &FProgram, here: Scope, one: &Subscript) -> bool
    ensures { result ≡ subscript_fits p.now here one.now }
{
    match one {
        Subscript::One(e) => is_expression(p, here, e),
        Subscript::Triplet { range, stride } => is_range(p, here, range)
            && is_optional_expression(p, here, stride),
        Subscript::Vector(e) => is_expression(p, here, e),
    }
}

#[cycle(fit)]
fn are_subscripts(p: &FProgram, here: Scope, all: &[Subscript]) -> bool
    ensures { result ≡ all_of (map (subscript_fits p.now here) all.now) }
{
    'subscripts: for one in all {
        if !is_subscript(p, here, one) {
            return false;
        }
    }
    true
}

#[cycle(fit)]
fn is_part(p: &FProgram, here: Scope, before: Option<DataType>, one: &Part) -> bool
    ensures { result ≡ (is_of before (part_seen p.now here one.now).of && (part_seen p.now here one.now).fits) }
{
    is_of(before, one.of)
        && may_stand(component_at(p, one.of, one.component), one.subscripts.len())
        && are_subscripts(p, here, one.subscripts.as_slice())
}

fn kind_of_part(p: &FProgram, here: Scope, one: &Part) -> Option<DataType>
    ensures { result ≡ (part_seen p.now here one.now).gives }
{
    kind_of(component_at(p, one.of, one.component))
}

#[cycle(fit)]
fn are_parts(p: &FProgram, here: Scope, first: Option<DataType>, all: &[Part]) -> bool
    ensures { result ≡ selects first (map (part_seen p.now here) all.now) }
{
    let mut before = first;
    'parts: for one in all {
        if !is_part(p, here, before, one) {
            return false;
        }
        before = kind_of_part(p, here, one);
    }
    true
}

/// Whether each number in a reference, to a variable where one is wanted, names a thing of the right kind.
#[cycle(fit)]
pub fn is_reference(p: &FProgram, here: Scope, of_variable: bool, r: &Reference) -> bool
    ensures { result ≡ reference_fits p.now here r.now of_variable }
{
    let row = named_row(p, here, r.root);
    may_name(of_variable, r.root)
        && may_stand(row, r.subscripts.len())
        && are_subscripts(p, here, r.subscripts.as_slice())
        && are_parts(p, here, kind_of(row), r.parts.as_slice())
        && is_optional_range(p, here, &r.substring)
}
