//! The parameters of the function that a declarator names.

ghost use Rattle.std.specs.Prelude.{◌≡◌, IfOk, Some, map};
ghost use Rattle.c_grammar.specs.Grammar.{after_param, after_more};
ghost use Rattle.c_grammar.specs.Reading.{seen};
ghost use Rattle.c_unit_grammar.specs.Statements.{is_bare, list_of, own, with_params};
ghost use Rattle.c_expression_read.specs.Views.{view_declarator, view_suffix, view_parameters, view_typed, suffixes_of, more_of};

use crate::declarator::typed;
use c_expression_read::{is_typedef, name_of};
use c_scope::Scope;
use c_tree::{Core, Declarator, Parameters, Suffix, Typed};
use std::alloc::AllocError;

// Whether a declarator is a name and nothing else, perhaps in parentheses.
fn is_bare(declarator: &Declarator) -> bool
    ensures { result ≡ is_bare (view_declarator declarator.now) }
{
    match declarator.marks.as_slice().split_first() {
        Some(_) => false,
        None => match declarator.suffixes.as_slice().split_first() {
            Some(_) => false,
            None => match &declarator.core {
                Core::Absent => false,
                Core::Identifier { .. } => true,
                Core::Group { inner, .. } => is_bare(inner.get()),
            },
        },
    }
}

// The parameters of the suffix that stands first, where that is one of a function.
fn list_of(suffixes: &[Suffix]) -> Option<&Parameters>
    ensures { list_of (suffixes_of (map view_suffix suffixes.now)) ≡ seen (λ p. view_parameters p.now) result }
{
    match suffixes {
        [Suffix::Function { parameters, .. }, ..] => Some(parameters),
        _ => None,
    }
}

// The parameters of the function that a declarator names: those next to the name.
fn own(declarator: &Declarator) -> Option<&Parameters>
    ensures { own (view_declarator declarator.now) ≡ seen (λ p. view_parameters p.now) result }
{
    match &declarator.core {
        Core::Absent => None,
        Core::Identifier { .. } => list_of(declarator.suffixes.as_slice()),
        Core::Group { inner, .. } => {
            if is_bare(inner.get()) {
                list_of(declarator.suffixes.as_slice())
            } else {
                own(inner.get())
            }
        }
    }
}

// A parameter with its name.
fn parameter(scope: &mut Scope, one: &Typed) -> Result<(), AllocError>
    ensures { IfOk result (λ _. scope.new ≡ after_param (view_typed one.now) scope.old) }
{
    typed(scope, one)?;
    let is_typedef = is_typedef(one.specifiers.as_slice());
    scope.bind(name_of(&one.declarator), is_typedef)
}

// Parameters in their order.
fn listed(scope: &mut Scope, all: &[Typed]) -> Result<(), AllocError>
    ensures { IfOk result (λ _. scope.new ≡ after_more (more_of (map view_typed all.now)) scope.old) }
{
    'parameters: for one in all {
        parameter(scope, one)?;
    }
    Ok(())
}

fn parameters(scope: &mut Scope, parameters: &Parameters) -> Result<(), AllocError>
    ensures { IfOk result (λ _. scope.new ≡ with_params (Some (view_parameters parameters.now)) scope.old) }
{
    match parameters {
        Parameters::Nothing | Parameters::Void => Ok(()),
        Parameters::Listed(all) => listed(scope, all.as_slice()),
    }
}

/// Declares again what the list of parameters of the function declares that a declarator names, where it names one: its parameters, and the enumerators
/// in their types (ISO/IEC 9899:2011, 6.2.1p4 and 6.9.1p7). The lists of other functions in the declarator declare nothing.
pub fn declare_parameters(scope: &mut Scope, declarator: &Declarator) -> Result<(), AllocError>
    ensures { IfOk result (λ _. scope.new ≡ with_params (own (view_declarator declarator.now)) scope.old) }
{
    match own(declarator) {
        None => Ok(()),
        Some(list) => parameters(scope, list),
    }
}
