//! What declarators declare besides their names: the enumerators that stand in the lengths of arrays.

ghost use Rattle.std.specs.Prelude.{◌≡◌, IfOk, map};
ghost use Rattle.c_grammar.specs.Grammar.{after_typed, after_decl, after_decls, after_core, after_suffix, after_suffixes};
ghost use Rattle.c_expression_read.specs.Views.{view_typed, view_declarator, view_core, view_suffix, decls_of, suffixes_of};

use crate::expression::expression;
use crate::specifier::specifiers;
use c_scope::Scope;
use c_tree::{Core, Declarator, Suffix, Typed};
use std::alloc::AllocError;

// The parameters of a function are a scope of their own (ISO/IEC 9899:2011, 6.2.1p4).
#[cycle(again)]
fn suffix(scope: &mut Scope, one: &Suffix) -> Result<(), AllocError>
    ensures { IfOk result (λ _. scope.new ≡ after_suffix (view_suffix one.now) scope.old) }
{
    match one {
        Suffix::Array { length, .. } => match length {
            None => Ok(()),
            Some(length) => expression(scope, length.get()),
        },
        Suffix::Function { .. } => Ok(()),
    }
}

#[cycle(again)]
fn suffixes(scope: &mut Scope, all: &[Suffix]) -> Result<(), AllocError>
    ensures { IfOk result (λ _. scope.new ≡ after_suffixes (suffixes_of (map view_suffix all.now)) scope.old) }
{
    'suffixes: for one in all {
        suffix(scope, one)?;
    }
    Ok(())
}

#[cycle(again)]
fn core(scope: &mut Scope, core: &Core) -> Result<(), AllocError>
    ensures { IfOk result (λ _. scope.new ≡ after_core (view_core core.now) scope.old) }
{
    match core {
        Core::Absent | Core::Identifier { .. } => Ok(()),
        Core::Group { inner, .. } => declarator(scope, inner.get()),
    }
}

/// Declares again what a declarator declares besides its name.
#[cycle(again)]
pub fn declarator(scope: &mut Scope, one: &Declarator) -> Result<(), AllocError>
    ensures { IfOk result (λ _. scope.new ≡ after_decl (view_declarator one.now) scope.old) }
{
    core(scope, &one.core)?;
    suffixes(scope, one.suffixes.as_slice())
}

/// Declares again what declarators declare besides their names.
#[cycle(again)]
pub fn declarators(scope: &mut Scope, all: &[Declarator]) -> Result<(), AllocError>
    ensures { IfOk result (λ _. scope.new ≡ after_decls (decls_of (map view_declarator all.now)) scope.old) }
{
    'declarators: for one in all {
        declarator(scope, one)?;
    }
    Ok(())
}

/// Declares again what specifiers and a declarator declare besides its name.
#[cycle(again)]
pub fn typed(scope: &mut Scope, one: &Typed) -> Result<(), AllocError>
    ensures { IfOk result (λ _. scope.new ≡ after_typed (view_typed one.now) scope.old) }
{
    specifiers(scope, one.specifiers.as_slice())?;
    declarator(scope, &one.declarator)
}
