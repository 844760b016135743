//! What specifiers declare: enumerators.

ghost use Rattle.std.specs.Prelude.{◌≡◌, IfOk, None, false, map};
ghost use Rattle.c_grammar.specs.Grammar.{after_specs, after_spec, after_members, after_item, after_items};
ghost use Rattle.c_expression_read.specs.Views.{view_specifier, view_members, view_enumerator, specs_of, members_of, items_of, enum_of};
ghost use Rattle.c_redeclare.specs.Again.{after_together};

use crate::declarator::declarators;
use crate::expression::expression;
use c_scope::Scope;
use c_tree::{Enumerator, MemberDeclaration, Specifier};
use std::alloc::AllocError;

// An enumerator, behind its value (ISO/IEC 9899:2011, 6.2.1p7).
#[cycle(again)]
fn enumerator(scope: &mut Scope, one: &Enumerator) -> Result<(), AllocError>
    ensures { IfOk result (λ _. scope.new ≡ after_item (view_enumerator one.now) scope.old) }
{
    match &one.value {
        None => scope.bind(Some(one.name), false),
        Some(value) => {
            expression(scope, value.get())?;
            scope.bind(Some(one.name), false)
        }
    }
}

#[cycle(again)]
fn enumerators(scope: &mut Scope, all: &[Enumerator]) -> Result<(), AllocError>
    ensures { IfOk result (λ _. scope.new ≡ after_items (items_of (map view_enumerator all.now)) scope.old) }
{
    'enumerators: for one in all {
        enumerator(scope, one)?;
    }
    Ok(())
}

// The enumerators of an enum. The grammar has no enum without one; the view of such a tree has one with the name 0.
#[cycle(again)]
fn enumeration(scope: &mut Scope, all: &[Enumerator]) -> Result<(), AllocError>
    ensures { IfOk result (λ _. scope.new ≡ after_spec (enum_of None (map view_enumerator all.now) false) scope.old) }
{
    match all {
        [] => scope.bind(Some(0), false),
        [_, ..] => enumerators(scope, all),
    }
}

// Members that are declared together. Where there is no declarator, there is no member.
#[cycle(again)]
fn together(scope: &mut Scope, one: &MemberDeclaration) -> Result<(), AllocError>
    ensures { IfOk result (λ _. scope.new ≡ after_together (view_members one.now) scope.old) }
{
    match one.declarators.as_slice() {
        [] => Ok(()),
        [_, ..] => {
            specifiers(scope, one.specifiers.as_slice())?;
            declarators(scope, one.declarators.as_slice())
        }
    }
}

#[cycle(again)]
fn members(scope: &mut Scope, all: &[MemberDeclaration]) -> Result<(), AllocError>
    ensures { IfOk result (λ _. scope.new ≡ after_members (members_of (map view_members all.now)) scope.old) }
{
    'members: for one in all {
        together(scope, one)?;
    }
    Ok(())
}

#[cycle(again)]
fn specifier(scope: &mut Scope, one: &Specifier) -> Result<(), AllocError>
    ensures { IfOk result (λ _. scope.new ≡ after_spec (view_specifier one.now) scope.old) }
{
    match one {
        Specifier::Word { .. }
        | Specifier::StructTag { .. }
        | Specifier::EnumTag { .. }
        | Specifier::TypedefName { .. }
        | Specifier::DescriptorOfRank { .. } => Ok(()),
        Specifier::Struct { members: all, .. } => members(scope, all.as_slice()),
        Specifier::Enum { enumerators, .. } => enumeration(scope, enumerators.as_slice()),
    }
}

/// Declares again what specifiers declare.
#[cycle(again)]
pub fn specifiers(scope: &mut Scope, all: &[Specifier]) -> Result<(), AllocError>
    ensures { IfOk result (λ _. scope.new ≡ after_specs (specs_of (map view_specifier all.now)) scope.old) }
{
    'specifiers: for one in all {
        specifier(scope, one)?;
    }
    Ok(())
}
