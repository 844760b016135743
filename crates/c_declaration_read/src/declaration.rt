//! Declarations.
//!
//! Each function reads what stands first and answers it with the tokens behind it. It takes the number `end` of the token behind the last one of the
//! unit, which the tokens reach to, and how many nestings are left; it declares in the scope what it reads. Where it answers with a fault, what stands
//! in the scope is not told.

ghost use Rattle.std.specs.Prelude.{◌≡◌, IfOk, length, map};
ghost use Rattle.c_grammar.specs.Grammar.{Scope as Names, after_specs, after_typed, bind, name_of};
ghost use Rattle.c_grammar.specs.Reading.{Gives};
ghost use Rattle.c_unit_grammar.specs.Statements.{after_init, after_inits, after_declaration};
ghost use Rattle.c_unit_grammar.specs.Reading.{init_at, inits_at, behind_at, declares_at, declaration_at, declarators_at};
ghost use Rattle.c_expression_read.specs.Views.{view_declarator, view_specifier, view_typed, specs_of};
ghost use Rattle.c_declaration_read.specs.Views.{view_init, view_declaration, behind_typed};

use crate::initializer::value;
use crate::made;
use crate::word::ends_declaration;
use c_expression_read::{
    comma_at, ended, is_typedef, name_of, number, read_declarator, read_specifiers,
};
use c_grammar::{Allowed, ReadError, Token};
use c_scope::Scope;
use c_tree::{Declaration, Declarator, InitDeclarator, Specifier, Typed};
use jf_base::List;
use std::alloc::{AllocError, Global};

/// Declares the name of a declarator, as one of a type or of something else (ISO/IEC 9899:2011, 6.2.1).
pub fn declare(
    scope: &mut Scope,
    is_typedef: bool,
    declarator: &Declarator,
) -> Result<(), AllocError>
    ensures { IfOk result (λ _. scope.new ≡ bind (name_of (view_declarator declarator.now)) is_typedef scope.old) }
{
    scope.bind(name_of(declarator), is_typedef)
}

// A declarator, whose name is declared before its initial value (ISO/IEC 9899:2011, 6.2.1p7), and that value.
#[tactic(auto, unfolding(c_unit_grammar::specs::Reading::init_at))]
fn init_declarator<'a>(
    alloc: Global,
    end: u32,
    depth: u32,
    is_typedef: bool,
    scope: &mut Scope,
    tokens: &'a [Token],
) -> Result<(InitDeclarator, &'a [Token]), ReadError>
    ensures read { Gives (λ x. (view_init x.0, x.1.now)) result (init_at depth is_typedef scope.old tokens.now) }
    ensures scope { IfOk result (λ x. scope.new ≡ after_init is_typedef (view_init x.0) scope.old) }
{
    let at = number(end, tokens);
    let (declarator, rest) = read_declarator(alloc, end, depth, Allowed::Named, scope, tokens)?;
    declare(scope, is_typedef, &declarator)?;
    let (value, rest) = value(alloc, end, depth, scope, rest)?;
    let one = made::init_declarator(declarator, value, at);
    Ok((one, rest))
}

// The declarators behind the commas behind a first one.
fn other_declarators<'a>(
    alloc: Global,
    end: u32,
    depth: u32,
    is_typedef: bool,
    scope: &mut Scope,
    tokens: &'a [Token],
) -> Result<(Vec<InitDeclarator>, &'a [Token]), ReadError>
    ensures read { Gives (λ x. (map view_init x.0.items, x.1.now)) result (inits_at depth is_typedef (length tokens.now) scope.old tokens.now) }
    ensures scope { IfOk result (λ x. scope.new ≡ after_inits is_typedef (map view_init x.0.items) scope.old) }
{
    let mut others = Vec::new(alloc);
    let mut rest = tokens;
    'declarators: for _ in 0..tokens.len() {
        match comma_at(rest) {
            None => return Ok((others, rest)),
            Some(behind) => {
                let (one, after) = init_declarator(alloc, end, depth, is_typedef, scope, behind)?;
                others.push(one)?;
                rest = after;
            }
        }
    }
    Ok((others, rest))
}

/// What stands behind the specifiers and the first declarator of a declaration, to its `;`.
#[tactic(auto, unfolding(c_unit_grammar::specs::Reading::behind_at))]
pub fn read_behind_declarator<'a>(
    alloc: Global,
    end: u32,
    depth: u32,
    first: Typed,
    scope: &mut Scope,
    tokens: &'a [Token],
) -> Result<(Declaration, &'a [Token]), ReadError>
    ensures read { Gives (λ x. (view_declaration x.0, x.1.now)) result (behind_typed depth (view_typed first) scope.old tokens.now) }
    ensures scope { IfOk result (λ x. (s : Names) → scope.old ≡ after_typed (view_typed first) s → scope.new ≡ after_declaration (view_declaration x.0) s) }
{
    let is_typedef = is_typedef(first.specifiers.as_slice());
    declare(scope, is_typedef, &first.declarator)?;
    let (value, rest) = value(alloc, end, depth, scope, tokens)?;
    let (others, rest) = other_declarators(alloc, end, depth, is_typedef, scope, rest)?;
    let rest = ended(rest)?;
    Ok((made::declaration(first, value, others)?, rest))
}

// What stands behind the specifiers of a declaration that has declarators, to its `;`. The specifiers begin at the number given.
#[tactic(auto, unfolding(c_unit_grammar::specs::Reading::declares_at))]
fn declarators<'a>(
    alloc: Global,
    end: u32,
    depth: u32,
    at: u32,
    specifiers: Vec<Specifier>,
    scope: &mut Scope,
    tokens: &'a [Token],
) -> Result<(Declaration, &'a [Token]), ReadError>
    ensures read { Gives (λ x. (view_declaration x.0, x.1.now)) result (declares_at depth (specs_of (map view_specifier specifiers.items)) scope.old tokens.now) }
    ensures scope { IfOk result (λ x. (s : Names) → scope.old ≡ after_specs (specs_of (map view_specifier specifiers.items)) s → scope.new ≡ after_declaration (view_declaration x.0) s) }
{
    let (declarator, rest) = read_declarator(alloc, end, depth, Allowed::Named, scope, tokens)?;
    let specifiers = List::from_vec(specifiers);
    let first = Typed {
        specifiers,
        declarator,
        at,
    };
    read_behind_declarator(alloc, end, depth, first, scope, rest)
}

/// The declaration that stands first, and the tokens behind it (ISO/IEC 9899:2011, 6.7).
#[tactic(auto, unfolding(c_unit_grammar::specs::Reading::declaration_at))]
pub fn read_declaration<'a>(
    alloc: Global,
    end: u32,
    depth: u32,
    scope: &mut Scope,
    tokens: &'a [Token],
) -> Result<(Declaration, &'a [Token]), ReadError>
    ensures read { Gives (λ x. (view_declaration x.0, x.1.now)) result (declaration_at depth scope.old tokens.now) }
    ensures scope { IfOk result (λ x. scope.new ≡ after_declaration (view_declaration x.0) scope.old) }
{
    let at = number(end, tokens);
    let (specifiers, rest) = read_specifiers(alloc, end, depth, scope, tokens)?;
    match ends_declaration(rest) {
        Some(rest) => Ok((made::bare_declaration(alloc, specifiers, at), rest)),
        None => declarators(alloc, end, depth, at, specifiers, scope, rest),
    }
}

/// The declaration that stands first, which has declarators, and the tokens behind it: what a `for` may begin with (ISO/IEC 9899:2011, 6.8.5.3).
#[tactic(auto, unfolding(c_unit_grammar::specs::Reading::declarators_at))]
pub fn read_declarators<'a>(
    alloc: Global,
    end: u32,
    depth: u32,
    scope: &mut Scope,
    tokens: &'a [Token],
) -> Result<(Declaration, &'a [Token]), ReadError>
    ensures read { Gives (λ x. (view_declaration x.0, x.1.now)) result (declarators_at depth scope.old tokens.now) }
    ensures scope { IfOk result (λ x. scope.new ≡ after_declaration (view_declaration x.0) scope.old) }
{
    let at = number(end, tokens);
    let (specifiers, rest) = read_specifiers(alloc, end, depth, scope, tokens)?;
    declarators(alloc, end, depth, at, specifiers, scope, rest)
}
