//! What stands first among tokens, with the names in scope.
//!
//! Each function takes the number `end` of the token behind the last one of the unit, which the tokens reach to, and how many nestings are left; it
//! declares in the scope what it reads. Where it answers with a fault, what stands in the scope is not told.

ghost use Rattle.std.specs.Prelude.{◌≡◌, IfOk, List, map, false};
ghost use Rattle.c_grammar.specs.declared.token.Token.{Token as Lexeme};
ghost use Rattle.c_grammar.specs.Grammar.{Scope as Names, Expr as Tree, Specs, Decl, Typed as TypedTree, after, after_specs, after_decl, after_typed, spell, spell_specs, spell_decl, spell_typed, is_based, Fits, FitsSpecifiers, FitsDecl, FitsTyped, Within, Stops, Ends, NoBraces};
ghost use Rattle.c_grammar.specs.Reading.{Gives, inner, level_at, specifiers_at, decl_at, typed_at, begins_spec};
ghost use Rattle.c_expression_read.specs.Gives.{IsReadAs};
ghost use Rattle.c_expression_read.specs.Views.{view, view_declarator, view_typed, view_specifier, specs_of};

use crate::chain::{assignment, conditional, expression};
use crate::declarator::{declarator, typed};
use crate::operand::nested_expression;
use crate::specifier::specifiers;
use c_grammar::{Allowed, ReadError, Token};
use c_scope::Scope;
use c_tree::{Declarator, Expr, Specifier, Typed};
use std::alloc::Global;

/// The longest expression that stands first, and the tokens behind it (ISO/IEC 9899:2011, 6.5.17).
pub fn read_expression<'a>(
    alloc: Global,
    end: u32,
    depth: u32,
    scope: &mut Scope,
    tokens: &'a [Token],
) -> Result<(Expr, &'a [Token]), ReadError>
    ensures read { Gives (λ x. (view x.0, x.1.now)) result (level_at (inner depth) 13 scope.old tokens.now) }
    ensures scope { IfOk result (λ x. scope.new ≡ after (view x.0) scope.old) }
    ensures found { IfOk result (λ x. (tokens.now ≡ spell (view x.0) x.1.now) × Fits depth 13 scope.old (view x.0)) }
    ensures only { (e : Tree) (rest : List Lexeme) → Fits depth 13 scope.old e → Stops 13 rest → tokens.now ≡ spell e rest → IsReadAs e rest (λ x. (view x.0, x.1.now)) result }
{
    expression(alloc, end, depth, scope, tokens)
}

/// The expression that stands first, one nesting down, and the tokens behind it: one in parentheses or brackets.
pub fn read_nested_expression<'a>(
    alloc: Global,
    end: u32,
    depth: u32,
    scope: &mut Scope,
    tokens: &'a [Token],
) -> Result<(Expr, &'a [Token]), ReadError>
    ensures read { Gives (λ x. (view x.0, x.1.now)) result ((inner depth).expr 13 scope.old tokens.now) }
    ensures scope { IfOk result (λ x. scope.new ≡ after (view x.0) scope.old) }
    ensures found { IfOk result (λ x. (tokens.now ≡ spell (view x.0) x.1.now) × Within depth 13 scope.old (view x.0)) }
    ensures only { (e : Tree) (rest : List Lexeme) → Within depth 13 scope.old e → Stops 13 rest → tokens.now ≡ spell e rest → IsReadAs e rest (λ x. (view x.0, x.1.now)) result }
{
    nested_expression(alloc, end, depth, scope, tokens)
}

/// The longest assignment expression that stands first, and the tokens behind it (ISO/IEC 9899:2011, 6.5.16).
pub fn read_assignment<'a>(
    alloc: Global,
    end: u32,
    depth: u32,
    scope: &mut Scope,
    tokens: &'a [Token],
) -> Result<(Expr, &'a [Token]), ReadError>
    ensures read { Gives (λ x. (view x.0, x.1.now)) result (level_at (inner depth) 12 scope.old tokens.now) }
    ensures scope { IfOk result (λ x. scope.new ≡ after (view x.0) scope.old) }
    ensures found { IfOk result (λ x. (tokens.now ≡ spell (view x.0) x.1.now) × Fits depth 12 scope.old (view x.0)) }
    ensures only { (e : Tree) (rest : List Lexeme) → Fits depth 12 scope.old e → Stops 12 rest → tokens.now ≡ spell e rest → IsReadAs e rest (λ x. (view x.0, x.1.now)) result }
{
    assignment(alloc, end, depth, scope, tokens)
}

/// The longest constant expression that stands first, which is a conditional expression, and the tokens behind it (ISO/IEC 9899:2011, 6.6).
pub fn read_constant<'a>(
    alloc: Global,
    end: u32,
    depth: u32,
    scope: &mut Scope,
    tokens: &'a [Token],
) -> Result<(Expr, &'a [Token]), ReadError>
    ensures read { Gives (λ x. (view x.0, x.1.now)) result (level_at (inner depth) 11 scope.old tokens.now) }
    ensures scope { IfOk result (λ x. scope.new ≡ after (view x.0) scope.old) }
    ensures found { IfOk result (λ x. (tokens.now ≡ spell (view x.0) x.1.now) × Fits depth 11 scope.old (view x.0)) }
    ensures only { (e : Tree) (rest : List Lexeme) → Fits depth 11 scope.old e → Stops 11 rest → tokens.now ≡ spell e rest → IsReadAs e rest (λ x. (view x.0, x.1.now)) result }
{
    conditional(alloc, end, depth, scope, tokens)
}

/// The specifiers that stand first, one at least, and the tokens behind them (ISO/IEC 9899:2011, 6.7).
pub fn read_specifiers<'a>(
    alloc: Global,
    end: u32,
    depth: u32,
    scope: &mut Scope,
    tokens: &'a [Token],
) -> Result<(Vec<Specifier>, &'a [Token]), ReadError>
    ensures read { Gives (λ x. (specs_of (map view_specifier x.0.items), x.1.now)) result (specifiers_at (inner depth) scope.old tokens.now) }
    ensures scope { IfOk result (λ x. scope.new ≡ after_specs (specs_of (map view_specifier x.0.items)) scope.old) }
    ensures found { IfOk result (λ x. (tokens.now ≡ spell_specs (specs_of (map view_specifier x.0.items)) x.1.now) × FitsSpecifiers depth scope.old (specs_of (map view_specifier x.0.items))) }
    ensures only { (specs : Specs) (rest : List Lexeme) → FitsSpecifiers depth scope.old specs → begins_spec (is_based false specs) (after_specs specs scope.old) rest ≡ false → NoBraces rest → tokens.now ≡ spell_specs specs rest → IsReadAs specs rest (λ x. (specs_of (map view_specifier x.0.items), x.1.now)) result }
{
    specifiers(alloc, end, depth, scope, tokens)
}

/// The declarator that stands first, with a name or without, and the tokens behind it (ISO/IEC 9899:2011, 6.7.6 and 6.7.7). Its name isn't
/// declared by it.
pub fn read_declarator<'a>(
    alloc: Global,
    end: u32,
    depth: u32,
    allowed: Allowed,
    scope: &mut Scope,
    tokens: &'a [Token],
) -> Result<(Declarator, &'a [Token]), ReadError>
    ensures read { Gives (λ x. (view_declarator x.0, x.1.now)) result (decl_at (inner depth) allowed scope.old tokens.now) }
    ensures scope { IfOk result (λ x. scope.new ≡ after_decl (view_declarator x.0) scope.old) }
    ensures found { IfOk result (λ x. (tokens.now ≡ spell_decl (view_declarator x.0) x.1.now) × FitsDecl depth allowed scope.old (view_declarator x.0)) }
    ensures only { (d : Decl) (rest : List Lexeme) → FitsDecl depth allowed scope.old d → Ends rest → tokens.now ≡ spell_decl d rest → IsReadAs d rest (λ x. (view_declarator x.0, x.1.now)) result }
{
    declarator(alloc, end, depth, allowed, scope, tokens)
}

/// The specifiers and the declarator that stand first, and the tokens behind them: the name of a type where the declarator has none
/// (ISO/IEC 9899:2011, 6.7.7).
pub fn read_typed<'a>(
    alloc: Global,
    end: u32,
    depth: u32,
    allowed: Allowed,
    scope: &mut Scope,
    tokens: &'a [Token],
) -> Result<(Typed, &'a [Token]), ReadError>
    ensures read { Gives (λ x. (view_typed x.0, x.1.now)) result (typed_at (inner depth) allowed scope.old tokens.now) }
    ensures scope { IfOk result (λ x. scope.new ≡ after_typed (view_typed x.0) scope.old) }
    ensures found { IfOk result (λ x. (tokens.now ≡ spell_typed (view_typed x.0) x.1.now) × FitsTyped depth allowed scope.old (view_typed x.0)) }
    ensures only { (t : TypedTree) (rest : List Lexeme) → FitsTyped depth allowed scope.old t → Ends rest → NoBraces rest → tokens.now ≡ spell_typed t rest → IsReadAs t rest (λ x. (view_typed x.0, x.1.now)) result }
{
    typed(alloc, end, depth, allowed, scope, tokens)
}
