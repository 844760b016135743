//! The parts of statements that hold no statements. Each function reads what stands first and answers it with the tokens behind it; the number
//! behind the last token of the unit is `end`.

ghost use Rattle.std.specs.Prelude.{◌≡◌, IfOk};
ghost use Rattle.std.specs.Option.{option_map};
ghost use Rattle.c_grammar.specs.Grammar.{after};
ghost use Rattle.c_grammar.specs.Reading.{Gives, inner, level_at};
ghost use Rattle.c_unit_grammar.specs.Statements.{after_declaration, after_optional, after_start};
ghost use Rattle.c_unit_grammar.specs.Reading.{declarators_in, test_at, optional_at, next_at, start_at};
ghost use Rattle.c_expression_read.specs.Views.{view};
ghost use Rattle.c_declaration_read.specs.Views.{view_declaration};
ghost use Rattle.c_statement_read.specs.Views.{view_start};

use crate::word::ends_parentheses;
use c_declaration_read::{ends_declaration, read_declarators};
use c_expression_read::{broken, closed, deep, ended, read_expression, read_nested_expression};
use c_grammar::{ReadError, Token};
use c_scope::Scope;
use c_tree::{Declaration, Expr, ForStart};
use std::alloc::Global;

/// An expression in parentheses.
#[tactic(auto, unfolding(c_unit_grammar::specs::Reading::test_at))]
pub fn test<'a>(
    alloc: Global,
    end: u32,
    depth: u32,
    scope: &mut Scope,
    tokens: &'a [Token],
) -> Result<(Expr, &'a [Token]), ReadError>
    ensures read { Gives (λ x. (view x.0, x.1.now)) result (test_at (inner depth) scope.old tokens.now) }
    ensures scope { IfOk result (λ x. scope.new ≡ after (view x.0) scope.old) }
{
    match tokens {
        [Token::Open, rest @ ..] => {
            let (test, rest) = read_nested_expression(alloc, end, depth, scope, rest)?;
            let rest = closed(rest)?;
            Ok((test, rest))
        }
        _ => Err(broken(tokens)),
    }
}

/// An expression one nesting down, or none, and `;`.
#[tactic(auto, unfolding(c_unit_grammar::specs::Reading::optional_at))]
pub fn optional_test<'a>(
    alloc: Global,
    end: u32,
    depth: u32,
    scope: &mut Scope,
    tokens: &'a [Token],
) -> Result<(Option<Expr>, &'a [Token]), ReadError>
    ensures read { Gives (λ x. (option_map view x.0, x.1.now)) result (optional_at ((inner depth).expr 13) scope.old tokens.now) }
    ensures scope { IfOk result (λ x. scope.new ≡ after_optional (option_map view x.0) scope.old) }
{
    match ends_declaration(tokens) {
        Some(rest) => Ok((None, rest)),
        None => {
            let (test, rest) = read_nested_expression(alloc, end, depth, scope, tokens)?;
            let rest = ended(rest)?;
            Ok((Some(test), rest))
        }
    }
}

/// An expression one nesting down, or none, and `)`.
#[tactic(auto, unfolding(c_unit_grammar::specs::Reading::next_at))]
pub fn optional_step<'a>(
    alloc: Global,
    end: u32,
    depth: u32,
    scope: &mut Scope,
    tokens: &'a [Token],
) -> Result<(Option<Expr>, &'a [Token]), ReadError>
    ensures read { Gives (λ x. (option_map view x.0, x.1.now)) result (next_at ((inner depth).expr 13) scope.old tokens.now) }
    ensures scope { IfOk result (λ x. scope.new ≡ after_optional (option_map view x.0) scope.old) }
{
    match ends_parentheses(tokens) {
        Some(rest) => Ok((None, rest)),
        None => {
            let (step, rest) = read_nested_expression(alloc, end, depth, scope, tokens)?;
            let rest = closed(rest)?;
            Ok((Some(step), rest))
        }
    }
}

/// An expression, or none, and `;`.
#[tactic(auto, unfolding(c_unit_grammar::specs::Reading::optional_at))]
pub fn optional_value<'a>(
    alloc: Global,
    end: u32,
    depth: u32,
    scope: &mut Scope,
    tokens: &'a [Token],
) -> Result<(Option<Expr>, &'a [Token]), ReadError>
    ensures read { Gives (λ x. (option_map view x.0, x.1.now)) result (optional_at (level_at (inner depth) 13) scope.old tokens.now) }
    ensures scope { IfOk result (λ x. scope.new ≡ after_optional (option_map view x.0) scope.old) }
{
    match ends_declaration(tokens) {
        Some(rest) => Ok((None, rest)),
        None => {
            let (value, rest) = read_expression(alloc, end, depth, scope, tokens)?;
            let rest = ended(rest)?;
            Ok((Some(value), rest))
        }
    }
}

// A declaration with declarators one nesting down.
#[tactic(auto, unfolding(c_unit_grammar::specs::Reading::declarators_in))]
fn nested_declarators<'a>(
    alloc: Global,
    end: u32,
    depth: u32,
    scope: &mut Scope,
    tokens: &'a [Token],
) -> Result<(Declaration, &'a [Token]), ReadError>
    ensures read { Gives (λ x. (view_declaration x.0, x.1.now)) result (declarators_in depth scope.old tokens.now) }
    ensures scope { IfOk result (λ x. scope.new ≡ after_declaration (view_declaration x.0) scope.old) }
{
    if depth == 0 {
        return Err(deep(tokens));
    }
    read_declarators(alloc, end, depth - 1, scope, tokens)
}

/// What a `for` begins with: a declaration that has declarators, or an expression or none with its `;` (ISO/IEC 9899:2011, 6.8.5.3).
#[tactic(auto, unfolding(c_unit_grammar::specs::Reading::start_at))]
pub fn start<'a>(
    alloc: Global,
    end: u32,
    depth: u32,
    scope: &mut Scope,
    tokens: &'a [Token],
) -> Result<(ForStart, &'a [Token]), ReadError>
    ensures read { Gives (λ x. (view_start x.0, x.1.now)) result (start_at depth scope.old tokens.now) }
    ensures scope { IfOk result (λ x. scope.new ≡ after_start (view_start x.0) scope.old) }
{
    if scope.starts_type(tokens) {
        let (declaration, rest) = nested_declarators(alloc, end, depth, scope, tokens)?;
        Ok((ForStart::Declaration(declaration), rest))
    } else {
        let (first, rest) = optional_test(alloc, end, depth, scope, tokens)?;
        Ok((ForStart::Expression(first), rest))
    }
}
