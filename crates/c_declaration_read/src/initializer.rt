//! Initial values. Each function reads what stands first and answers it with the tokens behind it; the number behind the last token of the unit is
//! `end`.

ghost use Rattle.std.specs.Prelude.{◌≡◌, IfOk, length, map};
ghost use Rattle.std.specs.Option.{option_map};
ghost use Rattle.c_grammar.specs.Reading.{Gives};
ghost use Rattle.c_unit_grammar.specs.Statements.{after_initial, after_initials, after_value};
ghost use Rattle.c_unit_grammar.specs.Reading.{plain_initial, braced_initial, initials_at, initial_at, initial_in, value_at};
ghost use Rattle.c_declaration_read.specs.Views.{view_initializer, initials_of};

use crate::made;
use crate::word::{brace_opened, equals_at, next_initializer};
use c_expression_read::{braced, deep, last_comma, number, read_assignment};
use c_grammar::{ReadError, Token};
use c_scope::Scope;
use c_tree::Initializer;
use std::alloc::Global;

// An initial value that is an expression.
#[tactic(auto, unfolding(c_unit_grammar::specs::Reading::plain_initial))]
fn expression<'a>(
    alloc: Global,
    end: u32,
    depth: u32,
    scope: &mut Scope,
    tokens: &'a [Token],
) -> Result<(Initializer, &'a [Token]), ReadError>
    ensures read { Gives (λ x. (view_initializer x.0, x.1.now)) result (plain_initial depth scope.old tokens.now) }
    ensures scope { IfOk result (λ x. scope.new ≡ after_initial (view_initializer x.0) scope.old) }
{
    let (value, rest) = read_assignment(alloc, end, depth, scope, tokens)?;
    Ok((Initializer::Value(value), rest))
}

// An initial value one nesting down.
#[cycle(initial)]
#[tactic(auto, unfolding(c_unit_grammar::specs::Reading::initial_in))]
fn nested<'a>(
    alloc: Global,
    end: u32,
    depth: u32,
    scope: &mut Scope,
    tokens: &'a [Token],
) -> Result<(Initializer, &'a [Token]), ReadError>
    ensures read { Gives (λ x. (view_initializer x.0, x.1.now)) result (initial_in depth scope.old tokens.now) }
    ensures scope { IfOk result (λ x. scope.new ≡ after_initial (view_initializer x.0) scope.old) }
{
    if depth == 0 {
        return Err(deep(tokens));
    }
    initializer(alloc, end, depth - 1, scope, tokens)
}

// The initial values behind the commas behind a first one.
#[cycle(initial)]
fn others<'a>(
    alloc: Global,
    end: u32,
    depth: u32,
    scope: &mut Scope,
    tokens: &'a [Token],
) -> Result<(Vec<Initializer>, &'a [Token]), ReadError>
    ensures read { Gives (λ x. (initials_of (map view_initializer x.0.items), x.1.now)) result (initials_at (initial_in depth) (length tokens.now) scope.old tokens.now) }
    ensures scope { IfOk result (λ x. scope.new ≡ after_initials (initials_of (map view_initializer x.0.items)) scope.old) }
{
    let mut others = Vec::new(alloc);
    let mut rest = tokens;
    'initials: for _ in 0..tokens.len() {
        match next_initializer(rest) {
            None => return Ok((others, rest)),
            Some(behind) => {
                let (one, after) = nested(alloc, end, depth, scope, behind)?;
                others.push(one)?;
                rest = after;
            }
        }
    }
    Ok((others, rest))
}

// Initial values behind `{`, one at least, perhaps a comma, and `}`.
#[cycle(initial)]
#[tactic(auto, unfolding(c_unit_grammar::specs::Reading::braced_initial))]
fn list<'a>(
    alloc: Global,
    end: u32,
    depth: u32,
    at: u32,
    scope: &mut Scope,
    tokens: &'a [Token],
) -> Result<(Initializer, &'a [Token]), ReadError>
    ensures read { Gives (λ x. (view_initializer x.0, x.1.now)) result (braced_initial (initial_in depth) scope.old tokens.now) }
    ensures scope { IfOk result (λ x. scope.new ≡ after_initial (view_initializer x.0) scope.old) }
{
    let (first, rest) = nested(alloc, end, depth, scope, tokens)?;
    let (others, rest) = others(alloc, end, depth, scope, rest)?;
    let (has_comma, rest) = last_comma(rest);
    let rest = braced(rest)?;
    Ok((made::braced(first, others, has_comma, at)?, rest))
}

// An initial value, where so many nestings are left (ISO/IEC 9899:2011, 6.7.9).
#[cycle(initial)]
#[tactic(auto, unfolding(c_unit_grammar::specs::Reading::initial_at))]
fn initializer<'a>(
    alloc: Global,
    end: u32,
    depth: u32,
    scope: &mut Scope,
    tokens: &'a [Token],
) -> Result<(Initializer, &'a [Token]), ReadError>
    ensures read { Gives (λ x. (view_initializer x.0, x.1.now)) result (initial_at depth (initial_in depth) scope.old tokens.now) }
    ensures scope { IfOk result (λ x. scope.new ≡ after_initial (view_initializer x.0) scope.old) }
{
    let at = number(end, tokens);
    match brace_opened(tokens) {
        None => expression(alloc, end, depth, scope, tokens),
        Some(rest) => list(alloc, end, depth, at, scope, rest),
    }
}

/// The initial value of a declarator, where `=` stands first.
#[tactic(auto, unfolding(c_unit_grammar::specs::Reading::value_at))]
pub fn value<'a>(
    alloc: Global,
    end: u32,
    depth: u32,
    scope: &mut Scope,
    tokens: &'a [Token],
) -> Result<(Option<Initializer>, &'a [Token]), ReadError>
    ensures read { Gives (λ x. (option_map view_initializer x.0, x.1.now)) result (value_at depth scope.old tokens.now) }
    ensures scope { IfOk result (λ x. scope.new ≡ after_value (option_map view_initializer x.0) scope.old) }
{
    match equals_at(tokens) {
        None => Ok((None, tokens)),
        Some(rest) => {
            let (value, rest) = initializer(alloc, end, depth, scope, rest)?;
            Ok((Some(value), rest))
        }
    }
}
