//! Expressions. Each function reads what stands first and answers it with the tokens behind it; the number behind the last token of the unit is `end`.

ghost use Rattle.std.specs.Prelude.{◌≡◌, IfOk, length, map};
ghost use Rattle.c_grammar.specs.Grammar.{after, after_post, after_posts};
ghost use Rattle.c_grammar.specs.Reading.{Gives, inner, paren_at, primary_at, arguments_at, index_at, call_at, post_at, posts_at, postfix_at, prefix_at, conversion_at, size_of_at, type_size_at, size_at, cast_at, level_at};
ghost use Rattle.c_expression_read.specs.Gives.{called, text_behind};
ghost use Rattle.c_expression_read.specs.Views.{view, view_postfix, posts_of, call_of};

use crate::chain::{assignment, conditional, expression, other_expressions};
use crate::declarator::nested_typed;
use crate::made::{self, in_front};
use crate::operator::{is_unary, prefix_at, takes_operand};
use crate::run::texts;
use crate::word::{begins_postfix, broken, closed, deep, number, squared};
use c_grammar::{Allowed, ReadError, Token};
use c_scope::Scope;
use c_tree::{Expr, Postfix, PrefixOperator};
use jf_base::List;
use std::alloc::Global;

/// An expression one nesting down, where so many are left (ISO/IEC 9899:2011, 6.5.17).
#[cycle(reader)]
#[tactic(auto, unfolding(c_grammar::specs::Reading::inner))]
pub fn nested_expression<'a>(
    alloc: Global,
    end: u32,
    depth: u32,
    scope: &mut Scope,
    tokens: &'a [Token],
) -> Result<(Expr, &'a [Token]), ReadError>
    ensures read { Gives (λ x. (view x.0, x.1.now)) result ((inner depth).expr 13 scope.old tokens.now) }
    ensures scope { IfOk result (λ x. scope.new ≡ after (view x.0) scope.old) }
{
    if depth == 0 {
        return Err(deep(tokens));
    }
    expression(alloc, end, depth - 1, scope, tokens)
}

/// A constant expression one nesting down (ISO/IEC 9899:2011, 6.6).
#[cycle(reader)]
#[tactic(auto, unfolding(c_grammar::specs::Reading::inner))]
pub fn nested_constant<'a>(
    alloc: Global,
    end: u32,
    depth: u32,
    scope: &mut Scope,
    tokens: &'a [Token],
) -> Result<(Expr, &'a [Token]), ReadError>
    ensures read { Gives (λ x. (view x.0, x.1.now)) result ((inner depth).expr 11 scope.old tokens.now) }
    ensures scope { IfOk result (λ x. scope.new ≡ after (view x.0) scope.old) }
{
    if depth == 0 {
        return Err(deep(tokens));
    }
    conditional(alloc, end, depth - 1, scope, tokens)
}

// An operand one nesting down.
#[cycle(reader)]
#[tactic(auto, unfolding(c_grammar::specs::Reading::inner, c_grammar::specs::Reading::level_at))]
fn nested_operand<'a>(
    alloc: Global,
    end: u32,
    depth: u32,
    scope: &mut Scope,
    tokens: &'a [Token],
) -> Result<(Expr, &'a [Token]), ReadError>
    ensures read { Gives (λ x. (view x.0, x.1.now)) result ((inner depth).expr 0 scope.old tokens.now) }
    ensures scope { IfOk result (λ x. scope.new ≡ after (view x.0) scope.old) }
{
    if depth == 0 {
        return Err(deep(tokens));
    }
    cast(alloc, end, depth - 1, scope, tokens)
}

// An expression and its `)`.
#[cycle(reader)]
#[tactic(auto, unfolding(c_grammar::specs::Reading::paren_at))]
fn parenthesized<'a>(
    alloc: Global,
    end: u32,
    depth: u32,
    at: u32,
    scope: &mut Scope,
    tokens: &'a [Token],
) -> Result<(Expr, &'a [Token]), ReadError>
    ensures read { Gives (λ x. (view x.0, x.1.now)) result (paren_at (inner depth) scope.old tokens.now) }
    ensures scope { IfOk result (λ x. scope.new ≡ after (view x.0) scope.old) }
{
    let (inner, rest) = nested_expression(alloc, end, depth, scope, tokens)?;
    let rest = closed(rest)?;
    Ok((made::parenthesized(alloc, inner, at)?, rest))
}

// String literals that stand side by side, behind the first.
fn text(alloc: Global, first: u32, at: u32, tokens: &[Token]) -> Result<(Expr, &[Token]), ReadError>
    ensures { Gives (λ x. (view x.0, x.1.now)) result (text_behind first tokens.now) }
{
    let (others, rest) = texts(alloc, tokens)?;
    Ok((
        Expr::Text {
            first,
            others: List::from_vec(others),
            at,
        },
        rest,
    ))
}

// A primary expression (ISO/IEC 9899:2011, 6.5.1).
#[cycle(reader)]
#[tactic(auto, unfolding(c_grammar::specs::Reading::primary_at))]
fn primary<'a>(
    alloc: Global,
    end: u32,
    depth: u32,
    scope: &mut Scope,
    tokens: &'a [Token],
) -> Result<(Expr, &'a [Token]), ReadError>
    ensures read { Gives (λ x. (view x.0, x.1.now)) result (primary_at (inner depth) scope.old tokens.now) }
    ensures scope { IfOk result (λ x. scope.new ≡ after (view x.0) scope.old) }
{
    let at = number(end, tokens);
    match tokens.split_first() {
        Some((Token::Name(name), rest)) => {
            if scope.is_type(*name) {
                return Err(broken(tokens));
            }
            Ok((Expr::Name { name: *name, at }, rest))
        }
        Some((Token::Number(value, kind), rest)) => {
            let (value, kind) = (*value, *kind);
            Ok((Expr::Constant { value, kind, at }, rest))
        }
        Some((Token::Byte(value), rest)) => Ok((Expr::Character { value: *value, at }, rest)),
        Some((Token::Text(first), rest)) => text(alloc, *first, at, rest),
        Some((Token::Open, rest)) => parenthesized(alloc, end, depth, at, scope, rest),
        _ => Err(broken(tokens)),
    }
}

// An index and its `]`.
#[cycle(reader)]
#[tactic(auto, unfolding(c_grammar::specs::Reading::index_at))]
fn index<'a>(
    alloc: Global,
    end: u32,
    depth: u32,
    at: u32,
    scope: &mut Scope,
    tokens: &'a [Token],
) -> Result<(Postfix, &'a [Token]), ReadError>
    ensures read { Gives (λ x. (view_postfix x.0, x.1.now)) result (index_at (inner depth) scope.old tokens.now) }
    ensures scope { IfOk result (λ x. scope.new ≡ after_post (view_postfix x.0) scope.old) }
{
    let (index, rest) = nested_expression(alloc, end, depth, scope, tokens)?;
    let rest = squared(rest)?;
    Ok((Postfix::Index { index, at }, rest))
}

// Expressions with commas between them, one at least, as the arguments of a call.
#[cycle(reader)]
fn expressions<'a>(
    alloc: Global,
    end: u32,
    depth: u32,
    scope: &mut Scope,
    tokens: &'a [Token],
) -> Result<(Vec<Expr>, &'a [Token]), ReadError>
    ensures read { Gives (λ x. (call_of (map view x.0.items), x.1.now)) result (called (level_at (inner depth) 13 scope.old tokens.now)) }
    ensures scope { IfOk result (λ x. scope.new ≡ after_post (call_of (map view x.0.items)) scope.old) }
{
    let (first, rest) = assignment(alloc, end, depth, scope, tokens)?;
    let (others, rest) = other_expressions(alloc, end, depth, scope, rest)?;
    Ok((in_front(first, others)?, rest))
}

// The arguments of a call one nesting down.
#[cycle(reader)]
#[tactic(auto, unfolding(c_grammar::specs::Reading::inner))]
fn nested_expressions<'a>(
    alloc: Global,
    end: u32,
    depth: u32,
    scope: &mut Scope,
    tokens: &'a [Token],
) -> Result<(Vec<Expr>, &'a [Token]), ReadError>
    ensures read { Gives (λ x. (call_of (map view x.0.items), x.1.now)) result (called ((inner depth).expr 13 scope.old tokens.now)) }
    ensures scope { IfOk result (λ x. scope.new ≡ after_post (call_of (map view x.0.items)) scope.old) }
{
    if depth == 0 {
        return Err(deep(tokens));
    }
    expressions(alloc, end, depth - 1, scope, tokens)
}

// The arguments of a call, one at least, and its `)`.
#[cycle(reader)]
fn arguments<'a>(
    alloc: Global,
    end: u32,
    depth: u32,
    at: u32,
    scope: &mut Scope,
    tokens: &'a [Token],
) -> Result<(Postfix, &'a [Token]), ReadError>
    ensures read { Gives (λ x. (view_postfix x.0, x.1.now)) result (arguments_at (inner depth) scope.old tokens.now) }
    ensures scope { IfOk result (λ x. scope.new ≡ after_post (view_postfix x.0) scope.old) }
{
    let (arguments, rest) = nested_expressions(alloc, end, depth, scope, tokens)?;
    let rest = closed(rest)?;
    let one = made::call(arguments, at);
    Ok((one, rest))
}

// What stands behind the `(` of a call (ISO/IEC 9899:2011, 6.5.2.2).
#[cycle(reader)]
#[tactic(auto, unfolding(c_grammar::specs::Reading::call_at))]
fn call<'a>(
    alloc: Global,
    end: u32,
    depth: u32,
    at: u32,
    scope: &mut Scope,
    tokens: &'a [Token],
) -> Result<(Postfix, &'a [Token]), ReadError>
    ensures read { Gives (λ x. (view_postfix x.0, x.1.now)) result (call_at (inner depth) scope.old tokens.now) }
    ensures scope { IfOk result (λ x. scope.new ≡ after_post (view_postfix x.0) scope.old) }
{
    match tokens {
        [Token::Close, rest @ ..] => {
            let arguments = List::from_vec(Vec::new(alloc));
            Ok((Postfix::Call { arguments, at }, rest))
        }
        _ => arguments(alloc, end, depth, at, scope, tokens),
    }
}

// A postfix operator (ISO/IEC 9899:2011, 6.5.2).
#[cycle(reader)]
#[tactic(auto, unfolding(c_grammar::specs::Reading::post_at))]
fn postfix_operator<'a>(
    alloc: Global,
    end: u32,
    depth: u32,
    scope: &mut Scope,
    tokens: &'a [Token],
) -> Result<(Postfix, &'a [Token]), ReadError>
    ensures read { Gives (λ x. (view_postfix x.0, x.1.now)) result (post_at (inner depth) scope.old tokens.now) }
    ensures scope { IfOk result (λ x. scope.new ≡ after_post (view_postfix x.0) scope.old) }
{
    let at = number(end, tokens);
    match tokens {
        [Token::SquareOpen, rest @ ..] => index(alloc, end, depth, at, scope, rest),
        [Token::Open, rest @ ..] => call(alloc, end, depth, at, scope, rest),
        [Token::Dot, Token::Name(name), rest @ ..] => {
            Ok((Postfix::Member { name: *name, at }, rest))
        }
        [Token::Arrow, Token::Name(name), rest @ ..] => {
            Ok((Postfix::Arrow { name: *name, at }, rest))
        }
        [Token::Increment, rest @ ..] => Ok((Postfix::Increment { at }, rest)),
        [Token::Decrement, rest @ ..] => Ok((Postfix::Decrement { at }, rest)),
        _ => Err(broken(tokens)),
    }
}

// The postfix operators behind a primary expression.
#[cycle(reader)]
fn postfix_operators<'a>(
    alloc: Global,
    end: u32,
    depth: u32,
    scope: &mut Scope,
    tokens: &'a [Token],
) -> Result<(Vec<Postfix>, &'a [Token]), ReadError>
    ensures read { Gives (λ x. (posts_of (map view_postfix x.0.items), x.1.now)) result (posts_at (inner depth) (length tokens.now) scope.old tokens.now) }
    ensures scope { IfOk result (λ x. scope.new ≡ after_posts (posts_of (map view_postfix x.0.items)) scope.old) }
{
    let mut operators = Vec::new(alloc);
    let mut rest = tokens;
    'posts: for _ in 0..tokens.len() {
        if !begins_postfix(rest) {
            return Ok((operators, rest));
        }
        let (operator, after) = postfix_operator(alloc, end, depth, scope, rest)?;
        operators.push(operator)?;
        rest = after;
    }
    Ok((operators, rest))
}

// A primary expression and the postfix operators behind it (ISO/IEC 9899:2011, 6.5.2).
#[cycle(reader)]
#[tactic(auto, unfolding(c_grammar::specs::Reading::postfix_at))]
fn postfix<'a>(
    alloc: Global,
    end: u32,
    depth: u32,
    scope: &mut Scope,
    tokens: &'a [Token],
) -> Result<(Expr, &'a [Token]), ReadError>
    ensures read { Gives (λ x. (view x.0, x.1.now)) result (postfix_at (inner depth) scope.old tokens.now) }
    ensures scope { IfOk result (λ x. scope.new ≡ after (view x.0) scope.old) }
{
    let at = number(end, tokens);
    let (operand, rest) = primary(alloc, end, depth, scope, tokens)?;
    let (operators, rest) = postfix_operators(alloc, end, depth, scope, rest)?;
    Ok((made::postfix(alloc, operand, operators, at)?, rest))
}

// The operand of an operator that stands before it (ISO/IEC 9899:2011, 6.5.3).
#[cycle(reader)]
#[tactic(auto, unfolding(c_grammar::specs::Reading::prefix_at))]
fn prefix<'a>(
    alloc: Global,
    end: u32,
    depth: u32,
    operator: PrefixOperator,
    at: u32,
    scope: &mut Scope,
    tokens: &'a [Token],
) -> Result<(Expr, &'a [Token]), ReadError>
    ensures read { Gives (λ x. (view x.0, x.1.now)) result (prefix_at (inner depth) operator scope.old tokens.now) }
    ensures scope { IfOk result (λ x. scope.new ≡ after (view x.0) scope.old) }
{
    let (operand, rest) = nested_operand(alloc, end, depth, scope, tokens)?;
    if !takes_operand(operator, &operand) {
        return Err(broken(tokens));
    }
    Ok((made::prefix(alloc, operator, operand, at)?, rest))
}

// A type, `)` and what is converted (ISO/IEC 9899:2011, 6.5.4).
#[cycle(reader)]
#[tactic(auto, unfolding(c_grammar::specs::Reading::conversion_at))]
fn conversion<'a>(
    alloc: Global,
    end: u32,
    depth: u32,
    at: u32,
    scope: &mut Scope,
    tokens: &'a [Token],
) -> Result<(Expr, &'a [Token]), ReadError>
    ensures read { Gives (λ x. (view x.0, x.1.now)) result (conversion_at (inner depth) scope.old tokens.now) }
    ensures scope { IfOk result (λ x. scope.new ≡ after (view x.0) scope.old) }
{
    let (kind, rest) = nested_typed(alloc, end, depth, Allowed::Abstract, scope, tokens)?;
    let rest = closed(rest)?;
    let (operand, rest) = nested_operand(alloc, end, depth, scope, rest)?;
    Ok((made::cast(alloc, kind, operand, at)?, rest))
}

// The operand of `sizeof`, which is a unary expression.
#[cycle(reader)]
#[tactic(auto, unfolding(c_grammar::specs::Reading::size_of_at))]
fn size_of_expression<'a>(
    alloc: Global,
    end: u32,
    depth: u32,
    at: u32,
    scope: &mut Scope,
    tokens: &'a [Token],
) -> Result<(Expr, &'a [Token]), ReadError>
    ensures read { Gives (λ x. (view x.0, x.1.now)) result (size_of_at (inner depth) scope.old tokens.now) }
    ensures scope { IfOk result (λ x. scope.new ≡ after (view x.0) scope.old) }
{
    let (operand, rest) = nested_operand(alloc, end, depth, scope, tokens)?;
    if !is_unary(&operand) {
        return Err(broken(tokens));
    }
    Ok((made::size_of_expression(alloc, operand, at)?, rest))
}

// The type in the parentheses of `sizeof`, and `)`.
#[cycle(reader)]
#[tactic(auto, unfolding(c_grammar::specs::Reading::type_size_at))]
fn size_of_type<'a>(
    alloc: Global,
    end: u32,
    depth: u32,
    at: u32,
    scope: &mut Scope,
    tokens: &'a [Token],
) -> Result<(Expr, &'a [Token]), ReadError>
    ensures read { Gives (λ x. (view x.0, x.1.now)) result (type_size_at (inner depth) scope.old tokens.now) }
    ensures scope { IfOk result (λ x. scope.new ≡ after (view x.0) scope.old) }
{
    let (kind, rest) = nested_typed(alloc, end, depth, Allowed::Abstract, scope, tokens)?;
    let rest = closed(rest)?;
    Ok((made::size_of_type(alloc, kind, at)?, rest))
}

// What stands behind `sizeof` (ISO/IEC 9899:2011, 6.5.3.4).
#[cycle(reader)]
#[tactic(auto, unfolding(c_grammar::specs::Reading::size_at))]
fn size<'a>(
    alloc: Global,
    end: u32,
    depth: u32,
    at: u32,
    scope: &mut Scope,
    tokens: &'a [Token],
) -> Result<(Expr, &'a [Token]), ReadError>
    ensures read { Gives (λ x. (view x.0, x.1.now)) result (size_at (inner depth) scope.old tokens.now) }
    ensures scope { IfOk result (λ x. scope.new ≡ after (view x.0) scope.old) }
{
    match tokens.split_first() {
        Some((Token::Open, rest)) => {
            if scope.starts_type(rest) {
                size_of_type(alloc, end, depth, at, scope, rest)
            } else {
                size_of_expression(alloc, end, depth, at, scope, tokens)
            }
        }
        _ => size_of_expression(alloc, end, depth, at, scope, tokens),
    }
}

// An operand of the operators between two operands (ISO/IEC 9899:2011, 6.5.4).
#[cycle(reader)]
#[tactic(auto, unfolding(c_grammar::specs::Reading::cast_at))]
pub fn cast<'a>(
    alloc: Global,
    end: u32,
    depth: u32,
    scope: &mut Scope,
    tokens: &'a [Token],
) -> Result<(Expr, &'a [Token]), ReadError>
    ensures read { Gives (λ x. (view x.0, x.1.now)) result (cast_at (inner depth) scope.old tokens.now) }
    ensures scope { IfOk result (λ x. scope.new ≡ after (view x.0) scope.old) }
{
    let at = number(end, tokens);
    match tokens.split_first() {
        Some((Token::Open, rest)) => {
            if scope.starts_type(rest) {
                conversion(alloc, end, depth, at, scope, rest)
            } else {
                postfix(alloc, end, depth, scope, tokens)
            }
        }
        Some((Token::Sizeof, rest)) => size(alloc, end, depth, at, scope, rest),
        _ => match prefix_at(tokens) {
            None => postfix(alloc, end, depth, scope, tokens),
            Some((operator, rest)) => prefix(alloc, end, depth, operator, at, scope, rest),
        },
    }
}
