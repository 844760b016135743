//! Operands with operators between them.

ghost use Rattle.std.specs.Prelude.{◌≡◌, IfOk, length, map, suc};
ghost use Rattle.c_tree.specs.Heights.{rank};
ghost use Rattle.c_grammar.specs.Grammar.{Name, Choose, after, after_links};
ghost use Rattle.c_grammar.specs.Reading.{Gives, inner, choice_at, links_at, level_at};
ghost use Rattle.c_expression_read.specs.Views.{view, view_link, view_choice, view_target, links_of, commas_of, first_of, shifted};

use crate::made;
use crate::operand::{cast, nested_expression};
use crate::operator::{assignment_at, binary_at, comma_joint, question_at};
use crate::word::{colon, number};
use c_grammar::{ReadError, Token};
use c_scope::Scope;
use c_tree::{Choice, Expr, Height, Link, Target};
use std::alloc::Global;

// An operand of the operators of this height.
#[cycle(reader)]
#[tactic(auto, unfolding(c_grammar::specs::Reading::level_at))]
fn operand<'a>(
    alloc: Global,
    end: u32,
    depth: u32,
    height: Height,
    scope: &mut Scope,
    tokens: &'a [Token],
) -> Result<(Expr, &'a [Token]), ReadError>
    ensures read { Gives (λ x. (view x.0, x.1.now)) result (level_at (inner depth) (rank height) scope.old tokens.now) }
    ensures scope { IfOk result (λ x. scope.new ≡ after (view x.0) scope.old) }
{
    match height.tighter() {
        None => cast(alloc, end, depth, scope, tokens),
        Some(tighter) => binary(alloc, end, depth, tighter, scope, tokens),
    }
}

// The operators of this height with their right operands.
#[cycle(reader)]
fn links<'a>(
    alloc: Global,
    end: u32,
    depth: u32,
    height: Height,
    scope: &mut Scope,
    tokens: &'a [Token],
) -> Result<(Vec<Link>, &'a [Token]), ReadError>
    ensures read { Gives (λ x. (links_of (map view_link x.0.items), x.1.now)) result (links_at (inner depth) (level_at (inner depth) (rank height)) (rank height) (length tokens.now) (Name 0) scope.old tokens.now) }
    ensures scope { IfOk result (λ x. scope.new ≡ after_links (links_of (map view_link x.0.items)) scope.old) }
{
    let mut links = Vec::new(alloc);
    let mut rest = tokens;
    'links: for _ in 0..tokens.len() {
        match binary_at(height, rest) {
            None => return Ok((links, rest)),
            Some((operator, behind)) => {
                let at = number(end, rest);
                let (right, after) = operand(alloc, end, depth, height, scope, behind)?;
                let one = made::link(operator, right, at);
                links.push(one)?;
                rest = after;
            }
        }
    }
    Ok((links, rest))
}

/// Operands with binary operators between them, which bind as tight as this or tighter (ISO/IEC 9899:2011, 6.5.5 to 6.5.14).
#[cycle(reader)]
pub fn binary<'a>(
    alloc: Global,
    end: u32,
    depth: u32,
    height: Height,
    scope: &mut Scope,
    tokens: &'a [Token],
) -> Result<(Expr, &'a [Token]), ReadError>
    ensures read { Gives (λ x. (view x.0, x.1.now)) result (level_at (inner depth) (suc (rank height)) scope.old tokens.now) }
    ensures scope { IfOk result (λ x. scope.new ≡ after (view x.0) scope.old) }
{
    let at = number(end, tokens);
    let (first, rest) = operand(alloc, end, depth, height, scope, tokens)?;
    let (links, rest) = links(alloc, end, depth, height, scope, rest)?;
    Ok((made::chain(alloc, height, first, links, at)?, rest))
}

// The value between `?` and `:`, and `:`.
#[cycle(reader)]
#[tactic(auto, unfolding(c_grammar::specs::Reading::choice_at))]
fn chosen_value<'a>(
    alloc: Global,
    end: u32,
    depth: u32,
    scope: &mut Scope,
    tokens: &'a [Token],
) -> Result<(Expr, &'a [Token]), ReadError>
    ensures read { Gives (λ x. (Choose (view x.0), x.1.now)) result (choice_at (inner depth) scope.old tokens.now) }
    ensures scope { IfOk result (λ x. scope.new ≡ after (view x.0) scope.old) }
{
    let (value, rest) = nested_expression(alloc, end, depth, scope, tokens)?;
    let rest = colon(rest)?;
    Ok((value, rest))
}

// What is chosen between behind a test, and the last operand.
#[cycle(reader)]
fn choices<'a>(
    alloc: Global,
    end: u32,
    depth: u32,
    first: Expr,
    first_at: u32,
    scope: &mut Scope,
    tokens: &'a [Token],
) -> Result<(Vec<Choice>, Expr, &'a [Token]), ReadError>
    ensures read { Gives (λ x. (links_of (shifted (map view_choice x.0.items) (view x.1)), x.2.now)) result (links_at (inner depth) (level_at (inner depth) 10) 10 (length tokens.now) (Name 0) scope.old tokens.now) }
    ensures first { IfOk result (λ x. first_of (map view_choice x.0.items) (view x.1) ≡ view first) }
    ensures scope { IfOk result (λ x. scope.new ≡ after_links (links_of (shifted (map view_choice x.0.items) (view x.1))) scope.old) }
{
    let mut choices = Vec::new(alloc);
    let mut last = first;
    let mut at = first_at;
    let mut rest = tokens;
    'choices: for _ in 0..tokens.len() {
        match question_at(rest) {
            None => return Ok((choices, last, rest)),
            Some(behind) => {
                let (value, after) = chosen_value(alloc, end, depth, scope, behind)?;
                let next_at = number(end, after);
                let (next, after) = binary(alloc, end, depth, Height::Or, scope, after)?;
                let one = made::choice(last, value, at);
                choices.push(one)?;
                last = next;
                at = next_at;
                rest = after;
            }
        }
    }
    Ok((choices, last, rest))
}

/// A conditional expression (ISO/IEC 9899:2011, 6.5.15).
#[cycle(reader)]
pub fn conditional<'a>(
    alloc: Global,
    end: u32,
    depth: u32,
    scope: &mut Scope,
    tokens: &'a [Token],
) -> Result<(Expr, &'a [Token]), ReadError>
    ensures read { Gives (λ x. (view x.0, x.1.now)) result (level_at (inner depth) 11 scope.old tokens.now) }
    ensures scope { IfOk result (λ x. scope.new ≡ after (view x.0) scope.old) }
{
    let at = number(end, tokens);
    let (first, rest) = binary(alloc, end, depth, Height::Or, scope, tokens)?;
    let (choices, last, rest) = choices(alloc, end, depth, first, at, scope, rest)?;
    Ok((made::conditional(alloc, choices, last, at)?, rest))
}

// What is assigned to behind an operand that may be, and the last operand.
#[cycle(reader)]
fn targets<'a>(
    alloc: Global,
    end: u32,
    depth: u32,
    first: Expr,
    first_at: u32,
    scope: &mut Scope,
    tokens: &'a [Token],
) -> Result<(Vec<Target>, Expr, &'a [Token]), ReadError>
    ensures read { Gives (λ x. (links_of (shifted (map view_target x.0.items) (view x.1)), x.2.now)) result (links_at (inner depth) (level_at (inner depth) 11) 11 (length tokens.now) (view first) scope.old tokens.now) }
    ensures first { IfOk result (λ x. first_of (map view_target x.0.items) (view x.1) ≡ view first) }
    ensures scope { IfOk result (λ x. scope.new ≡ after_links (links_of (shifted (map view_target x.0.items) (view x.1))) scope.old) }
{
    let mut targets = Vec::new(alloc);
    let mut last = first;
    let mut at = first_at;
    let mut rest = tokens;
    'targets: for _ in 0..tokens.len() {
        match assignment_at(&last, rest) {
            None => return Ok((targets, last, rest)),
            Some((operator, behind)) => {
                let next_at = number(end, behind);
                let (next, after) = conditional(alloc, end, depth, scope, behind)?;
                let one = made::target(last, operator, at);
                targets.push(one)?;
                last = next;
                at = next_at;
                rest = after;
            }
        }
    }
    Ok((targets, last, rest))
}

/// An assignment expression (ISO/IEC 9899:2011, 6.5.16).
#[cycle(reader)]
pub fn assignment<'a>(
    alloc: Global,
    end: u32,
    depth: u32,
    scope: &mut Scope,
    tokens: &'a [Token],
) -> Result<(Expr, &'a [Token]), ReadError>
    ensures read { Gives (λ x. (view x.0, x.1.now)) result (level_at (inner depth) 12 scope.old tokens.now) }
    ensures scope { IfOk result (λ x. scope.new ≡ after (view x.0) scope.old) }
{
    let at = number(end, tokens);
    let (first, rest) = conditional(alloc, end, depth, scope, tokens)?;
    let (targets, last, rest) = targets(alloc, end, depth, first, at, scope, rest)?;
    Ok((made::assignment(alloc, targets, last, at)?, rest))
}

/// The expressions behind the commas behind a first one.
#[cycle(reader)]
pub fn other_expressions<'a>(
    alloc: Global,
    end: u32,
    depth: u32,
    scope: &mut Scope,
    tokens: &'a [Token],
) -> Result<(Vec<Expr>, &'a [Token]), ReadError>
    ensures read { Gives (λ x. (commas_of (map view x.0.items), x.1.now)) result (links_at (inner depth) (level_at (inner depth) 12) 12 (length tokens.now) (Name 0) scope.old tokens.now) }
    ensures scope { IfOk result (λ x. scope.new ≡ after_links (commas_of (map view x.0.items)) scope.old) }
{
    let mut others = Vec::new(alloc);
    let mut rest = tokens;
    'commas: for _ in 0..tokens.len() {
        match comma_joint(rest) {
            None => return Ok((others, rest)),
            Some(behind) => {
                let (one, after) = assignment(alloc, end, depth, scope, behind)?;
                others.push(one)?;
                rest = after;
            }
        }
    }
    Ok((others, rest))
}

/// An expression (ISO/IEC 9899:2011, 6.5.17).
#[cycle(reader)]
pub fn expression<'a>(
    alloc: Global,
    end: u32,
    depth: u32,
    scope: &mut Scope,
    tokens: &'a [Token],
) -> Result<(Expr, &'a [Token]), ReadError>
    ensures read { Gives (λ x. (view x.0, x.1.now)) result (level_at (inner depth) 13 scope.old tokens.now) }
    ensures scope { IfOk result (λ x. scope.new ≡ after (view x.0) scope.old) }
{
    let at = number(end, tokens);
    let (first, rest) = assignment(alloc, end, depth, scope, tokens)?;
    let (others, rest) = other_expressions(alloc, end, depth, scope, rest)?;
    Ok((made::commas(alloc, first, others, at)?, rest))
}
