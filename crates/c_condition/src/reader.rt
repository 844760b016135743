//! Controlling expressions, read and evaluated from left to right.
//!
//! Each function gives the outcome of what it has read and the tokens behind it, and None where the tokens are none of its form.

ghost use Rattle.std.specs.Prelude.{◌≡◌, ◌≤◌, length};
ghost use Rattle.c_condition.specs.Reading.{seen, values, inner, nested_at, operand_at, level_at, conditional_at, whole_at, constant_at};

use crate::arithmetic::unary;
use crate::choice::Choice;
use crate::marks::{Opening, closed_at, colon_at, comma_at, infix_at, opening_of, question_at};
use crate::operators::{binary, comma};
use crate::outcome::Outcome;
use crate::token::Token;

// The most nestings of an expression.
const NESTING_LIMIT: u32 = 64;

// A whole expression with one nesting less.
#[cycle(expression)]
fn nested_whole(nestings: u32, tokens: &[Token]) -> Option<(Outcome, &[Token])>
    ensures { seen (λ x. (x.0, x.1.now)) result ≡ (inner values nestings).whole tokens.now }
{
    if nestings == 0 {
        None
    } else {
        whole_at(nestings - 1, tokens)
    }
}

// An operand with one nesting less.
#[cycle(expression)]
fn nested_operand(nestings: u32, tokens: &[Token]) -> Option<(Outcome, &[Token])>
    ensures { seen (λ x. (x.0, x.1.now)) result ≡ (inner values nestings).operand tokens.now }
{
    if nestings == 0 {
        None
    } else {
        operand_at(nestings - 1, tokens)
    }
}

// What a punctuator begins, behind it.
#[cycle(expression)]
#[tactic(auto, unfolding(crate::specs::Reading::nested_at))]
fn nested_at(nestings: u32, opening: Opening, tokens: &[Token]) -> Option<(Outcome, &[Token])>
    ensures { seen (λ x. (x.0, x.1.now)) result ≡ nested_at values (inner values nestings) opening tokens.now }
{
    match opening {
        Opening::Parenthesis => match nested_whole(nestings, tokens) {
            None => None,
            Some((outcome, behind)) => match closed_at(behind) {
                None => None,
                Some(rest) => Some((outcome, rest)),
            },
        },
        Opening::Sign(operator) => match nested_operand(nestings, tokens) {
            None => None,
            Some((outcome, rest)) => Some((unary(operator, outcome), rest)),
        },
        Opening::Nothing => None,
    }
}

// An operand of the operators between two operands (ISO/IEC 9899:2011, 6.5.3).
#[cycle(expression)]
#[tactic(auto, unfolding(crate::specs::Reading::operand_at))]
fn operand_at(nestings: u32, tokens: &[Token]) -> Option<(Outcome, &[Token])>
    ensures { seen (λ x. (x.0, x.1.now)) result ≡ operand_at values (inner values nestings) tokens.now }
{
    match tokens.split_first() {
        None => None,
        Some((first, rest)) => match *first {
            Token::Number(number) => Some((Outcome::of(number), rest)),
            Token::Name => Some((Outcome::Signed(0), rest)),
            Token::Mark(mark) => nested_at(nestings, opening_of(mark), rest),
            Token::Other => None,
        },
    }
}

// An expression of at most this height (6.5.5 to 6.5.14).
#[cycle(expression)]
fn level_at(nestings: u32, height: u32, tokens: &[Token]) -> Option<(Outcome, &[Token])>
    requires { height ≤ 10 }
    ensures { seen (λ x. (x.0, x.1.now)) result ≡ level_at values (inner values nestings) height tokens.now }
{
    if height == 0 {
        return operand_at(nestings, tokens);
    }
    let (mut left, mut rest) = match level_at(nestings, height - 1, tokens) {
        None => return None,
        Some(found) => found,
    };
    'operators: while let Some((operator, behind)) = infix_at(height, rest) {
        match level_at(nestings, height - 1, behind) {
            None => return None,
            Some((right, tail)) => {
                left = binary(operator, left, right);
                rest = tail;
            }
        }
    }
    Some((left, rest))
}

// A conditional expression (6.5.15).
#[cycle(expression)]
fn conditional_at(nestings: u32, tokens: &[Token]) -> Option<(Outcome, &[Token])>
    ensures { seen (λ x. (x.0, x.1.now)) result ≡ conditional_at values (inner values nestings) (length tokens.now) tokens.now }
{
    let mut choice = Choice::new();
    let mut rest = tokens;
    'conditions: loop {
        let (first, behind) = match level_at(nestings, 10, rest) {
            None => return None,
            Some(found) => found,
        };
        let middle = match question_at(behind) {
            None => return Some((choice.settled(first), behind)),
            Some(middle) => middle,
        };
        let (second, after) = match nested_whole(nestings, middle) {
            None => return None,
            Some(found) => found,
        };
        rest = match colon_at(after) {
            None => return None,
            Some(last) => last,
        };
        choice = choice.after(first, second);
    }
}

// A whole expression (6.5.17).
#[cycle(expression)]
fn whole_at(nestings: u32, tokens: &[Token]) -> Option<(Outcome, &[Token])>
    ensures { seen (λ x. (x.0, x.1.now)) result ≡ whole_at values (inner values nestings) tokens.now }
{
    let (mut left, mut rest) = match conditional_at(nestings, tokens) {
        None => return None,
        Some(found) => found,
    };
    'commas: while let Some(next) = comma_at(rest) {
        match conditional_at(nestings, next) {
            None => return None,
            Some((right, tail)) => {
                left = comma(left, right);
                rest = tail;
            }
        }
    }
    Some((left, rest))
}

/// What the tokens come to as a constant expression with nothing behind it (6.6), with at most 64 nestings.
#[tactic(auto, unfolding(crate::specs::Reading::constant_at))]
pub fn constant_at(tokens: &[Token]) -> Option<Outcome>
    ensures { result ≡ constant_at values tokens.now }
{
    match conditional_at(NESTING_LIMIT, tokens) {
        None => None,
        Some((outcome, rest)) => { if rest.is_empty() { Some(outcome) } else { None } }
    }
}
