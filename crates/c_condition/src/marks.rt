//! What punctuators do in controlling expressions.

ghost use Rattle.std.specs.Prelude.{◌≡◌};
ghost use Rattle.c_condition.specs.Grammar.{binary_height};
ghost use Rattle.c_condition.specs.Reading.{seen, opening_of, joint_of, joint_at, infix_at, behind};

use crate::outcome::UnaryOperator;
use crate::token::Token;
use c_token::Mark;
use c_tree::{BinaryOperator, Height};

/// What a punctuator begins where an operand stands.
#[derive(Clone, Copy, PartialEq, Eq, Debug)]
pub enum Opening {
    Parenthesis,
    Sign(UnaryOperator),
    Nothing,
}

/// What a punctuator is behind an operand.
#[derive(Clone, Copy, PartialEq, Eq)]
pub enum Joint {
    Infix(BinaryOperator),
    Question,
    Colon,
    Comma,
    Close,
    Nothing,
}

/// What a punctuator begins where an operand stands.
pub fn opening_of(mark: Mark) -> Opening
    ensures { result ≡ opening_of mark }
{
    match mark {
        Mark::Open => Opening::Parenthesis,
        Mark::Plus => Opening::Sign(UnaryOperator::Plus),
        Mark::Minus => Opening::Sign(UnaryOperator::Minus),
        Mark::Tilde => Opening::Sign(UnaryOperator::Complement),
        Mark::Exclamation => Opening::Sign(UnaryOperator::Not),
        _ => Opening::Nothing,
    }
}

fn joint_of(mark: Mark) -> Joint
    ensures { result ≡ joint_of mark }
{
    match mark {
        Mark::Star => Joint::Infix(BinaryOperator::Times),
        Mark::Slash => Joint::Infix(BinaryOperator::Over),
        Mark::Percent => Joint::Infix(BinaryOperator::Remainder),
        Mark::Plus => Joint::Infix(BinaryOperator::Plus),
        Mark::Minus => Joint::Infix(BinaryOperator::Minus),
        Mark::ShiftLeft => Joint::Infix(BinaryOperator::ShiftLeft),
        Mark::ShiftRight => Joint::Infix(BinaryOperator::ShiftRight),
        Mark::Less => Joint::Infix(BinaryOperator::Less),
        Mark::Greater => Joint::Infix(BinaryOperator::Greater),
        Mark::LessEqual => Joint::Infix(BinaryOperator::LessEqual),
        Mark::GreaterEqual => Joint::Infix(BinaryOperator::GreaterEqual),
        Mark::Equal => Joint::Infix(BinaryOperator::Equal),
        Mark::NotEqual => Joint::Infix(BinaryOperator::NotEqual),
        Mark::Ampersand => Joint::Infix(BinaryOperator::BitAnd),
        Mark::Caret => Joint::Infix(BinaryOperator::BitXor),
        Mark::Bar => Joint::Infix(BinaryOperator::BitOr),
        Mark::AndAnd => Joint::Infix(BinaryOperator::And),
        Mark::OrOr => Joint::Infix(BinaryOperator::Or),
        Mark::Question => Joint::Question,
        Mark::Colon => Joint::Colon,
        Mark::Comma => Joint::Comma,
        Mark::Close => Joint::Close,
        _ => Joint::Nothing,
    }
}

// The production that an operator belongs to, from 1, the multiplicative ones, to 10, `||`.
fn height_of(operator: BinaryOperator) -> u32
    ensures { result ≡ binary_height operator }
{
    match operator.height() {
        Height::Multiplicative => 1,
        Height::Additive => 2,
        Height::Shift => 3,
        Height::Relational => 4,
        Height::Equality => 5,
        Height::BitAnd => 6,
        Height::BitXor => 7,
        Height::BitOr => 8,
        Height::And => 9,
        Height::Or => 10,
    }
}

// What stands first, and what follows it.
#[tactic(auto, unfolding(crate::specs::Reading::joint_at))]
fn joint_at(tokens: &[Token]) -> (Joint, &[Token])
    ensures { (result.0, result.1.now) ≡ joint_at tokens.now }
{
    match tokens.split_first() {
        None => (Joint::Nothing, tokens),
        Some((first, rest)) => match *first {
            Token::Mark(mark) => (joint_of(mark), rest),
            _ => (Joint::Nothing, rest),
        },
    }
}

/// The operator of this height that stands first, and what follows it.
#[tactic(auto, unfolding(crate::specs::Reading::infix_at))]
pub fn infix_at(height: u32, tokens: &[Token]) -> Option<(BinaryOperator, &[Token])>
    ensures { seen (λ x. (x.0, x.1.now)) result ≡ infix_at height tokens.now }
{
    let (joint, rest) = joint_at(tokens);
    match joint {
        Joint::Infix(operator) => {
            if height_of(operator) == height {
                Some((operator, rest))
            } else {
                None
            }
        }
        _ => None,
    }
}

/// What follows `?`, if it stands first.
#[tactic(auto, unfolding(crate::specs::Reading::behind))]
pub fn question_at(tokens: &[Token]) -> Option<&[Token]>
    ensures { seen (λ x. x.now) result ≡ behind Joint.Question tokens.now }
{
    let (joint, rest) = joint_at(tokens);
    match joint {
        Joint::Question => Some(rest),
        _ => None,
    }
}

/// What follows `:`, if it stands first.
#[tactic(auto, unfolding(crate::specs::Reading::behind))]
pub fn colon_at(tokens: &[Token]) -> Option<&[Token]>
    ensures { seen (λ x. x.now) result ≡ behind Joint.Colon tokens.now }
{
    let (joint, rest) = joint_at(tokens);
    match joint {
        Joint::Colon => Some(rest),
        _ => None,
    }
}

/// What follows `,`, if it stands first.
#[tactic(auto, unfolding(crate::specs::Reading::behind))]
pub fn comma_at(tokens: &[Token]) -> Option<&[Token]>
    ensures { seen (λ x. x.now) result ≡ behind Joint.Comma tokens.now }
{
    let (joint, rest) = joint_at(tokens);
    match joint {
        Joint::Comma => Some(rest),
        _ => None,
    }
}

/// What follows `)`, if it stands first.
#[tactic(auto, unfolding(crate::specs::Reading::behind))]
pub fn closed_at(tokens: &[Token]) -> Option<&[Token]>
    ensures { seen (λ x. x.now) result ≡ behind Joint.Close tokens.now }
{
    let (joint, rest) = joint_at(tokens);
    match joint {
        Joint::Close => Some(rest),
        _ => None,
    }
}
