//! The operators that tokens spell.

ghost use Rattle.std.specs.Prelude.{◌≡◌, ◌==◌, List, ◌∷◌};
ghost use Rattle.c_grammar.specs.declared.token.Token.{Token as Lexeme};
ghost use Rattle.c_tree.specs.Heights.{height_of, rank};
ghost use Rattle.c_grammar.specs.Grammar.{Expr as Operand, OfInfix, OfAssign, OfChoice, OfComma, is_base, is_unary, sort_of, takes_operand};
ghost use Rattle.c_grammar.specs.Reading.{seen, prefix_of, link_at};
ghost use Rattle.c_expression_read.specs.Gives.{infix_of, assign_of};
ghost use Rattle.c_expression_read.specs.Views.{view, view_specifier};

use c_grammar::Token;
use c_tree::{
    AssignOperator, BinaryOperator, Expr, Height, PrefixOperator, Specifier, SpecifierWord,
};

/// The operator before an operand that stands first, and what stands behind it (ISO/IEC 9899:2011, 6.5.3).
#[tactic(auto, unfolding(c_grammar::specs::Reading::prefix_of))]
pub fn prefix_at(tokens: &[Token]) -> Option<(PrefixOperator, &[Token])>
    ensures { prefix_of tokens.now ≡ seen (λ x. (x.0, x.1.now)) result }
{
    match tokens {
        [Token::Increment, rest @ ..] => Some((PrefixOperator::Increment, rest)),
        [Token::Decrement, rest @ ..] => Some((PrefixOperator::Decrement, rest)),
        [Token::Ampersand, rest @ ..] => Some((PrefixOperator::Address, rest)),
        [Token::Star, rest @ ..] => Some((PrefixOperator::Dereference, rest)),
        [Token::Plus, rest @ ..] => Some((PrefixOperator::Plus, rest)),
        [Token::Minus, rest @ ..] => Some((PrefixOperator::Minus, rest)),
        [Token::Tilde, rest @ ..] => Some((PrefixOperator::Complement, rest)),
        [Token::Exclamation, rest @ ..] => Some((PrefixOperator::Not, rest)),
        _ => None,
    }
}

/// The operator between two operands that a token is (ISO/IEC 9899:2011, 6.5.5 to 6.5.14).
fn binary_of(token: Token) -> Option<BinaryOperator>
    ensures { result ≡ infix_of (sort_of token) }
{
    match token {
        Token::Star => Some(BinaryOperator::Times),
        Token::Slash => Some(BinaryOperator::Over),
        Token::Percent => Some(BinaryOperator::Remainder),
        Token::Plus => Some(BinaryOperator::Plus),
        Token::Minus => Some(BinaryOperator::Minus),
        Token::ShiftLeft => Some(BinaryOperator::ShiftLeft),
        Token::ShiftRight => Some(BinaryOperator::ShiftRight),
        Token::Less => Some(BinaryOperator::Less),
        Token::Greater => Some(BinaryOperator::Greater),
        Token::LessEqual => Some(BinaryOperator::LessEqual),
        Token::GreaterEqual => Some(BinaryOperator::GreaterEqual),
        Token::Equal => Some(BinaryOperator::Equal),
        Token::NotEqual => Some(BinaryOperator::NotEqual),
        Token::Ampersand => Some(BinaryOperator::BitAnd),
        Token::Caret => Some(BinaryOperator::BitXor),
        Token::Bar => Some(BinaryOperator::BitOr),
        Token::AndAnd => Some(BinaryOperator::And),
        Token::OrOr => Some(BinaryOperator::Or),
        _ => None,
    }
}

/// The operator of an assignment that a token is (ISO/IEC 9899:2011, 6.5.16).
fn assign_of(token: Token) -> Option<AssignOperator>
    ensures { result ≡ assign_of (sort_of token) }
{
    match token {
        Token::Equals => Some(AssignOperator::Set),
        Token::StarEquals => Some(AssignOperator::Times),
        Token::SlashEquals => Some(AssignOperator::Over),
        Token::PercentEquals => Some(AssignOperator::Remainder),
        Token::PlusEquals => Some(AssignOperator::Plus),
        Token::MinusEquals => Some(AssignOperator::Minus),
        Token::ShiftLeftEquals => Some(AssignOperator::ShiftLeft),
        Token::ShiftRightEquals => Some(AssignOperator::ShiftRight),
        Token::AmpersandEquals => Some(AssignOperator::BitAnd),
        Token::CaretEquals => Some(AssignOperator::BitXor),
        Token::BarEquals => Some(AssignOperator::BitOr),
        _ => None,
    }
}

// How many productions of binary operators bind tighter (ISO/IEC 9899:2011, 6.5.5 to 6.5.14).
fn rank(height: Height) -> u8
    ensures { result ≡ rank height }
{
    match height {
        Height::Multiplicative => 0,
        Height::Additive => 1,
        Height::Shift => 2,
        Height::Relational => 3,
        Height::Equality => 4,
        Height::BitAnd => 5,
        Height::BitXor => 6,
        Height::BitOr => 7,
        Height::And => 8,
        Height::Or => 9,
    }
}

// Whether the operator binds as tight as those of this height.
fn is_of_height(operator: BinaryOperator, height: Height) -> bool
    ensures { result ≡ (rank (height_of operator) == rank height) }
{
    rank(operator.height()) == rank(height)
}

// The operator of this height that a token is.
fn binary_of_height(height: Height, token: Token) -> Option<BinaryOperator>
    ensures { (left : Operand) (rest : List Lexeme) → link_at (rank height) left (token ∷ rest) ≡ seen (λ o. (OfInfix o, rest)) result }
{
    match binary_of(token) {
        None => None,
        Some(operator) => {
            if is_of_height(operator, height) {
                Some(operator)
            } else {
                None
            }
        }
    }
}

/// The operator of this height that stands first, and what stands behind it.
#[tactic(auto, unfolding(c_grammar::specs::Reading::link_at))]
pub fn binary_at(height: Height, tokens: &[Token]) -> Option<(BinaryOperator, &[Token])>
    ensures { (left : Operand) → link_at (rank height) left tokens.now ≡ seen (λ x. (OfInfix x.0, x.1.now)) result }
{
    match tokens {
        [] => None,
        [first, rest @ ..] => match binary_of_height(height, *first) {
            Some(operator) => Some((operator, rest)),
            None => None,
        },
    }
}

/// Whether an expression is a unary one (ISO/IEC 9899:2011, 6.5.3).
pub fn is_unary(expression: &Expr) -> bool
    ensures { result ≡ is_unary (view expression.now) }
{
    !matches!(
        expression,
        Expr::Cast { .. }
            | Expr::Chain { .. }
            | Expr::Conditional { .. }
            | Expr::Assignment { .. }
            | Expr::Comma { .. }
    )
}

/// Whether the operator may stand before this operand: what is stepped is a unary expression (ISO/IEC 9899:2011, 6.5.3.1).
pub fn takes_operand(operator: PrefixOperator, operand: &Expr) -> bool
    ensures { result ≡ takes_operand operator (view operand.now) }
{
    match operator {
        PrefixOperator::Increment | PrefixOperator::Decrement => is_unary(operand),
        PrefixOperator::Address
        | PrefixOperator::Dereference
        | PrefixOperator::Plus
        | PrefixOperator::Minus
        | PrefixOperator::Complement
        | PrefixOperator::Not => true,
    }
}

// The operator of an assignment to this place that a token is.
fn assignment_to(place: &Expr, token: Token) -> Option<AssignOperator>
    ensures { (rest : List Lexeme) → link_at 11 (view place.now) (token ∷ rest) ≡ seen (λ o. (OfAssign o, rest)) result }
{
    match assign_of(token) {
        None => None,
        Some(operator) => {
            if is_unary(place) {
                Some(operator)
            } else {
                None
            }
        }
    }
}

/// The operator of an assignment to this place that stands first, and what stands behind it: what is assigned to is a unary expression.
#[tactic(auto, unfolding(c_grammar::specs::Reading::link_at))]
pub fn assignment_at<'a>(place: &Expr, tokens: &'a [Token]) -> Option<(AssignOperator, &'a [Token])>
    ensures { link_at 11 (view place.now) tokens.now ≡ seen (λ x. (OfAssign x.0, x.1.now)) result }
{
    match tokens {
        [] => None,
        [first, rest @ ..] => match assignment_to(place, *first) {
            Some(operator) => Some((operator, rest)),
            None => None,
        },
    }
}

/// What stands behind `?` where it stands first.
#[tactic(auto, unfolding(c_grammar::specs::Reading::link_at, c_grammar::specs::Reading::picked))]
pub fn question_at(tokens: &[Token]) -> Option<&[Token]>
    ensures { (left : Operand) → link_at 10 left tokens.now ≡ seen (λ x. (OfChoice, x.now)) result }
{
    match tokens {
        [Token::Question, rest @ ..] => Some(rest),
        _ => None,
    }
}

/// What stands behind `,` between two expressions.
#[tactic(auto, unfolding(c_grammar::specs::Reading::link_at, c_grammar::specs::Reading::picked))]
pub fn comma_joint(tokens: &[Token]) -> Option<&[Token]>
    ensures { (left : Operand) → link_at 12 left tokens.now ≡ seen (λ x. (OfComma, x.now)) result }
{
    match tokens {
        [Token::Comma, rest @ ..] => Some(rest),
        _ => None,
    }
}

/// Whether a specifier tells the type, and is no storage class or qualifier (ISO/IEC 9899:2011, 6.7.2).
pub fn is_base(specifier: &Specifier) -> bool
    ensures { result ≡ is_base (view_specifier specifier.now) }
{
    !matches!(
        specifier,
        Specifier::Word {
            word: SpecifierWord::Typedef
                | SpecifierWord::Extern
                | SpecifierWord::Static
                | SpecifierWord::Const,
            ..
        }
    )
}
