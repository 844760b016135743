//! Single tokens that stand first.

ghost use Rattle.std.specs.Prelude.{◌≡◌};
ghost use Rattle.c_grammar.specs.Reading.{Gives, seen};
ghost use Rattle.c_unit_grammar.specs.Reading.{else_at, ends_parens, while_word};

use c_expression_read::broken;
use c_grammar::{ReadError, Token};

/// What stands behind `else` where it stands first.
#[tactic(auto, unfolding(c_unit_grammar::specs::Reading::else_at))]
pub fn else_at(tokens: &[Token]) -> Option<&[Token]>
    ensures { else_at tokens.now ≡ seen (λ x. x.now) result }
{
    match tokens {
        [Token::Else, rest @ ..] => Some(rest),
        _ => None,
    }
}

/// What stands behind `)` where it stands first.
#[tactic(auto, unfolding(c_unit_grammar::specs::Reading::ends_parens))]
pub fn ends_parentheses(tokens: &[Token]) -> Option<&[Token]>
    ensures { ends_parens tokens.now ≡ seen (λ x. x.now) result }
{
    match tokens {
        [Token::Close, rest @ ..] => Some(rest),
        _ => None,
    }
}

/// What stands behind `while`.
#[tactic(auto, unfolding(c_unit_grammar::specs::Reading::while_word))]
pub fn while_word(tokens: &[Token]) -> Result<&[Token], ReadError>
    ensures { Gives (λ x. x.now) result (while_word tokens.now) }
{
    match tokens {
        [Token::While, rest @ ..] => Ok(rest),
        _ => Err(broken(tokens)),
    }
}
