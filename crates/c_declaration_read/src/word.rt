//! Single tokens that stand first.

ghost use Rattle.std.specs.Prelude.{◌≡◌};
ghost use Rattle.c_grammar.specs.Reading.{seen};
ghost use Rattle.c_unit_grammar.specs.Reading.{brace_at, ends_semi, equals_at, next_initial};

use c_grammar::Token;

/// What stands behind `{` where it stands first.
#[tactic(auto, unfolding(c_unit_grammar::specs::Reading::brace_at))]
pub fn brace_opened(tokens: &[Token]) -> Option<&[Token]>
    ensures { brace_at tokens.now ≡ seen (λ x. x.now) result }
{
    match tokens {
        [Token::BraceOpen, rest @ ..] => Some(rest),
        _ => None,
    }
}

/// What stands behind `;` where it stands first.
#[tactic(auto, unfolding(c_unit_grammar::specs::Reading::ends_semi))]
pub fn ends_declaration(tokens: &[Token]) -> Option<&[Token]>
    ensures { ends_semi tokens.now ≡ seen (λ x. x.now) result }
{
    match tokens {
        [Token::Semi, rest @ ..] => Some(rest),
        _ => None,
    }
}

/// What stands behind `=` where it stands first.
#[tactic(auto, unfolding(c_unit_grammar::specs::Reading::equals_at))]
pub fn equals_at(tokens: &[Token]) -> Option<&[Token]>
    ensures { equals_at tokens.now ≡ seen (λ x. x.now) result }
{
    match tokens {
        [Token::Equals, rest @ ..] => Some(rest),
        _ => None,
    }
}

/// What stands behind `,` where it stands first and no `}` behind it.
#[tactic(auto, unfolding(c_unit_grammar::specs::Reading::next_initial))]
pub fn next_initializer(tokens: &[Token]) -> Option<&[Token]>
    ensures { next_initial tokens.now ≡ seen (λ x. x.now) result }
{
    match tokens {
        [Token::Comma, rest @ ..] => match rest {
            [Token::BraceClose, ..] => None,
            _ => Some(rest),
        },
        _ => None,
    }
}
