//! Single tokens that stand first.

ghost use Rattle.std.specs.Prelude.{◌≡◌, ◌<◌, ◌≤◌, codes};
ghost use Rattle.f_grammar.specs.Grammar.{height_of, sign_height};
ghost use Rattle.f_grammar.specs.Reading.{open_at, closed_at, comma_at, percent_at, colon_at, colons_at, star_at, name_at, end_at, key_at, word_at, sign_at, link_at, begins_colon, ends_bound, closing, behind_group, is_colons, begins_typed};
ghost use Rattle.f_expr_read.specs.Gives.{seen};
ghost use Rattle.f_expr_read.specs.Views.{tokens_of, mark_of};

use f_lex::{Mark, Spanned, Token};
use f_tree::Sign;
use jf_base::{List, Place};

/// The place of `(` where it stands first, and what stands behind it.
#[tactic(auto, unfolding(f_grammar::specs::Reading::open_at))]
pub fn open_at(tokens: &[Spanned]) -> Option<(Place, &[Spanned])>
    ensures { open_at (tokens_of tokens.now) ≡ seen (λ x. tokens_of x.1.now) result }
{
    match tokens {
        [
            Spanned {
                token: Token::Mark(Mark::Open),
                place,
                ..
            },
            rest @ ..,
        ] => Some((*place, rest)),
        _ => None,
    }
}

/// The place of `)` where it stands first, and what stands behind it.
#[tactic(auto, unfolding(f_grammar::specs::Reading::closed_at))]
pub fn closed_at(tokens: &[Spanned]) -> Option<(Place, &[Spanned])>
    ensures { closed_at (tokens_of tokens.now) ≡ seen (λ x. tokens_of x.1.now) result }
{
    match tokens {
        [
            Spanned {
                token: Token::Mark(Mark::Close),
                place,
                ..
            },
            rest @ ..,
        ] => Some((*place, rest)),
        _ => None,
    }
}

/// The place of `,` where it stands first, and what stands behind it.
#[tactic(auto, unfolding(f_grammar::specs::Reading::comma_at))]
pub fn comma_at(tokens: &[Spanned]) -> Option<(Place, &[Spanned])>
    ensures { comma_at (tokens_of tokens.now) ≡ seen (λ x. tokens_of x.1.now) result }
{
    match tokens {
        [
            Spanned {
                token: Token::Mark(Mark::Comma),
                place,
                ..
            },
            rest @ ..,
        ] => Some((*place, rest)),
        _ => None,
    }
}

/// The place of `%` where it stands first, and what stands behind it.
#[tactic(auto, unfolding(f_grammar::specs::Reading::percent_at))]
pub fn percent_at(tokens: &[Spanned]) -> Option<(Place, &[Spanned])>
    ensures { percent_at (tokens_of tokens.now) ≡ seen (λ x. tokens_of x.1.now) result }
{
    match tokens {
        [
            Spanned {
                token: Token::Mark(Mark::Percent),
                place,
                ..
            },
            rest @ ..,
        ] => Some((*place, rest)),
        _ => None,
    }
}

/// The place of `:` where it stands first, and what stands behind it.
#[tactic(auto, unfolding(f_grammar::specs::Reading::colon_at))]
pub fn colon_at(tokens: &[Spanned]) -> Option<(Place, &[Spanned])>
    ensures { colon_at (tokens_of tokens.now) ≡ seen (λ x. tokens_of x.1.now) result }
{
    match tokens {
        [
            Spanned {
                token: Token::Mark(Mark::Colon),
                place,
                ..
            },
            rest @ ..,
        ] => Some((*place, rest)),
        _ => None,
    }
}

/// The place of `::` where it stands first, and what stands behind it.
#[tactic(auto, unfolding(f_grammar::specs::Reading::colons_at))]
pub fn colons_at(tokens: &[Spanned]) -> Option<(Place, &[Spanned])>
    ensures { colons_at (tokens_of tokens.now) ≡ seen (λ x. tokens_of x.1.now) result }
{
    match tokens {
        [
            Spanned {
                token: Token::Mark(Mark::DoubleColon),
                place,
                ..
            },
            rest @ ..,
        ] => Some((*place, rest)),
        _ => None,
    }
}

/// The place of `*` where it stands first, and what stands behind it.
#[tactic(auto, unfolding(f_grammar::specs::Reading::star_at))]
pub fn star_at(tokens: &[Spanned]) -> Option<(Place, &[Spanned])>
    ensures { star_at (tokens_of tokens.now) ≡ seen (λ x. tokens_of x.1.now) result }
{
    match tokens {
        [
            Spanned {
                token: Token::Mark(Mark::Star),
                place,
                ..
            },
            rest @ ..,
        ] => Some((*place, rest)),
        _ => None,
    }
}

/// A name that stands first, its place, and what stands behind it.
#[tactic(auto, unfolding(f_grammar::specs::Reading::name_at))]
pub fn name_at(tokens: &[Spanned]) -> Option<(&List<u8>, Place, &[Spanned])>
    ensures { name_at (tokens_of tokens.now) ≡ seen (λ x. (x.0.now, tokens_of x.2.now)) result }
{
    match tokens {
        [
            Spanned {
                token: Token::Name(name),
                place,
                ..
            },
            rest @ ..,
        ] => Some((name, *place, rest)),
        _ => None,
    }
}

/// What stands behind the end of arguments in parentheses, or of items in brackets.
#[tactic(auto, unfolding(f_grammar::specs::Reading::end_at))]
pub fn end_at(in_call: bool, tokens: &[Spanned]) -> Option<&[Spanned]>
    ensures { end_at in_call (tokens_of tokens.now) ≡ seen (λ x. tokens_of x.now) result }
{
    match tokens {
        [
            Spanned {
                token: Token::Mark(Mark::Close),
                ..
            },
            rest @ ..,
        ] => { if in_call { Some(rest) } else { None } }
        [
            Spanned {
                token: Token::Mark(Mark::CloseBracket),
                ..
            },
            rest @ ..,
        ] => { if in_call { None } else { Some(rest) } }
        _ => None,
    }
}

/// A name with `=` behind it, its place, and what stands behind both.
#[tactic(auto, unfolding(f_grammar::specs::Reading::key_at))]
pub fn key_at(tokens: &[Spanned]) -> Option<(&List<u8>, Place, &[Spanned])>
    ensures { key_at (tokens_of tokens.now) ≡ seen (λ x. (x.0.now, tokens_of x.2.now)) result }
{
    match tokens {
        [
            Spanned {
                token: Token::Name(name),
                place,
                ..
            },
            Spanned {
                token: Token::Mark(Mark::Assign),
                ..
            },
            rest @ ..,
        ] => Some((name, *place, rest)),
        _ => None,
    }
}

/// The place of this word with `=` behind it, and what stands behind both.
#[tactic(auto, unfolding(f_grammar::specs::Reading::word_at))]
pub fn word_at<'a>(word: &str, tokens: &'a [Spanned]) -> Option<(Place, &'a [Spanned])>
    ensures { word_at word.now (tokens_of tokens.now) ≡ seen (λ x. tokens_of x.1.now) result }
{
    match key_at(tokens) {
        None => None,
        Some((name, place, rest)) => {
            if name.as_slice() == word.as_bytes() {
                Some((place, rest))
            } else {
                None
            }
        }
    }
}

/// How high an operator stands between two operands, which are lower.
pub fn height_of(mark: Mark) -> u8
    ensures { result ≡ height_of mark }
{
    match mark {
        Mark::Open | Mark::Percent => 0,
        Mark::Power => 1,
        Mark::Star | Mark::Slash => 2,
        Mark::Plus | Mark::Minus => 3,
        Mark::Concat => 4,
        Mark::Equal | Mark::NotEqual => 5,
        Mark::Less | Mark::LessEqual => 5,
        Mark::Greater | Mark::GreaterEqual => 5,
        Mark::DotEq | Mark::DotNe => 5,
        Mark::DotLt | Mark::DotLe => 5,
        Mark::DotGt | Mark::DotGe => 5,
        Mark::And => 7,
        Mark::Or => 8,
        Mark::Eqv | Mark::Neqv => 9,
        _ => 10,
    }
}

/// How high an operator stands before its operand.
pub fn sign_height(mark: Mark) -> u8
    ensures { result ≡ sign_height mark }
{
    match mark {
        Mark::Plus | Mark::Minus => 3,
        Mark::Not => 6,
        _ => 0,
    }
}

/// A sign of a chain of this level, where one stands first, and what stands behind it.
#[tactic(auto, unfolding(f_grammar::specs::Reading::sign_at))]
pub fn sign_at(level: u8, tokens: &[Spanned]) -> (Option<Sign>, &[Spanned])
    requires { level < 9 }
    ensures { (mark_of result.0, tokens_of result.1.now) ≡ sign_at level (tokens_of tokens.now) }
{
    match tokens {
        [
            Spanned {
                token: Token::Mark(mark),
                place,
                ..
            },
            rest @ ..,
        ] => {
            if sign_height(*mark) == level + 1 {
                (
                    Some(Sign {
                        operator: *mark,
                        place: *place,
                    }),
                    rest,
                )
            } else {
                (None, tokens)
            }
        }
        _ => (None, tokens),
    }
}

/// An operator of a chain of this level, and what stands behind it.
#[tactic(auto, unfolding(f_grammar::specs::Reading::link_at))]
pub fn link_at(level: u8, tokens: &[Spanned]) -> Option<(Mark, &[Spanned])>
    requires { level < 9 }
    ensures { link_at level (tokens_of tokens.now) ≡ seen (λ x. (x.0, tokens_of x.1.now)) result }
{
    match tokens {
        [
            Spanned {
                token: Token::Mark(mark),
                ..
            },
            rest @ ..,
        ] => {
            if height_of(*mark) == level + 1 {
                Some((*mark, rest))
            } else {
                None
            }
        }
        _ => None,
    }
}

/// A colon stands first, single or double.
#[tactic(auto, unfolding(f_grammar::specs::Reading::begins_colon))]
pub fn begins_colon(tokens: &[Spanned]) -> bool
    ensures { result ≡ begins_colon (tokens_of tokens.now) }
{
    match tokens {
        [
            Spanned {
                token: Token::Mark(Mark::Colon | Mark::DoubleColon),
                ..
            },
            ..
        ] => true,
        _ => false,
    }
}

/// Nothing of a bound stands first.
#[tactic(auto, unfolding(f_grammar::specs::Reading::ends_bound))]
pub fn ends_bound(tokens: &[Spanned]) -> bool
    ensures { result ≡ ends_bound (tokens_of tokens.now) }
{
    match tokens {
        [
            Spanned {
                token: Token::Mark(Mark::Colon | Mark::Comma | Mark::Close),
                ..
            },
            ..
        ] => true,
        _ => false,
    }
}

// What stands behind the parenthesis that closes the one before these tokens.
#[tactic(auto, unfolding(f_grammar::specs::Reading::closing))]
fn closing(tokens: &[Spanned]) -> &[Spanned]
    ensures { tokens_of result.now ≡ closing 0 (tokens_of tokens.now) }
{
    let most = tokens.len();
    let mut more: usize = 0;
    let mut rest = tokens;
    while let Some((first, others)) = rest.split_first() {
        rest = others;
        match first.token {
            Token::Mark(Mark::Open) => {
                let is_within = more < most;
                prove!(is_within);
                more += 1;
            }
            Token::Mark(Mark::Close) => {
                if more == 0 {
                    return rest;
                }
                more -= 1;
            }
            _ => {}
        }
    }
    rest
}

/// A name, maybe parentheses, and `::` stand first: so items with a type begin, and none else.
#[tactic(auto, unfolding(f_grammar::specs::Reading::begins_typed, f_grammar::specs::Reading::behind_group, f_grammar::specs::Reading::is_colons, f_grammar::specs::Reading::colons_at, f_grammar::specs::Reading::open_at, f_grammar::specs::Reading::name_at))]
pub fn begins_typed(tokens: &[Spanned]) -> bool
    ensures { result ≡ begins_typed (tokens_of tokens.now) }
{
    match name_at(tokens) {
        None => false,
        Some((_, _, rest)) => is_colons(behind_group(rest)),
    }
}

/// What stands behind the parentheses that stand first, if they do.
#[tactic(auto, unfolding(f_grammar::specs::Reading::behind_group))]
pub fn behind_group(tokens: &[Spanned]) -> &[Spanned]
    ensures { tokens_of result.now ≡ behind_group (tokens_of tokens.now) }
{
    match tokens {
        [
            Spanned {
                token: Token::Mark(Mark::Open),
                ..
            },
            rest @ ..,
        ] => closing(rest),
        _ => tokens,
    }
}

#[tactic(auto, unfolding(f_grammar::specs::Reading::is_colons))]
fn is_colons(tokens: &[Spanned]) -> bool
    ensures { result ≡ is_colons (tokens_of tokens.now) }
{
    match tokens {
        [
            Spanned {
                token: Token::Mark(Mark::DoubleColon),
                ..
            },
            ..
        ] => true,
        _ => false,
    }
}
