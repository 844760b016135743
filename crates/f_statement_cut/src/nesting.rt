//! How deep parentheses and brackets nest.

ghost use Rattle.std.specs.Prelude.{◌≡◌, ◌+◌, ◌<◌, suc, MatchOption, false, nat_lt};
ghost use Rattle.f_expr_read.specs.Views.{tokens_of};
ghost use Rattle.f_unit_grammar.specs.Units.{deepest, deeper, fewer};
ghost use Rattle.f_statement_cut.specs.Nesting.{OpensTooDeep, too_deep_at};

use f_lex::{Mark, Spanned, Token};
use jf_base::Place;

/// How deep constructs, parentheses and brackets nest at most, all together.
const DEEPEST: u32 = 64;

// One more is too many.
fn is_full(around: u32, nested: u32) -> bool
    ensures exact { result ≡ nat_lt deepest (around + suc nested) }
    ensures small { result ≡ false → nested < 64 }
{
    !(nested < DEEPEST.saturating_sub(around))
}

// One less, where there is one.
#[tactic(auto, using(crate::proofs::Deepening::fewer_is))]
fn fewer(nested: u32) -> u32
    ensures { result ≡ fewer nested }
{
    nested.saturating_sub(1)
}

// The place of the first parenthesis or bracket that opens a nesting too many.
#[tactic(auto, unfolding(crate::specs::Nesting::too_deep_at))]
fn first_too_deep(around: u32, tokens: &[Spanned]) -> Option<Place>
    ensures { result ≡ too_deep_at around 0 tokens.now }
{
    let mut nested: u32 = 0;
    let mut rest = tokens;
    'tokens: while let Some((first, tail)) = rest.split_first() {
        match first.token {
            Token::Mark(Mark::Open | Mark::OpenBracket) => {
                if is_full(around, nested) {
                    return Some(first.place);
                }
                nested += 1;
            }
            Token::Mark(Mark::Close | Mark::CloseBracket) => nested = fewer(nested),
            _ => {}
        }
        rest = tail;
    }
    None
}

/// The place of the first parenthesis or bracket that opens a nesting too many, where `around` constructs are around the statement. Constructs,
/// parentheses and brackets together nest at most 64 deep.
pub fn too_deep(around: u32, tokens: &[Spanned]) -> Option<Place>
    ensures exact { result ≡ too_deep_at around 0 tokens.now }
    ensures first { MatchOption result (deeper around 0 (tokens_of tokens.now) ≡ false) (OpensTooDeep around tokens.now) }
{
    first_too_deep(around, tokens)
}
