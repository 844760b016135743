//! The words of a text.

ghost use Rattle.std.specs.Prelude.{◌≡◌, ◌<◌, ◌^◌, length, IfOk};
ghost use Rattle.c_words.specs.Pieces.{pieces};
ghost use Rattle.c_words.specs.Making.{others_of, behind_piece, nothing, all_put, AreWords};

use crate::literal::{behind_literals, is_literal};
use crate::made::{Made, put};
use crate::names::Names;
use c_grammar::Token;
use c_token::CSpanned;
use jf_base::{List, Place};
use std::alloc::{AllocError, Global};

/// The words of a C text.
#[derive(Drop)]
pub struct Words {
    /// The spellings of the names by their numbers: each once, in the order in which the text has them first.
    pub names: List<List<u8>>,
    /// The bytes of the string literals by their numbers, without a zero behind them.
    pub literals: List<List<u8>>,
    /// The words themselves.
    pub words: List<Token>,
    /// The place of each word, which is that of its first token.
    pub places: List<Place>,
    /// How many tokens became each word: one, but for string literals that stood side by side.
    pub counts: List<u32>,
}

// Which string literals are one with a token, and what stands behind them.
fn piece_at<'a>(first: &CSpanned, behind: &'a [CSpanned]) -> (&'a [CSpanned], &'a [CSpanned])
    ensures others { result.0.now ≡ others_of first.now behind.now }
    ensures rest { result.1.now ≡ behind_piece first.now behind.now }
{
    if is_literal(&first.token) {
        let rest = behind_literals(behind);
        (behind.split_at(behind.len() - rest.len()).0, rest)
    } else {
        behind.split_at(0)
    }
}

fn made_of(alloc: Global, tokens: &[CSpanned]) -> Result<Made, AllocError>
    requires { length tokens.now < 2 ^ 32 }
    ensures { IfOk result (λ made. made ≡ all_put nothing (pieces tokens.now)) }
{
    let mut made = Made {
        names: Names::new(alloc),
        literals: List::from_vec(Vec::new(alloc)),
        words: List::from_vec(Vec::new(alloc)),
        places: List::from_vec(Vec::new(alloc)),
        counts: List::from_vec(Vec::new(alloc)),
    };
    let mut rest = tokens;
    'pieces: while let Some((first, behind)) = rest.split_first() {
        let (others, following) = piece_at(first, behind);
        put(alloc, &mut made, first, others)?;
        rest = following;
    }
    Ok(made)
}

/// The words of a text from its tokens behind macro replacement and includes (ISO/IEC 9899:2011, 5.1.1.2p1, phases 5 to 7), in the order of the text. A
/// keyword that the profile has no use for is `Token::Unused`, which stands in no production of the grammar. So is an integer constant that has no form or is
/// in none of the types, a character constant that isn't one byte, and a string literal with an escape sequence of no form: what the preprocessor gives has
/// none of these. A text of the preprocessor has fewer tokens than asked here.
pub fn words_of(alloc: Global, tokens: &[CSpanned]) -> Result<Words, AllocError>
    requires { length tokens.now < 2 ^ 32 }
    ensures { IfOk result (AreWords tokens.now) }
{
    let Made {
        names,
        literals,
        words,
        places,
        counts,
    } = made_of(alloc, tokens)?;
    Ok(Words {
        names: names.into_list(alloc)?,
        literals,
        words,
        places,
        counts,
    })
}
