//! String literals.

ghost use Rattle.std.specs.Prelude.{◌≡◌, ◌∷◌, Some, IfOk};
ghost use Rattle.c_words.specs.Pieces.{is_literal};
ghost use Rattle.c_words.specs.Words.{string_at, joined, strings_at};
ghost use Rattle.c_words.specs.Numbering.{content_of, contents_of};
ghost use Rattle.c_words.specs.Making.{behind_literals};

use c_literal::string_literal;
use c_token::{CSpanned, CToken};
use jf_base::List;
use std::alloc::{AllocError, Global};

/// Whether the token is a string literal.
pub fn is_literal(token: &CToken) -> bool
    ensures { result ≡ is_literal token.now }
{
    match token {
        CToken::Text(_) => true,
        _ => false,
    }
}

fn content_of(token: &CToken) -> &[u8]
    ensures { result.now ≡ content_of token.now }
{
    match token {
        CToken::Text(content) => content.as_slice(),
        _ => &[],
    }
}

/// What stands behind the string literals that stand first.
#[tactic(auto, unfolding(crate::specs::Making::behind_literals))]
pub fn behind_literals(tokens: &[CSpanned]) -> &[CSpanned]
    ensures { result.now ≡ behind_literals tokens.now }
{
    let mut rest = tokens;
    'literals: while let Some((first, behind)) = rest.split_first() {
        if !is_literal(&first.token) {
            return rest;
        }
        rest = behind;
    }
    rest
}

// The bytes of a string literal, if it has a form.
fn string_at(alloc: Global, content: &[u8]) -> Result<Option<List<u8>>, AllocError>
    ensures { IfOk result (λ o. o ≡ string_at content.now) }
{
    string_literal(alloc, content)
}

// Bytes with those of string literals behind them, if each has a form.
fn with_others(
    alloc: Global,
    first: Vec<u8>,
    others: &[CSpanned],
) -> Result<Option<List<u8>>, AllocError>
    ensures { IfOk result (λ o. o ≡ joined (Some first.items) (strings_at (contents_of others.now))) }
{
    let mut bytes = first;
    let mut rest = others;
    'literals: while let Some((next, behind)) = rest.split_first() {
        match string_at(alloc, content_of(&next.token))? {
            None => return Ok(None),
            Some(more) => {
                bytes.extend_from_slice(more.as_slice())?;
                rest = behind;
            }
        }
    }
    Ok(Some(List::from_vec(bytes)))
}

/// The bytes of string literals that stand side by side, if each has a form (ISO/IEC 9899:2011, 6.4.5p5).
pub fn strings_at(
    alloc: Global,
    first: &[u8],
    others: &[CSpanned],
) -> Result<Option<List<u8>>, AllocError>
    ensures { IfOk result (λ o. o ≡ strings_at (first.now ∷ contents_of others.now)) }
{
    match string_at(alloc, first)? {
        None => Ok(None),
        Some(bytes) => with_others(alloc, bytes.into_vec(), others),
    }
}
