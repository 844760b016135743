//! Character constants and string literals.

ghost use Rattle.std.specs.Prelude.{◌≡◌, ◌↔◌, IsTrue, MatchOption, IfOk, List as ListOf, ℕ};
ghost use Rattle.c_literal.specs.Literals.{IsCharacter, IsNoCharacter, IsString, IsNoString, IsBetween, IsUnquoted};

use crate::element::element_at;
use jf_base::List;
use std::alloc::{AllocError, Global};

/// What stands between the quotes of a literal without a prefix, as `a` of `'a'`; `quote` is `'` or `"`. None where the spelling doesn't begin and end with
/// that quote.
pub fn between_quotes(quote: u8, spelling: &[u8]) -> Option<&[u8]>
    ensures { MatchOption result (IsUnquoted quote spelling.now) (λ content. IsBetween quote spelling.now content.now) }
{
    match spelling.split_first() {
        None => None,
        Some((first, rest)) => match rest.split_last() {
            None => None,
            Some((last, content)) => {
                if *first == quote && *last == quote {
                    Some(content)
                } else {
                    None
                }
            }
        },
    }
}

/// The byte that a character constant stands for, from what stands between its quotes (ISO/IEC 9899:2011, 6.4.4.4). None where that isn't exactly one
/// character or escape sequence, or where an escape sequence is above 255.
pub fn character_constant(content: &[u8]) -> Option<u8>
    ensures { MatchOption result (IsNoCharacter content.now) (IsCharacter content.now) }
{
    match element_at(b'\'', content) {
        None => None,
        Some((byte, rest)) => { if rest.is_empty() { Some(byte) } else { None } }
    }
}

/// The bytes of a string literal without the zero behind them, from what stands between its quotes (ISO/IEC 9899:2011, 6.4.5). None where that has an escape
/// sequence of no form or above 255.
pub fn string_literal(alloc: Global, content: &[u8]) -> Result<Option<List<u8>>, AllocError>
    ensures { IfOk result (λ r. MatchOption r (IsNoString content.now) (IsString content.now)) }
{
    let mut bytes = Vec::new(alloc);
    let mut rest = content;
    while !rest.is_empty() {
        match element_at(b'"', rest) {
            None => return Ok(None),
            Some((byte, tail)) => {
                bytes.push(byte)?;
                rest = tail;
            }
        }
    }
    Ok(Some(List::from_vec(bytes)))
}

/// Whether `string_literal` has bytes for what stands between the quotes.
pub fn is_string_literal(content: &[u8]) -> bool
    ensures { IsTrue result ↔ ((bytes : ListOf ℕ) × IsString content.now bytes) }
{
    let mut rest = content;
    while !rest.is_empty() {
        match element_at(b'"', rest) {
            None => return false,
            Some((_, tail)) => rest = tail,
        }
    }
    true
}
