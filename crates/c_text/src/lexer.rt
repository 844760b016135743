//! From a whole text to its pieces.

ghost use Rattle.std.specs.Prelude.{◌≡◌, ◌<◌, ◌++◌, ◌^◌, length, map, IfOk, OnOk};
ghost use Rattle.c_text.specs.Source.{given};
ghost use Rattle.c_text.specs.Lexing.{Lexes};

use crate::character::{Character, joined};
use crate::kind::{Kind, Lexeme};
use crate::piece::piece_at;
use jf_base::List;
use std::alloc::{AllocError, Global};

fn spelling(alloc: Global, text: &[Character]) -> Result<List<u8>, AllocError>
    ensures { IfOk result (λ l. l ≡ map (λ c. c.byte) text.now) }
{
    Ok(List::from_vec(text.iter().map(|character| character.byte).collect(alloc)?))
}

// Puts the lexeme that a piece of this kind is behind the others.
fn give(
    alloc: Global,
    lexemes: &mut Vec<Lexeme>,
    kind: Option<Kind>,
    after_blank: bool,
    text: &[Character],
) -> Result<(), AllocError>
    ensures { OnOk result (lexemes.new.items ≡ lexemes.old.items ++ given kind after_blank text.now) }
{
    if let Some(kind) = kind {
        if let Some((first, _)) = text.split_first() {
            lexemes.push(Lexeme {
                kind,
                spelling: spelling(alloc, text)?,
                point: first.point,
                after_blank,
            })?;
        }
    }
    Ok(())
}

/// The pieces of a text that aren't white space, each with its spelling and its place (ISO/IEC 9899:2011, 5.1.1.2 and 6.4): preprocessing tokens, line
/// ends, and what breaks `P01` or `P02`. It takes time in proportion to the length of the text.
pub fn lexemes(alloc: Global, bytes: &[u8]) -> Result<Vec<Lexeme>, AllocError>
    requires { length bytes.now < 2 ^ 31 }
    ensures { IfOk result (λ v. Lexes bytes.now v.items) }
{
    let text = joined(alloc, bytes)?;
    let mut lexemes = Vec::new(alloc);
    let mut after_blank = false;
    let mut rest = text.as_slice();
    'pieces: while !rest.is_empty() {
        let (kind, next) = piece_at(rest);
        give(
            alloc,
            &mut lexemes,
            kind,
            after_blank,
            rest.split_at(rest.len() - next.len()).0,
        )?;
        after_blank = kind.is_none();
        rest = next;
    }
    Ok(lexemes)
}
