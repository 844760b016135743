//! Words that are made one behind the other.

ghost use Rattle.std.specs.Prelude.{◌≡◌, ◌+◌, ◌<◌, ◌^◌, ◌∷◌, length, IfOk, OnOk};
ghost use Rattle.c_words.specs.Words.{keyword_of, keyword_or_name, strings_at, string_word};
ghost use Rattle.c_words.specs.Numbering.{name_unless, name_in, contents_of, literal_with, word_with};
ghost use Rattle.c_words.specs.Making.{met_some, with_literal, put};

use crate::constant::{byte_word, number_word};
use crate::keyword::keyword_of;
use crate::literal::strings_at;
use crate::names::Names;
use crate::sign::sign_of;
use c_grammar::Token;
use c_token::{CSpanned, CToken};
use jf_base::{List, Place};
use std::alloc::{AllocError, Global};

/// The words so far.
#[derive(Drop)]
pub struct Made {
    pub names: Names,
    pub literals: List<List<u8>>,
    pub words: List<Token>,
    pub places: List<Place>,
    pub counts: List<u32>,
}

// A keyword, or a name by its number.
fn name_word(alloc: Global, names: &mut Names, spelling: &[u8]) -> Result<Token, AllocError>
    requires { length names.old < 2 ^ 32 }
    ensures names { OnOk result (names.new ≡ met_some names.old (name_unless (keyword_of spelling.now) spelling.now)) }
    ensures word { IfOk result (λ w. w ≡ keyword_or_name names.new spelling.now (keyword_of spelling.now)) }
{
    match keyword_of(spelling) {
        Some(word) => Ok(word),
        None => Ok(Token::Name(names.number(alloc, spelling)?)),
    }
}

// A string literal by its number, with those that stand behind it.
fn string_word(
    alloc: Global,
    literals: &mut List<List<u8>>,
    content: &[u8],
    others: &[CSpanned],
) -> Result<Token, AllocError>
    requires { length literals.old < 2 ^ 32 }
    ensures literals { OnOk result (literals.new ≡ with_literal literals.old (strings_at (content.now ∷ contents_of others.now))) }
    ensures word { IfOk result (λ w. w ≡ string_word (length literals.old) (strings_at (content.now ∷ contents_of others.now))) }
{
    match strings_at(alloc, content, others)? {
        None => Ok(Token::Unused),
        Some(bytes) => {
            let number = literals.len();
            literals.push(bytes)?;
            Ok(Token::Text(number as u32))
        }
    }
}

// The word of a token, with the string literals behind it that are one with it.
fn word(
    alloc: Global,
    names: &mut Names,
    literals: &mut List<List<u8>>,
    token: &CToken,
    others: &[CSpanned],
) -> Result<Token, AllocError>
    requires few_names { length names.old < 2 ^ 32 }
    requires few_literals { length literals.old < 2 ^ 32 }
    ensures names { OnOk result (names.new ≡ met_some names.old (name_in token.now)) }
    ensures literals { OnOk result (literals.new ≡ with_literal literals.old (literal_with token.now others.now)) }
    ensures word { IfOk result (λ w. w ≡ word_with names.new (length literals.old) token.now others.now) }
{
    match token {
        CToken::Id(spelling) => name_word(alloc, names, spelling.as_slice()),
        CToken::Number(spelling) => Ok(number_word(spelling.as_slice())),
        CToken::Text(content) => string_word(alloc, literals, content.as_slice(), others),
        CToken::Byte(content) => Ok(byte_word(content.as_slice())),
        CToken::Mark(mark) => Ok(sign_of(*mark)),
    }
}

/// Puts the word of a token behind the others, with the string literals that are one with it.
pub fn put(
    alloc: Global,
    made: &mut Made,
    first: &CSpanned,
    others: &[CSpanned],
) -> Result<(), AllocError>
    requires few_names { length made.old.names < 2 ^ 32 }
    requires few_literals { length made.old.literals < 2 ^ 32 }
    requires few_others { length others.now + 1 < 2 ^ 32 }
    ensures { OnOk result (made.new ≡ put made.old first.now others.now) }
{
    let word = word(
        alloc,
        &mut made.names,
        &mut made.literals,
        &first.token,
        others,
    )?;
    made.words.push(word)?;
    made.places.push(first.place)?;
    made.counts.push((others.len() + 1) as u32)?;
    Ok(())
}
