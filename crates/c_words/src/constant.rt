//! Constants.

ghost use Rattle.std.specs.Prelude.{◌≡◌};
ghost use Rattle.c_literal.specs.IntegerReading.{constant_at};
ghost use Rattle.c_literal.specs.LiteralReading.{element_at};
ghost use Rattle.c_words.specs.Words.{number_word, byte_word};

use c_grammar::Token;
use c_literal::{character_constant, integer_constant};

/// An integer constant with its value and its type (ISO/IEC 9899:2011, 6.4.4.1). What is none, or is in none of the types, is a word that stands in no
/// production.
pub fn number_word(spelling: &[u8]) -> Token
    ensures { result ≡ number_word (constant_at spelling.now) }
{
    match integer_constant(spelling) {
        None => Token::Unused,
        Some(constant) => Token::Number(constant.value, constant.kind()),
    }
}

/// A character constant with its value, from what stands between its quotes (ISO/IEC 9899:2011, 6.4.4.4). What is none of one byte is a word that stands in
/// no production.
pub fn byte_word(content: &[u8]) -> Token
    ensures { result ≡ byte_word (element_at 39 content.now) }
{
    match character_constant(content) {
        None => Token::Unused,
        Some(byte) => Token::Byte(byte),
    }
}
