//! Keywords.

ghost use Rattle.std.specs.Prelude.{◌≡◌};
ghost use Rattle.c_words.specs.Words.{specifier_of, statement_of, other_of, unused_small, unused_capital, or_else, keyword_of};

use c_grammar::Token;
use c_tree::SpecifierWord;
use cfi_header::DESCRIPTOR_WORD;

#[tactic(auto, unfolding(crate::specs::Words::specifier_of))]
fn specifier_of(spelling: &[u8]) -> Option<Token>
    ensures { result ≡ specifier_of spelling.now }
{
    if spelling == b"int".as_slice() {
        Some(Token::Word(SpecifierWord::Int))
    } else if spelling == b"char".as_slice() {
        Some(Token::Word(SpecifierWord::Char))
    } else if spelling == b"void".as_slice() {
        Some(Token::Word(SpecifierWord::Void))
    } else if spelling == b"const".as_slice() {
        Some(Token::Word(SpecifierWord::Const))
    } else if spelling == b"static".as_slice() {
        Some(Token::Word(SpecifierWord::Static))
    } else if spelling == b"long".as_slice() {
        Some(Token::Word(SpecifierWord::Long))
    } else if spelling == b"unsigned".as_slice() {
        Some(Token::Word(SpecifierWord::Unsigned))
    } else if spelling == b"short".as_slice() {
        Some(Token::Word(SpecifierWord::Short))
    } else if spelling == b"signed".as_slice() {
        Some(Token::Word(SpecifierWord::Signed))
    } else if spelling == b"extern".as_slice() {
        Some(Token::Word(SpecifierWord::Extern))
    } else if spelling == b"typedef".as_slice() {
        Some(Token::Word(SpecifierWord::Typedef))
    } else if spelling == b"_Bool".as_slice() {
        Some(Token::Word(SpecifierWord::Bool))
    } else if spelling == DESCRIPTOR_WORD {
        Some(Token::Word(SpecifierWord::Descriptor))
    } else {
        None
    }
}

#[tactic(auto, unfolding(crate::specs::Words::statement_of))]
fn statement_of(spelling: &[u8]) -> Option<Token>
    ensures { result ≡ statement_of spelling.now }
{
    if spelling == b"if".as_slice() {
        Some(Token::If)
    } else if spelling == b"else".as_slice() {
        Some(Token::Else)
    } else if spelling == b"return".as_slice() {
        Some(Token::Return)
    } else if spelling == b"for".as_slice() {
        Some(Token::For)
    } else if spelling == b"while".as_slice() {
        Some(Token::While)
    } else if spelling == b"do".as_slice() {
        Some(Token::Do)
    } else if spelling == b"break".as_slice() {
        Some(Token::Break)
    } else if spelling == b"continue".as_slice() {
        Some(Token::Continue)
    } else if spelling == b"switch".as_slice() {
        Some(Token::Switch)
    } else if spelling == b"case".as_slice() {
        Some(Token::Case)
    } else if spelling == b"default".as_slice() {
        Some(Token::Default)
    } else {
        None
    }
}

#[tactic(auto, unfolding(crate::specs::Words::other_of))]
fn other_of(spelling: &[u8]) -> Option<Token>
    ensures { result ≡ other_of spelling.now }
{
    if spelling == b"struct".as_slice() {
        Some(Token::Struct)
    } else if spelling == b"enum".as_slice() {
        Some(Token::Enum)
    } else if spelling == b"sizeof".as_slice() {
        Some(Token::Sizeof)
    } else if spelling == b"restrict".as_slice() {
        Some(Token::Restrict)
    } else if spelling == b"CFI_CDESC_T".as_slice() {
        Some(Token::DescriptorOfRank)
    } else {
        None
    }
}

#[tactic(auto, unfolding(crate::specs::Words::unused_small))]
fn unused_small(spelling: &[u8]) -> Option<Token>
    ensures { result ≡ unused_small spelling.now }
{
    if spelling == b"auto".as_slice() {
        Some(Token::Unused)
    } else if spelling == b"double".as_slice() {
        Some(Token::Unused)
    } else if spelling == b"float".as_slice() {
        Some(Token::Unused)
    } else if spelling == b"goto".as_slice() {
        Some(Token::Unused)
    } else if spelling == b"inline".as_slice() {
        Some(Token::Unused)
    } else if spelling == b"register".as_slice() {
        Some(Token::Unused)
    } else if spelling == b"union".as_slice() {
        Some(Token::Unused)
    } else if spelling == b"volatile".as_slice() {
        Some(Token::Unused)
    } else {
        None
    }
}

#[tactic(auto, unfolding(crate::specs::Words::unused_capital))]
fn unused_capital(spelling: &[u8]) -> Option<Token>
    ensures { result ≡ unused_capital spelling.now }
{
    if spelling == b"_Alignas".as_slice() {
        Some(Token::Unused)
    } else if spelling == b"_Alignof".as_slice() {
        Some(Token::Unused)
    } else if spelling == b"_Atomic".as_slice() {
        Some(Token::Unused)
    } else if spelling == b"_Complex".as_slice() {
        Some(Token::Unused)
    } else if spelling == b"_Generic".as_slice() {
        Some(Token::Unused)
    } else if spelling == b"_Imaginary".as_slice() {
        Some(Token::Unused)
    } else if spelling == b"_Noreturn".as_slice() {
        Some(Token::Unused)
    } else if spelling == b"_Static_assert".as_slice() {
        Some(Token::Unused)
    } else if spelling == b"_Thread_local".as_slice() {
        Some(Token::Unused)
    } else {
        None
    }
}

fn unused_of(spelling: &[u8]) -> Option<Token>
    ensures { result ≡ or_else (unused_small spelling.now) (unused_capital spelling.now) }
{
    match unused_small(spelling) {
        Some(word) => Some(word),
        None => unused_capital(spelling),
    }
}

fn without_specifiers(spelling: &[u8]) -> Option<Token>
    ensures { result ≡ or_else (statement_of spelling.now) (or_else (other_of spelling.now) (or_else (unused_small spelling.now) (unused_capital spelling.now))) }
{
    match statement_of(spelling) {
        Some(word) => Some(word),
        None => match other_of(spelling) {
            Some(word) => Some(word),
            None => unused_of(spelling),
        },
    }
}

/// The keyword with this spelling (ISO/IEC 9899:2011, 6.4.1): `Token::Unused` for those that the profile has no use for. None where it is that of a name.
/// `CFI_CDESC_T` is a keyword, and so is the word that names the type of descriptors in the text of `<ISO_Fortran_binding.h>`.
#[tactic(auto, unfolding(crate::specs::Words::keyword_of))]
pub fn keyword_of(spelling: &[u8]) -> Option<Token>
    ensures { result ≡ keyword_of spelling.now }
{
    match specifier_of(spelling) {
        Some(word) => Some(word),
        None => without_specifiers(spelling),
    }
}
