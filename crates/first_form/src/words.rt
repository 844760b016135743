//! Names, labels and numbers.

ghost use Rattle.std.specs.Prelude.{◌≡◌, ◌≢◌, ℕ, ◌++◌, List, MatchOption, IfOk, IsTrue, ◌↔◌, Contains, codes};
ghost use Rattle.std.specs.Fmt.{decimal};
ghost use Rattle.std.specs.List.{list_any};
ghost use Rattle.std.specs.Str.{bytes_eq};
ghost use Rattle.std.specs.Option.{SomeIff};
ghost use Rattle.std.specs.Str.Parse.{digits_value};
ghost use Rattle.first_form.specs.Words.{IsName, IsLabel, IsInt, IsPlainNumeral, reserved_words};

use jf_base::{Memory, Text};
use std::alloc::Global;

const GREATEST_NUMBER: u32 = 2_147_483_647;

/// The keywords of C (ISO/IEC 9899:2011, 6.4.1), the function called at program startup, and the functions of the C library.
const RESERVED_WORDS: [&[u8]; 55] = [
    b"auto",
    b"break",
    b"case",
    b"char",
    b"const",
    b"continue",
    b"default",
    b"do",
    b"double",
    b"else",
    b"enum",
    b"extern",
    b"float",
    b"for",
    b"goto",
    b"if",
    b"inline",
    b"int",
    b"long",
    b"register",
    b"restrict",
    b"return",
    b"short",
    b"signed",
    b"sizeof",
    b"static",
    b"struct",
    b"switch",
    b"typedef",
    b"union",
    b"unsigned",
    b"void",
    b"volatile",
    b"while",
    b"_Alignas",
    b"_Alignof",
    b"_Atomic",
    b"_Bool",
    b"_Complex",
    b"_Generic",
    b"_Imaginary",
    b"_Noreturn",
    b"_Static_assert",
    b"_Thread_local",
    b"main",
    b"malloc",
    b"free",
    b"exit",
    b"abort",
    b"putchar",
    b"getchar",
    b"puts",
    b"memcpy",
    b"memset",
    b"strlen",
];

pub(crate) fn is_name(word: &[u8]) -> bool
    ensures { IsTrue result ↔ IsName word.now }
{
    !word.is_empty() && word.len() <= 63 && word.iter().all(|letter| letter.is_ascii_lowercase())
}

fn is_among(word: &[u8], words: &[&[u8]]) -> bool
    ensures { result ≡ list_any (λ x. bytes_eq word.now x.now) words.now }
{
    words.iter().any(|known| word == *known)
}

fn is_reserved(word: &[u8]) -> bool
    ensures { IsTrue result ↔ Contains reserved_words word.now }
{
    is_among(word, &RESERVED_WORDS)
}

pub(crate) fn is_label(name: &[u8], label: &[u8]) -> bool
    ensures { IsTrue result ↔ IsLabel name.now label.now }
{
    is_name(label) && label != name && label != b"c".as_slice() && !is_reserved(label)
}

// Whether these are decimal digits with no leading zero.
fn is_plain_numeral(digits: &[u8]) -> bool
    ensures { IsTrue result ↔ IsPlainNumeral digits.now }
{
    match digits.split_first() {
        Some((first, rest)) => {
            (*first != b'0' || rest.is_empty()) && digits.iter().all(|digit| digit.is_ascii_digit())
        }
        None => false,
    }
}

fn value_of(digits: &[u8]) -> Option<u32>
    requires { IsPlainNumeral digits.now }
    ensures { SomeIff result (IsInt (digits_value 10 digits.now)) (digits_value 10 digits.now) }
{
    let Ok(text) = str::from_utf8(digits) else {
        return None;
    };
    match text.parse() {
        Ok(number) if number <= GREATEST_NUMBER => Some(number),
        _ => None,
    }
}

// The number that these digits write, with no sign and no leading zero.
pub(crate) fn number_of(digits: &[u8]) -> Option<u32>
    ensures { MatchOption result ((n : ℕ) → IsInt n → digits.now ≢ decimal n) (λ n. IsInt n × (digits.now ≡ decimal n)) }
{
    if is_plain_numeral(digits) {
        value_of(digits)
    } else {
        None
    }
}

pub(crate) fn label_text(alloc: Global, label: &[u8]) -> Result<Text, Memory>
    requires { IsName label.now }
    ensures { IfOk result (λ text. text ≡ label.now) }
{
    match str::from_utf8(label) {
        Ok(text) => {
            let text = Text::from_text(alloc, text)?;
            Ok(text)
        }
        Err(_) => unreachable!(),
    }
}
