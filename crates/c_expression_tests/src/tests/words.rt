//! Texts of tests as tokens: each word between blanks is one. A name is one letter, and its number is the letter's code.

use c_grammar::Token;
use c_tree::{ConstantType, SpecifierWord};
use std::alloc::{AllocError, Global};

const TYPE_WORDS: [(&str, SpecifierWord); 13] = [
    ("typedef", SpecifierWord::Typedef),
    ("extern", SpecifierWord::Extern),
    ("static", SpecifierWord::Static),
    ("const", SpecifierWord::Const),
    ("void", SpecifierWord::Void),
    ("_Bool", SpecifierWord::Bool),
    ("char", SpecifierWord::Char),
    ("short", SpecifierWord::Short),
    ("int", SpecifierWord::Int),
    ("long", SpecifierWord::Long),
    ("signed", SpecifierWord::Signed),
    ("unsigned", SpecifierWord::Unsigned),
    ("CFI_cdesc_t", SpecifierWord::Descriptor),
];

const WORDS: [(&str, Token); 9] = [
    ("restrict", Token::Restrict),
    ("struct", Token::Struct),
    ("enum", Token::Enum),
    ("CFI_CDESC_T", Token::DescriptorOfRank),
    ("sizeof", Token::Sizeof),
    ("if", Token::If),
    ("else", Token::Else),
    ("return", Token::Return),
    ("goto", Token::Unused),
];

const BRACKETS: [(&str, Token); 12] = [
    ("(", Token::Open),
    (")", Token::Close),
    ("[", Token::SquareOpen),
    ("]", Token::SquareClose),
    ("{", Token::BraceOpen),
    ("}", Token::BraceClose),
    (",", Token::Comma),
    (";", Token::Semi),
    (":", Token::Colon),
    ("?", Token::Question),
    (".", Token::Dot),
    ("->", Token::Arrow),
];

const OPERATORS: [(&str, Token); 22] = [
    ("++", Token::Increment),
    ("--", Token::Decrement),
    ("~", Token::Tilde),
    ("!", Token::Exclamation),
    ("*", Token::Star),
    ("/", Token::Slash),
    ("%", Token::Percent),
    ("+", Token::Plus),
    ("-", Token::Minus),
    ("<<", Token::ShiftLeft),
    (">>", Token::ShiftRight),
    ("<", Token::Less),
    (">", Token::Greater),
    ("<=", Token::LessEqual),
    (">=", Token::GreaterEqual),
    ("==", Token::Equal),
    ("!=", Token::NotEqual),
    ("&", Token::Ampersand),
    ("^", Token::Caret),
    ("|", Token::Bar),
    ("&&", Token::AndAnd),
    ("||", Token::OrOr),
];

const ASSIGNMENTS: [(&str, Token); 11] = [
    ("=", Token::Equals),
    ("*=", Token::StarEquals),
    ("/=", Token::SlashEquals),
    ("%=", Token::PercentEquals),
    ("+=", Token::PlusEquals),
    ("-=", Token::MinusEquals),
    ("<<=", Token::ShiftLeftEquals),
    (">>=", Token::ShiftRightEquals),
    ("&=", Token::AmpersandEquals),
    ("^=", Token::CaretEquals),
    ("|=", Token::BarEquals),
];

const SUFFIXES: [(&str, ConstantType); 6] = [
    ("ull", ConstantType::UnsignedLongLong),
    ("ll", ConstantType::LongLong),
    ("ul", ConstantType::UnsignedLong),
    ("l", ConstantType::Long),
    ("u", ConstantType::UnsignedInt),
    ("", ConstantType::Int),
];

fn found(table: &[(&str, Token)], word: &str) -> Option<Token> {
    for (spelling, token) in table {
        if *spelling == word {
            return Some(*token);
        }
    }
    None
}

fn type_word(word: &str) -> Option<Token> {
    for (spelling, specifier) in &TYPE_WORDS {
        if *spelling == word {
            return Some(Token::Word(*specifier));
        }
    }
    None
}

// A constant whose suffix tells its type.
fn number(word: &str) -> Option<Token> {
    for (suffix, kind) in &SUFFIXES {
        if let Some(digits) = word.strip_suffix(*suffix) {
            if let Ok(value) = digits.parse::<u64>() {
                return Some(Token::Number(value, *kind));
            }
        }
    }
    None
}

fn short(word: &str) -> Option<Token> {
    match word.as_bytes() {
        [letter] => {
            if letter.is_ascii_alphabetic() {
                Some(Token::Name(u32::from(*letter)))
            } else {
                None
            }
        }
        [b'\'', value, b'\''] => Some(Token::Byte(*value)),
        [b'"', number, b'"'] => Some(Token::Text(u32::from(*number))),
        _ => None,
    }
}

fn sign(word: &str) -> Option<Token> {
    match found(&BRACKETS, word) {
        Some(token) => Some(token),
        None => match found(&OPERATORS, word) {
            Some(token) => Some(token),
            None => found(&ASSIGNMENTS, word),
        },
    }
}

fn token_of(word: &str) -> Option<Token> {
    match short(word) {
        Some(token) => Some(token),
        None => match sign(word) {
            Some(token) => Some(token),
            None => match found(&WORDS, word) {
                Some(token) => Some(token),
                None => match type_word(word) {
                    Some(token) => Some(token),
                    None => number(word),
                },
            },
        },
    }
}

/// The tokens of a text, where each word that is none counts as a keyword without use.
pub fn tokens_of(alloc: Global, text: &str) -> Result<Vec<Token>, AllocError> {
    let mut tokens = Vec::new(alloc);
    for word in text.split_whitespace() {
        match token_of(word) {
            Some(token) => tokens.push(token)?,
            None => tokens.push(Token::Unused)?,
        }
    }
    Ok(tokens)
}
