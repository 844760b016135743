//! Texts of tests as tokens: each word between blanks is one. A name is one letter, and its number is the letter's code; a constant is one digit.

use c_grammar::Token;
use c_tree::{ConstantType, SpecifierWord};
use std::alloc::{AllocError, Global};

const STATEMENT_WORDS: [(&str, Token); 11] = [
    ("if", Token::If),
    ("else", Token::Else),
    ("switch", Token::Switch),
    ("case", Token::Case),
    ("default", Token::Default),
    ("while", Token::While),
    ("do", Token::Do),
    ("for", Token::For),
    ("break", Token::Break),
    ("continue", Token::Continue),
    ("return", Token::Return),
];

const OTHER_WORDS: [(&str, Token); 7] = [
    ("int", Token::Word(SpecifierWord::Int)),
    ("unsigned", Token::Word(SpecifierWord::Unsigned)),
    ("typedef", Token::Word(SpecifierWord::Typedef)),
    ("enum", Token::Enum),
    ("sizeof", Token::Sizeof),
    ("++", Token::Increment),
    ("--", Token::Decrement),
];

const SIGNS: [(&str, Token); 14] = [
    ("(", Token::Open),
    (")", Token::Close),
    ("[", Token::SquareOpen),
    ("]", Token::SquareClose),
    ("{", Token::BraceOpen),
    ("}", Token::BraceClose),
    (",", Token::Comma),
    (";", Token::Semi),
    (":", Token::Colon),
    ("?", Token::Question),
    ("=", Token::Equals),
    ("*", Token::Star),
    ("+", Token::Plus),
    ("<", Token::Less),
];

fn found(table: &[(&str, Token)], word: &str) -> Option<Token> {
    for (spelling, token) in table {
        if *spelling == word {
            return Some(*token);
        }
    }
    None
}

fn short(word: &str) -> Option<Token> {
    match word.as_bytes() {
        [byte] => {
            if byte.is_ascii_alphabetic() {
                Some(Token::Name(u32::from(*byte)))
            } else if byte.is_ascii_digit() {
                Some(Token::Number(u64::from(*byte & 15), ConstantType::Int))
            } else {
                None
            }
        }
        _ => None,
    }
}

fn token_of(word: &str) -> Option<Token> {
    match short(word) {
        Some(token) => Some(token),
        None => match found(&SIGNS, word) {
            Some(token) => Some(token),
            None => match found(&STATEMENT_WORDS, word) {
                Some(token) => Some(token),
                None => found(&OTHER_WORDS, word),
            },
        },
    }
}

/// The tokens of a text, where each word that is none counts as a keyword without use.
pub fn tokens_of(alloc: Global, text: &str) -> Result<Vec<Token>, AllocError> {
    let mut tokens = Vec::new(alloc);
    for word in text.split_whitespace() {
        match token_of(word) {
            Some(token) => tokens.push(token)?,
            None => tokens.push(Token::Unused)?,
        }
    }
    Ok(tokens)
}
