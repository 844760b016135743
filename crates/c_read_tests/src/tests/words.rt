//! Texts of tests as the tokens that the preprocessor gives where there is nothing to be done for it.

use c_form::token_of;
use c_text::{Lexeme, lexemes};
use c_token::CSpanned;
use jf_base::Place;
use std::alloc::{AllocError, Global};

/// The most bytes of a text in a test.
const MOST_BYTES: usize = 100_000;

// Puts the token of a lexeme behind the others, where it has one.
fn put(alloc: Global, tokens: &mut Vec<CSpanned>, lexeme: &Lexeme) -> Result<(), AllocError> {
    match token_of(alloc, lexeme)? {
        None => Ok(()),
        Some(token) => {
            let place = Place {
                file: 0,
                line: lexeme.point.line,
                column: lexeme.point.column,
            };
            tokens.push(CSpanned { token, place })?;
            Ok(())
        }
    }
}

fn lexemes_of(alloc: Global, text: &str) -> Result<Vec<Lexeme>, AllocError> {
    let bytes = text.as_bytes();
    if bytes.len() > MOST_BYTES {
        return Err(AllocError);
    }
    lexemes(alloc, bytes)
}

/// The tokens of a text, with the places where they stand.
pub fn tokens_of(alloc: Global, text: &str) -> Result<Vec<CSpanned>, AllocError> {
    let mut tokens = Vec::new(alloc);
    for lexeme in &lexemes_of(alloc, text)? {
        put(alloc, &mut tokens, lexeme)?;
    }
    Ok(tokens)
}
