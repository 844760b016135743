//! Preprocessing tokens of C, from bytes.
//!
//! The bytes of a text become characters, where trigraphs are replaced and lines that end with a backslash are joined. The characters are cut into
//! pieces: preprocessing tokens, white space, line ends, and what has no form. Each but white space is given, with its spelling and its place.
#![tactic(auto)]

mod character;
mod class;
mod kind;
mod laws;
mod lexer;
mod marks;
mod piece;
mod rests;

pub use character::Point;
pub use kind::{Kind, Lexeme};
pub use laws::{
    each_text_consists_of_pieces, lines_are_apart, one_list_of_lexemes, pieces_are_those_read,
    punctuators_are_longest,
};
pub use lexer::lexemes;

#[cfg(test)]
mod tests;
