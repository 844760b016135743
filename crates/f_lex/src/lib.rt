//! Tokens of Fortran's free source form, from bytes.
//!
//! A text is cut into pieces: tokens, and the blanks, comments, line ends and continuations that stand between them. Its tokens are those of its
//! pieces, and of each line and each piece it is asked which rules it breaks.
#![tactic(auto)]

mod class;
mod fault;
mod laws;
mod lexer;
mod lines;
mod piece;
mod reader;
mod text;
mod token;
mod words;

pub use laws::{
    each_text_consists_of_pieces, no_broken_rule_beside_tokens, one_first_broken_rule,
    one_list_of_tokens, pieces_are_those_read, tokens_or_a_broken_rule,
};
pub use lexer::lex;
pub use token::{Kind, Mark, Spanned, Token};

#[cfg(test)]
mod tests;
