//! The words that the grammar of C reads, from the tokens behind the preprocessor: translation phases 5 to 7 (ISO/IEC 9899:2011, 5.1.1.2p1).
//!
//! Keywords are told from names, constants have their values and types, escape sequences are read, and string literals that stand side by side are one.
#![tactic(auto)]

mod constant;
mod keyword;
mod laws;
mod literal;
mod made;
mod names;
mod sign;
mod words;

pub use constant::{byte_word, number_word};
pub use keyword::keyword_of;
pub use laws::{
    a_text_has_one_list_of_pieces, character_constants_have_values,
    integer_constants_have_values_and_types, names_are_found_by_their_numbers,
    string_literals_are_joined,
};
pub use sign::sign_of;
pub use words::{Words, words_of};

#[cfg(test)]
mod tests;
