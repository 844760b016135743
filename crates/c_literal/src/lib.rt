//! What the constants and string literals of C stand for, from their spellings.
//!
//! An integer constant has a value and a type, a character constant is a byte, and a string literal is bytes. What has none of the forms, or is out of
//! range, is told by `None`; in a text it breaks the rule that each token has one of the forms and each constant fits `unsigned long`.
#![tactic(auto)]

mod digits;
mod element;
mod integer;
mod laws;
mod literal;
mod suffix;

pub use c_tree::ConstantType;
pub use integer::{IntegerConstant, LongSuffix, Radix, integer_constant};
pub use laws::{one_character, one_constant, one_string};
pub use literal::{between_quotes, character_constant, is_string_literal, string_literal};

#[cfg(test)]
mod tests;
