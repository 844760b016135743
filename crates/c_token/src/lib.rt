//! Tokens of C behind the preprocessor, with their places.
#![tactic(auto)]

mod mark;
mod token;

pub use mark::Mark;
pub use token::{CSpanned, CToken};

#[cfg(test)]
mod tests;
