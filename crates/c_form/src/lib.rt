//! The tokens that preprocessing tokens of C are converted to, and how tokens are spelled.
#![tactic(auto)]

mod forms;
mod marks;

pub use forms::{put_spelling, token_of};
pub use marks::{mark_of, spelling_of};

#[cfg(test)]
mod tests;
