//! The words of the command line: which command they name, with which limits and files.
#![tactic(auto)]

mod files;
mod number;
mod options;
#[cfg(test)]
mod tests;
mod words;

pub use words::{Command, RunWords, command_of_words_is_unique, read_words};
