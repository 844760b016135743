//! The headers that are built in.
//!
//! Each has a text, which declares its names and nothing else, but for the name of its guard, so that a text that is read again gives nothing.
#![tactic(auto)]

mod header;
mod texts;

pub use header::{Header, header_named, text_of};
pub use texts::{LIMITS, STDBOOL, STDDEF, STDINT, STDIO, STDLIB, STRING};

#[cfg(test)]
mod tests;
