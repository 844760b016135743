//! From a program of the first form to an image that follows its joint meaning.
#![tactic(auto)]

mod chain;

pub use chain::compile;

#[cfg(test)]
mod tests;
