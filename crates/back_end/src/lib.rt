//! From structured code over bytes to an image that follows it: blocks, registers, lines of assembly, and the linked image.
#![tactic(auto)]

mod chain;

pub use chain::image_of_flat;

#[cfg(test)]
mod tests;
