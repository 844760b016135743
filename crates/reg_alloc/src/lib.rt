//! Homes for the values of a procedure of blocks: whether an assignment keeps each value, and one that does.
#![tactic(auto)]

mod occurrences;
mod places;
mod program;
mod ranges;
mod reach;
mod scan;
mod trace;
mod verdict;

pub use block_homes::{Assignment, Home, Verdict};
pub use program::assign_all;
pub use scan::assign;
pub use verdict::validate;

#[cfg(test)]
mod tests;
