//! Where the values of a procedure of blocks live, and what each home holds along its paths.
#![tactic(auto)]

mod homes;
mod laws;

pub use homes::{Assignment, Home, Verdict};
