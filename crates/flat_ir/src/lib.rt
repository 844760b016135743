//! Structured code over numbers of 64 bits and over bytes: what it is, what it does by units, and whether a program of it holds together.
#![tactic(auto)]

mod checks;
mod laws;
mod program;
#[cfg(test)]
mod tests;

pub use checks::flat_ok;
pub use laws::{depth_is_free, flat_is_a_run};
pub use program::{Exceeded, Fix, FlatExpr, FlatProc, FlatProgram, FlatStmt, Operation, Target};
