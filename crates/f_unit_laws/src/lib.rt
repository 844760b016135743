//! The trees of program units and the trees of their statements, as laws.
#![tactic(auto)]

mod laws;

pub use laws::{one_tree, units_are_derivations};
