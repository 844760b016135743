//! Programs of the first form as structured code over bytes.
#![tactic(auto)]

mod laws;
mod lowering;

pub use laws::{structured_code_does_its_units, structured_code_follows_the_joint_meaning};
pub use lowering::lower;

#[cfg(test)]
mod tests;
