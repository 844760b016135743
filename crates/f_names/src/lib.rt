//! The rules on names of a Fortran program: its names resolved, or the first broken rule.
#![tactic(auto)]

mod check;
mod lists;
mod walk;

pub use check::{Checked, check_names};
pub use walk::Broken;
