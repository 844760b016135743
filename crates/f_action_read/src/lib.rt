//! Reading Fortran's action statements from tokens (ISO/IEC 1539-1:2018, 5.1, R515).
#![tactic(auto)]

mod action;
mod list;
mod mark;

pub use action::{assigned, by_word, read_action, target};
pub use mark::{arrow_at, assign_at, closed, comma, copied, opened, star};

#[cfg(test)]
mod tests;
