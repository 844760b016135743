//! Reading the statements of a Fortran file from its tokens, up to the first that breaks a rule (ISO/IEC 1539-1:2018, 5.1 to 5.3).
#![tactic(auto)]

mod laws;
mod reading;
mod stack;

pub use laws::{statements_of_a_file_are_read, what_is_read_is_a_file, where_a_file_is_broken};
pub use reading::read_statements;

#[cfg(test)]
mod tests;
