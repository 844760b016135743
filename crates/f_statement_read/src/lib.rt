//! Reading the statements of Fortran files from tokens (ISO/IEC 1539-1:2018, 5.1): executable ones, those of specification parts, and those that begin,
//! divide and end constructs and units.
#![tactic(auto)]

mod statement;

pub use statement::{Statement, read_statement};

#[cfg(test)]
mod tests;
