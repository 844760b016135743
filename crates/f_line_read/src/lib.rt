//! Reading the statements of a Fortran program's executable part from tokens (ISO/IEC 1539-1:2018, 5.1 and 11.1), with those that begin, divide and
//! end constructs.
#![tactic(auto)]

mod case;
mod line;
mod read;

pub use line::{Construct, Line};
pub use read::read_line;

#[cfg(test)]
mod tests;
