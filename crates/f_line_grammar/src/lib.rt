//! The statements of a Fortran program's executable part over tokens (ISO/IEC 1539-1:2018, 5.1 and 11.1), as definitions and their laws.
#![tactic(auto)]

mod laws;

pub use laws::{line_that_fits_is_read, line_that_is_read_fits, one_line};
