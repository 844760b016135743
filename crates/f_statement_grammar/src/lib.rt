//! The statements of a Fortran file over tokens (ISO/IEC 1539-1:2018, 5.1), as definitions and their laws.
#![tactic(auto)]

mod laws;

pub use laws::{one_statement, statement_that_fits_is_read, statement_that_is_read_fits};
