//! The statements of Fortran's specification parts and those that begin, divide and end units, over tokens (ISO/IEC 1539-1:2018, 5.2, 7.5, 8, 14 and
//! 15), as definitions and their laws.
#![tactic(auto)]

mod laws;

pub use laws::{declaration_that_fits_is_read, declaration_that_is_read_fits, one_declaration};
