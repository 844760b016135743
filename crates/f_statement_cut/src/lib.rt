//! The statements of a Fortran file's tokens, and how deep their parentheses and brackets nest (ISO/IEC 1539-1:2018, 6.3.2.4).
#![tactic(auto)]

mod cut;
mod nesting;

pub use cut::{pieces_are_cuts, statement_at};
pub use nesting::too_deep;

#[cfg(test)]
mod tests;
