//! Reading the statements of Fortran's specification parts and those that begin, divide and end units from tokens (ISO/IEC 1539-1:2018, 5.2, 7.5, 8,
//! 14 and 15).
#![tactic(auto)]

mod declaration;
mod group;
mod import;
mod types;
mod uses;

pub use declaration::read_declaration;

#[cfg(test)]
mod tests;
