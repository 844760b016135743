//! The header `ISO_Fortran_binding.h`: its text, its codes of types, and the size of its descriptors.
#![tactic(auto)]

mod codes;
mod text;

pub use codes::{CODES, CodeRow, Table, code_row, descriptor_size};
pub use text::{DECLARATIONS, DESCRIPTOR_WORD, declarations};

#[cfg(test)]
mod tests;
