//! The files of a program, each read from the library up to its statements where it is in Fortran, by its free source form and its grammar, and up to its
//! external declarations where it is in C, behind its preprocessor and by its grammar.
#![tactic(auto)]

mod files;
mod laws;
mod source;

pub use files::read_sources;
pub use laws::{no_broken_rule_beside_sources, one_list_of_sources};
pub use source::{SourceFault, SourceFile, SourceTokens, is_fortran_name};

#[cfg(test)]
mod tests;
