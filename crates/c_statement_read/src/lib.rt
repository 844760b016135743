//! Reading C's statements from tokens, with the names of types in scope (ISO/IEC 9899:2011, 6.8).
#![tactic(auto)]

mod made;
mod part;
mod read;
mod statement;
mod word;

pub use read::{read_block, read_statement};
