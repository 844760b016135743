//! Reading C's declarations with their initial values from tokens, with the names of types in scope (ISO/IEC 9899:2011, 6.7).
#![tactic(auto)]

mod declaration;
mod initializer;
mod made;
mod word;

pub use declaration::{declare, read_behind_declarator, read_declaration, read_declarators};
pub use made::bare_declaration;
pub use word::{brace_opened, ends_declaration};

#[cfg(test)]
mod tests;
