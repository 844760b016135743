//! The names in scope while a C text is read (ISO/IEC 9899:2011, 6.2.1 and 6.7.8): which of them are names of types.
#![tactic(auto)]

mod scope;

pub use scope::Scope;

#[cfg(test)]
mod tests;
