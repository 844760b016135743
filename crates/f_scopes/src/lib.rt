//! The scopes of a Fortran program: the first broken rule on names and its place, or what each name denotes (ISO/IEC 1539-1:2018, 19).
#![tactic(auto)]

mod check;
mod count;
mod place;
mod reference;
mod scope_table;

pub use check::scopes;
pub use scope_table::Scopes;

#[cfg(test)]
mod tests;
