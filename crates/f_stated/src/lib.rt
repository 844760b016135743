//! What the statements of a Fortran program say of names apart from declaring them: which names of a module are accessible outside it, which names a
//! scope imports, and which names a scope gives another name.
#![tactic(auto)]

mod said;
mod stated;
mod tables;

pub use said::Saying;
pub use stated::{Stated, state};
pub use tables::said_tables;
