//! What a Fortran statement does where something is open: which statement may stand where (ISO/IEC 1539-1:2018, 5.1 to 5.3).
#![tactic(auto)]

mod construct;
mod name;
mod part;
mod state;
mod table;
mod unit;

pub use name::name_begun;
pub use state::{Part, Role, Scope, State};
pub use table::role;

#[cfg(test)]
mod tests;
