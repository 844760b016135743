//! Names in scopes: what a name denotes in a scope, by its own declarations, by use association, by host association and by IMPORT.
#![tactic(auto)]

mod scope_names;
mod scopes_around;

pub use scope_names::{denoted, merge};
pub use scopes_around::{visible, visible_around};
