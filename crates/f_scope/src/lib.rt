//! The scopes of a Fortran program: in which scope each name stands, and what each scope declares.
#![tactic(auto)]

mod built_in;
mod name_rule;
mod own;
mod placement;
mod program;
mod table;
mod unit_names;

pub use built_in::before_program;
pub use name_rule::{Rule, broken_by};
pub use own::own_tables;
pub use placement::{Placed, Placement, ScopeRow, host_in, place_items};
pub use program::{Begun, Parts, Program, begin, entry_in, item_count, scope_count};
pub use table::{Entry, Table};
pub use unit_names::{collect_unit_names, is_unit_name};
