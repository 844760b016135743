//! Use association: the names that each scope of a Fortran program gets by USE statements, and from which entities.
#![tactic(auto)]

mod associated;
mod module_names;
mod origins;
mod places;
mod statements;

pub use associated::{Associated, associate, lists_of};
pub use module_names::{entity_of, grant};
pub use origins::{Origins, add, add_entry, add_some, origins_of};
pub use places::{Places, no_lists, places_in, put_at, use_places};
pub use statements::build_table;
