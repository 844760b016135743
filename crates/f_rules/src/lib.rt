//! The rules on names of a Fortran program, item by item: which an item breaks first.
#![tactic(auto)]

mod broken;
mod declared_types;
mod parts;
mod rule;
mod stand;

pub use broken::broken_rule;
pub use declared_types::{PartType, component_at};
pub use parts::part_types;
pub use rule::NameRule;
pub use stand::{Stand, class_at, stand_at};
