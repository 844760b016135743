//! How far a unit's specification part has come, put together statement by statement (ISO/IEC 1539-1:2018, 5.3.2, R504).
#![tactic(auto)]

mod nested;
mod putting;
mod stage;

pub use nested::{put_interface, put_type};
pub use putting::put;
pub use stage::{Imported, Stage, Uses, begin, specification};
