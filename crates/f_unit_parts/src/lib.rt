//! The parts of Fortran's program units: statements of specification parts taken apart, and trees put together (ISO/IEC 1539-1:2018, 5.1 to 5.3).
#![tactic(auto)]

pub mod end;
mod field;
mod kind;
pub mod made;
pub mod taken;

pub use field::component;
pub use kind::{Kind, kind_of};
