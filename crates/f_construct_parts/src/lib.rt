//! The parts of Fortran's constructs: statements taken away one by one, and trees put behind others (ISO/IEC 1539-1:2018, 11.1).
#![tactic(auto)]

pub mod head;
pub mod made;
mod part;
mod statements;
pub mod take;

pub use part::{CaseParts, DoParts, IfBehind, IfEnd, IfParts, RankParts};
pub use statements::{BlockError, Next, Statements, next_line};
