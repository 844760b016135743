//! The units of a program can be assembled and linked. A function that does nothing has a theorem as its contract.
#![tactic(auto)]

mod laws;

pub use laws::{units_are_closed, units_are_proper, units_stay_within};
