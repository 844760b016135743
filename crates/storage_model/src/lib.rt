//! Storage as both languages see it: objects of cells, loans of other bytes, pointers, and what an access may do.
#![tactic(auto)]

mod access;
mod beside;
mod cell;
mod chain;
mod ends;
mod held;
mod laws;
mod listing;
mod loan;
mod marks;
mod new;
mod peek;
mod pointer;
mod read;
mod storage;
mod views;
mod write;

pub use cell::{Cell, Did, Kind, Pointer, Spot, View};
pub use laws::{
    ended_objects_are_gone, read_gives_the_last_write, ways_exclude_one_another,
    writes_through_a_loan_arrive,
};
pub use storage::Storage;

#[cfg(test)]
mod tests;
