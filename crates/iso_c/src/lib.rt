//! The module ISO_C_BINDING (ISO/IEC 1539-1:2018, 18.2): its names, and the kinds that they stand for.
#![tactic(auto)]

mod names;

pub use names::{Entity, Procedure, entity_of, kind_of};

#[cfg(test)]
mod tests;
