//! Lines of assembly and their bytes: labels, branches near and far, and what the linker has to fill in.
#![tactic(auto)]

mod assembling;
mod labels;
mod object;
mod places;
#[cfg(test)]
mod tests;
mod unit;
mod words;

pub use assembling::assemble;
pub use object::{ObjUnit, Relocation, RelocationKind};
pub use unit::{AsmLine, AsmUnit, NamedFix};
pub use words::parts_of;
