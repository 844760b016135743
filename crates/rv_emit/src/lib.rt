//! Blocks with homes to units of assembly, by the calling convention of the RISC-V ELF psABI.
#![tactic(auto)]

mod frame;
mod homes;
mod insns;
mod machine;
mod names;
mod procedures;
mod units;
mod writer;

pub use frame::frame_size;
pub use units::emit;

#[cfg(test)]
mod tests;
