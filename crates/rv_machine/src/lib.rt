//! A machine of RV64I with M (the RISC-V unprivileged specification) over its own memory.
#![tactic(auto)]

mod alu;
mod event;
mod machine;
mod theorems;

pub use event::{Event, Mode, TrapKind};
pub use machine::{BASE, Machine};
pub use program_image::Image;
pub use theorems::{run_laws, step_laws};

#[cfg(test)]
mod tests;
