//! Blocks with homes as lines of assembly: what each instruction, block and procedure becomes, by the calling convention of the RISC-V ELF psABI, and that the image of these lines follows the blocks.
#![tactic(auto)]

mod laws;

pub use laws::{flat_programs_can_be_emitted, images_follow_blocks, images_follow_flat_programs};
