//! Procedures of basic blocks in three-address form, the machine that runs them, and structured code as blocks.
#![tactic(auto)]

mod blocks;
mod emit;
mod emitter;
mod expressions;
mod measure;
mod program;
mod stack;

pub use blocks::{Block, BlockEnd, BlockInsn, BlockProc, BlockProgram};
pub use program::flatten;
