//! The instructions of RV64I with M (the RISC-V unprivileged specification, chapters 2, 5 and 7), and their words.
#![tactic(auto)]

mod decoding;
mod encoding;
mod fields;
mod formats;
mod insn;
mod inverse;
mod rows;
#[cfg(test)]
mod tests;

pub use decoding::decode;
pub use encoding::encode;
pub use insn::Insn;
pub use inverse::{decoded_encodes, encoded_decodes};
