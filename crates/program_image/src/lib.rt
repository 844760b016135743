//! What the linker makes and the machine loads.
#![tactic(auto)]

use jf_base::List;

/// The bytes of memory from the first address on: first the code, `code_len` bytes that can't be written, then what the code reads and writes.
/// `entry` is the offset of the first instruction that is done.
#[derive(Drop, Debug)]
pub struct Image {
    pub bytes: List<u8>,
    pub code_len: u64,
    pub entry: u64,
}
