//! Reads words, each a line of hexadecimal digits, and prints for each the instruction that it decodes to with that instruction's word,
//! or `none`. `scripts/compare-isa.sh` compares what it prints with what an assembler of RISC-V makes.
#![tactic(auto)]

use rv_isa::{Insn, decode, decoded_encodes, encode};
use std::alloc::{AllocError, Global};
use std::io;

/// The line for a word: what it decodes to.
fn line_of(alloc: Global, text: &str) -> Result<String, AllocError> {
    let Ok(word) = u32::from_str_radix(text, 16) else {
        return format!(in alloc; "{text}: no word");
    };
    match decode(word) {
        Some(insn) => {
            decoded_encodes(word);
            let again = encode(&insn);
            shown(alloc, again, insn)
        }
        None => format!(in alloc; "none"),
    }
}

fn shown(alloc: Global, word: u32, insn: Insn) -> Result<String, AllocError> {
    format!(in alloc; "{word:08x} {insn:?}")
}

fn main(rt: HostRuntime) -> io::Result<()> {
    for line in rt.lines(rt.alloc()) {
        let shown = line_of(rt.alloc(), line?.as_str())?;
        println!(rt; "{shown}")?;
    }
    Ok(())
}
