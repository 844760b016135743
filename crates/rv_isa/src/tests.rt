//! Words of the specification's listings, and words that no instruction has.
use crate::{Insn, decode, encode};

#[test]
fn add_immediate_is_stored_low_byte_first(rt: HostRuntime) {
    let insn = Insn::Addi {
        rd: 1,
        rs1: 0,
        imm: 5,
    };
    assert_eq!(rt; decode(0x00500093), Some(insn));
    assert_eq!(rt; encode(&insn).to_le_bytes(), [0x93, 0x00, 0x50, 0x00]);
}

#[test]
fn shifts_have_amounts_of_their_width(rt: HostRuntime) {
    let by_32 = Insn::Slli {
        rd: 1,
        rs1: 1,
        imm: 32,
    };
    assert_eq!(rt; decode(0x02009093), Some(by_32));
    assert_eq!(rt; decode(0x04009093), None);
    assert_eq!(rt; decode(0x0200909b), None);
}

#[test]
fn a_branch_back_keeps_each_bit(rt: HostRuntime) {
    // bne x5, x6, -2048, and jal x1, -4 as the assembler of GNU writes them
    let branch = Insn::Bne {
        rs1: 5,
        rs2: 6,
        imm: 0xffff_ffff_ffff_f800,
    };
    let jump = Insn::Jal {
        rd: 1,
        imm: 0xffff_ffff_ffff_fffc,
    };
    assert_eq!(rt; encode(&branch), 0x806290e3);
    assert_eq!(rt; decode(0x806290e3), Some(branch));
    assert_eq!(rt; encode(&jump), 0xffdff0ef);
    assert_eq!(rt; decode(0xffdff0ef), Some(jump));
}

#[test]
fn only_the_full_fence_decodes(rt: HostRuntime) {
    assert_eq!(rt; decode(0x0ff0000f), Some(Insn::Fence));
    assert_eq!(rt; decode(0x0330000f), None);
    assert_eq!(rt; decode(0x0000100f), None);
    assert_eq!(rt; decode(0x00200073), None);
    assert_eq!(rt; decode(0), None);
}
