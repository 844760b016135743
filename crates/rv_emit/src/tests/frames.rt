//! Frames.

use super::build::{lines, returning};
use crate::frame_size;
use block_homes::Home;
use flatten::BlockInsn;
use jf_base::List;
use std::test::Fail;

// The frame is charged 1,088 bytes: where less is left, which is x2 less x3, the run ends at the limit of frames.
const CHARGED: &str = "\
Plain(Addi { rd: 6, rs1: 0, imm: 1088 })
Plain(Sub { rd: 5, rs1: 2, rs2: 3 })
Branch { insn: Bltu { rs1: 5, rs2: 6, imm: 0 }, to: 1 }
Plain(Sub { rd: 2, rs1: 2, rs2: 6 })
Plain(Sd { rs1: 2, rs2: 1, imm: 0 })
Label(0)
Plain(Ld { rd: 1, rs1: 2, imm: 0 })
Plain(Addi { rd: 5, rs1: 0, imm: 1088 })
Plain(Add { rd: 2, rs1: 2, rs2: 5 })
Plain(Jalr { rd: 0, rs1: 1, imm: 0 })
Label(1)
Plain(Addi { rd: 10, rs1: 0, imm: 0 })
Plain(Addi { rd: 17, rs1: 0, imm: 94 })
Plain(Ecall)
";

#[test]
fn a_charged_frame_is_tested_and_given_back(rt: HostRuntime) -> Result<(), Fail> {
    let alloc = rt.alloc();
    let f = returning(alloc, 0, 0, 1088, Vec::new(alloc))?;
    assert_eq!(rt; lines(alloc, f, Vec::new(alloc))?.as_str(), CHARGED);
    Ok(())
}

// The frame has 112 bytes, which are the return address, twelve registers, and a word to round.
const FREE: &str = "\
Plain(Addi { rd: 6, rs1: 0, imm: 112 })
Plain(Sub { rd: 2, rs1: 2, rs2: 6 })
Plain(Sd { rs1: 2, rs2: 1, imm: 0 })
Label(0)
Plain(Ld { rd: 1, rs1: 2, imm: 0 })
Plain(Addi { rd: 5, rs1: 0, imm: 112 })
Plain(Add { rd: 2, rs1: 2, rs2: 5 })
Plain(Jalr { rd: 0, rs1: 1, imm: 0 })
";

#[test]
fn a_frame_without_a_charge_has_no_limit(rt: HostRuntime) -> Result<(), Fail> {
    let alloc = rt.alloc();
    let f = returning(alloc, 0, 0, 0, Vec::new(alloc))?;
    assert_eq!(rt; lines(alloc, f, Vec::new(alloc))?.as_str(), FREE);
    Ok(())
}

// x9 and x18 are homes: the third and the fourth of the thirteen words for registers that are kept.
const KEEPING: &str = "\
Plain(Addi { rd: 6, rs1: 0, imm: 128 })
Plain(Sub { rd: 2, rs1: 2, rs2: 6 })
Plain(Sd { rs1: 2, rs2: 1, imm: 0 })
Plain(Sd { rs1: 2, rs2: 9, imm: 16 })
Plain(Sd { rs1: 2, rs2: 18, imm: 24 })
Label(0)
Plain(Ld { rd: 1, rs1: 2, imm: 0 })
Plain(Ld { rd: 9, rs1: 2, imm: 16 })
Plain(Ld { rd: 18, rs1: 2, imm: 24 })
Plain(Addi { rd: 5, rs1: 0, imm: 128 })
Plain(Add { rd: 2, rs1: 2, rs2: 5 })
Plain(Jalr { rd: 0, rs1: 1, imm: 0 })
";

#[test]
fn a_saved_register_is_restored(rt: HostRuntime) -> Result<(), Fail> {
    let alloc = rt.alloc();
    let f = returning(alloc, 0, 2, 0, Vec::new(alloc))?;
    let homes = vec![in alloc; Home::Register(18), Home::Register(9)]?;
    assert_eq!(rt; lines(alloc, f, homes)?.as_str(), KEEPING);
    Ok(())
}

// The slot lies at 104 + 8 * 300 = 4,096 - 1,592 bytes from x2.
const FAR: &str = "\
Plain(Addi { rd: 5, rs1: 0, imm: 9 })
Plain(Lui { rd: 7, imm: 4096 })
Plain(Addi { rd: 7, rs1: 7, imm: 18446744073709550024 })
Plain(Add { rd: 7, rs1: 7, rs2: 2 })
Plain(Sd { rs1: 7, rs2: 5, imm: 0 })
";

#[test]
fn a_far_slot_is_reached_over_x7(rt: HostRuntime) -> Result<(), Fail> {
    let alloc = rt.alloc();
    let insns = vec![in alloc; BlockInsn::Number(0, 9)]?;
    let f = returning(alloc, 0, 301, 4096, insns)?;
    let text = lines(alloc, f, vec![in alloc; Home::Slot(300)]?)?;
    assert!(rt; text.contains(FAR));
    Ok(())
}

// A slot for each of 3 values, 2 words that a call passes, 13 registers that are kept, and a word to round: 19 words, rounded down to 18.
#[test]
fn the_size_of_a_frame(rt: HostRuntime) -> Result<(), Fail> {
    let alloc = rt.alloc();
    let arguments = List::from_vec(vec![in alloc; 0u32; 10]?);
    let call = BlockInsn::Call(List::from_vec(Vec::new(alloc)), 0, arguments);
    let mut f = returning(alloc, 0, 3, 0, vec![in alloc; call]?)?;
    assert_eq!(rt; frame_size(&f)?, 144);
    f.frame = 4096;
    assert_eq!(rt; frame_size(&f)?, 4096);
    Ok(())
}
