//! Calls.

use super::build::{lines, returning};
use block_homes::Home;
use flatten::BlockInsn;
use jf_base::List;
use std::test::Fail;

// The words that are passed lie at the stack pointer, so the first register that is kept lies at 8 * 2 + 8.
const PASSING: &str = "\
Label(0)
Plain(Addi { rd: 10, rs1: 8, imm: 0 })
Plain(Addi { rd: 11, rs1: 8, imm: 0 })
Plain(Addi { rd: 12, rs1: 8, imm: 0 })
Plain(Addi { rd: 13, rs1: 8, imm: 0 })
Plain(Addi { rd: 14, rs1: 8, imm: 0 })
Plain(Addi { rd: 15, rs1: 8, imm: 0 })
Plain(Addi { rd: 16, rs1: 8, imm: 0 })
Plain(Addi { rd: 17, rs1: 8, imm: 0 })
Plain(Addi { rd: 5, rs1: 8, imm: 0 })
Plain(Sd { rs1: 2, rs2: 5, imm: 0 })
Plain(Addi { rd: 5, rs1: 8, imm: 0 })
Plain(Sd { rs1: 2, rs2: 5, imm: 8 })
Call { name: Text(\"paaaaaaaa\") }
Plain(Addi { rd: 8, rs1: 10, imm: 0 })
Plain(Ld { rd: 1, rs1: 2, imm: 16 })
Plain(Ld { rd: 8, rs1: 2, imm: 24 })
";

#[test]
fn arguments_behind_the_eighth_lie_on_the_stack(rt: HostRuntime) -> Result<(), Fail> {
    let alloc = rt.alloc();
    let arguments = List::from_vec(vec![in alloc; 0u32; 10]?);
    let results = List::from_vec(vec![in alloc; 0u32]?);
    let call = BlockInsn::Call(results, 0, arguments);
    let f = returning(alloc, 0, 1, 1088, vec![in alloc; call]?)?;
    let text = lines(alloc, f, vec![in alloc; Home::Register(8)]?)?;
    assert!(rt; text.contains(PASSING));
    Ok(())
}

// Those of the caller lie behind the frame of 1,088 bytes.
const RECEIVING: &str = "\
Plain(Sd { rs1: 2, rs2: 10, imm: 104 })
Plain(Sd { rs1: 2, rs2: 11, imm: 112 })
Plain(Sd { rs1: 2, rs2: 12, imm: 120 })
Plain(Sd { rs1: 2, rs2: 13, imm: 128 })
Plain(Sd { rs1: 2, rs2: 14, imm: 136 })
Plain(Sd { rs1: 2, rs2: 15, imm: 144 })
Plain(Sd { rs1: 2, rs2: 16, imm: 152 })
Plain(Sd { rs1: 2, rs2: 17, imm: 160 })
Plain(Ld { rd: 5, rs1: 2, imm: 1088 })
Plain(Sd { rs1: 2, rs2: 5, imm: 168 })
Plain(Ld { rd: 5, rs1: 2, imm: 1096 })
Plain(Sd { rs1: 2, rs2: 5, imm: 176 })
Label(0)
";

#[test]
fn parameters_go_to_their_homes(rt: HostRuntime) -> Result<(), Fail> {
    let alloc = rt.alloc();
    let f = returning(alloc, 10, 10, 1088, Vec::new(alloc))?;
    let mut homes = Vec::new(alloc);
    for k in 0..10u32 {
        homes.push(Home::Slot(k))?;
    }
    assert!(rt; lines(alloc, f, homes)?.contains(RECEIVING));
    Ok(())
}

const AT: &str = "\
Label(0)
Plain(Addi { rd: 10, rs1: 9, imm: 0 })
Plain(Addi { rd: 6, rs1: 8, imm: 0 })
Plain(Jalr { rd: 1, rs1: 6, imm: 0 })
Plain(Addi { rd: 8, rs1: 10, imm: 0 })
Plain(Addi { rd: 9, rs1: 11, imm: 0 })
";

#[test]
fn a_call_at_an_address_gives_two_results(rt: HostRuntime) -> Result<(), Fail> {
    let alloc = rt.alloc();
    let results = List::from_vec(vec![in alloc; 0u32, 1u32]?);
    let arguments = List::from_vec(vec![in alloc; 1u32]?);
    let call = BlockInsn::CallAt(results, 0, arguments);
    let f = returning(alloc, 0, 2, 1088, vec![in alloc; call]?)?;
    let homes = vec![in alloc; Home::Register(8), Home::Register(9)]?;
    assert!(rt; lines(alloc, f, homes)?.contains(AT));
    Ok(())
}
