//! How blocks go on.

use super::build::{block, lines};
use block_homes::Home;
use flat_ir::Exceeded;
use flatten::{BlockEnd, BlockProc};
use jf_base::List;
use std::test::Fail;

// However far the blocks are, a branch is the two lines that the assembler makes near or far: to the first block where the value isn't 0, and else to the second.
const BRANCHING: &str = "\
Label(0)
Plain(Ld { rd: 5, rs1: 2, imm: 104 })
Branch { insn: Bne { rs1: 5, rs2: 0, imm: 0 }, to: 1 }
Branch { insn: Jal { rd: 0, imm: 0 }, to: 2 }
Label(1)
Plain(Ld { rd: 10, rs1: 2, imm: 104 })
Plain(Addi { rd: 17, rs1: 0, imm: 93 })
Plain(Ecall)
Label(2)
Plain(Addi { rd: 10, rs1: 0, imm: 1 })
Plain(Addi { rd: 17, rs1: 0, imm: 94 })
Plain(Ecall)
Label(3)
";

#[test]
fn a_branch_goes_to_the_first_block_or_else_to_the_second(rt: HostRuntime) -> Result<(), Fail> {
    let alloc = rt.alloc();
    let blocks = vec![in alloc;
        block(Vec::new(alloc), BlockEnd::Branch(0, 1, 2)),
        block(Vec::new(alloc), BlockEnd::Stop(0)),
        block(Vec::new(alloc), BlockEnd::Limit(Exceeded::Objects)),
    ]?;
    let f = BlockProc {
        params: 0,
        blocks: List::from_vec(blocks),
        values: 1,
        frame: 1088,
    };
    let text = lines(alloc, f, vec![in alloc; Home::Slot(0)]?)?;
    assert!(rt; text.contains(BRANCHING));
    Ok(())
}
