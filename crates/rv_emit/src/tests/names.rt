//! The names of units, and the start of a program.

use super::build::{lines, program, returning, text, units};
use block_homes::Home;
use flat_ir::{Fix, Target};
use flatten::BlockInsn;
use std::test::Fail;

// An address is one line, so the two instructions that the assembler makes of it stand side by side. The image lies behind 20 bytes of code.
const ADDRESSES: &str = "\
Address { rd: 8, name: Text(\"main\"), offset: 25 }
Address { rd: 8, name: Text(\"paaaabcde\"), offset: 0 }
";

#[test]
fn an_address_is_one_line(rt: HostRuntime) -> Result<(), Fail> {
    let alloc = rt.alloc();
    let insns = vec![in alloc;
        BlockInsn::ImageAddress(0, 5),
        BlockInsn::ProcAddress(0, 0x1234),
    ]?;
    let f = returning(alloc, 0, 1, 1088, insns)?;
    let text = lines(alloc, f, vec![in alloc; Home::Register(8)]?)?;
    assert!(rt; text.contains(ADDRESSES));
    Ok(())
}

// An entry that isn't charged takes 112 of the 8,192 bytes that frames have beside their limit: 8,080 = 2 * 4,096 - 112.
const START: &str = "\
Plain(Lui { rd: 3, imm: 8192 })
Plain(Addi { rd: 3, rs1: 3, imm: 18446744073709551504 })
Plain(Add { rd: 3, rs1: 3, rs2: 14 })
Call { name: Text(\"paaaaaaaa\") }
";

#[test]
fn the_last_unit_has_the_start_and_the_image(rt: HostRuntime) -> Result<(), Fail> {
    let alloc = rt.alloc();
    let f = returning(alloc, 0, 0, 0, Vec::new(alloc))?;
    let fixes = vec![in alloc;
        Fix {
            at: 8,
            target: Target::Image(3),
        },
        Fix {
            at: 0,
            target: Target::Proc(0),
        },
    ]?;
    let q = program(alloc, f, vec![in alloc; 7u8; 16]?, fixes)?;
    let units = units(alloc, &q, Vec::new(alloc))?;
    assert_eq!(rt; units.len(), 2);
    let last = units.get(1).ok_or("there is no unit")?;
    assert_eq!(rt; last.name.as_str(), "main");
    assert_eq!(rt; text(alloc, last.lines.as_slice())?.as_str(), START);
    assert_eq!(rt; last.image.as_slice(), [7u8; 16].as_slice());
    let fixes = format!(in alloc; "{:?}", last.fixes)?;
    assert_eq!(rt;
        fixes.as_str(),
        "List([NamedFix { at: 8, name: Text(\"main\"), offset: 23 }, NamedFix { at: 0, name: Text(\"paaaaaaaa\"), offset: 0 }])"
    );
    Ok(())
}
