//! Units whose words are known from an assembler.
ghost use Rattle.std.specs.Prelude.{◌≡◌, [], ◌∷◌, IfOk, OnOk, Some, slice_get};
ghost use Rattle.rv_isa.specs.declared.insn.Insn.TheVariants.{Beq};
ghost use Rattle.rv_assemble.specs.declared.unit.AsmLine.{AsmLine};
ghost use Rattle.rv_assemble.specs.declared.unit.AsmLine.TheVariants.{Label};
ghost use Rattle.rv_assemble.specs.Lines.{AreProperLines, IsProperLine, IsProperUnit};

use crate::{AsmLine, AsmUnit, RelocationKind, assemble};
use jf_base::{List, Text};
use rv_isa::Insn;
use std::alloc::{AllocError, Global};
use std::test::Fail;

const NOTHING: Insn = Insn::Addi {
    rd: 0,
    rs1: 0,
    imm: 0,
};

const BRANCH: Insn = Insn::Beq {
    rs1: 5,
    rs2: 6,
    imm: 0,
};

fn start(alloc: Global) -> Result<Vec<AsmLine>, AllocError>
    ensures proper { IfOk result (λ lines. AreProperLines lines.items) }
    ensures label { IfOk result (λ lines. slice_get lines.items 0 ≡ Some (Label 1)) }
{
    let mut lines = Vec::new(alloc);
    lines.push(AsmLine::Label(1))?;
    Ok(lines)
}

fn add(lines: &mut Vec<AsmLine>, line: AsmLine) -> Result<(), AllocError>
    requires lines { AreProperLines lines.old.items }
    requires label { slice_get lines.old.items 0 ≡ Some (Label 1) }
    requires line { IsProperLine lines.old.items line }
    ensures proper { OnOk result (AreProperLines lines.new.items) }
    ensures label { OnOk result (slice_get lines.new.items 0 ≡ Some (Label 1)) }
{
    lines.push(line)?;
    Ok(())
}

fn add_branch(lines: &mut Vec<AsmLine>) -> Result<(), AllocError>
    requires lines { AreProperLines lines.old.items }
    requires label { slice_get lines.old.items 0 ≡ Some (Label 1) }
    ensures proper { OnOk result (AreProperLines lines.new.items) }
    ensures label { OnOk result (slice_get lines.new.items 0 ≡ Some (Label 1)) }
{
    let line = AsmLine::Branch {
        insn: BRANCH,
        to: 1,
    };
    add(lines, line)
}

fn add_nothing(lines: &mut Vec<AsmLine>, count: u32) -> Result<(), AllocError>
    requires lines { AreProperLines lines.old.items }
    requires label { slice_get lines.old.items 0 ≡ Some (Label 1) }
    ensures proper { OnOk result (AreProperLines lines.new.items) }
    ensures label { OnOk result (slice_get lines.new.items 0 ≡ Some (Label 1)) }
{
    for _ in 0..count {
        add(lines, AsmLine::Plain(NOTHING))?;
    }
    Ok(())
}

fn unit_of(alloc: Global, lines: Vec<AsmLine>) -> Result<AsmUnit, AllocError>
    requires { AreProperLines lines.items }
    ensures { IfOk result (λ u. IsProperUnit u) }
{
    let name = Text::from_text(alloc, "f")?;
    Ok(AsmUnit {
        name,
        lines: List::from_vec(lines),
        image: List::from_vec(Vec::new(alloc)),
        fixes: List::from_vec(Vec::new(alloc)),
    })
}

#[test]
fn a_branch_over_5000_bytes_goes_over_a_jump(rt: HostRuntime) -> Result<(), Fail> {
    let mut lines = start(rt.alloc())?;
    add_nothing(&mut lines, 1250)?;
    add_branch(&mut lines)?;
    let u = unit_of(rt.alloc(), lines)?;
    let o = assemble(rt.alloc(), &u)?;
    let code = o.code.as_slice();
    assert_eq!(rt; code.len(), 5008);
    // bne x5, x6, 8 and jal x0, -5004
    assert_eq!(rt;
        &code[5000..],
        [0x63, 0x94, 0x62, 0x00, 0x6f, 0xe0, 0x5f, 0xc7].as_slice()
    );
    Ok(())
}

#[test]
fn a_near_branch_is_one_word_and_a_call_asks(rt: HostRuntime) -> Result<(), Fail> {
    let mut lines = start(rt.alloc())?;
    add_nothing(&mut lines, 1)?;
    add_branch(&mut lines)?;
    let name = Text::from_text(rt.alloc(), "g")?;
    add(&mut lines, AsmLine::Call { name })?;
    let u = unit_of(rt.alloc(), lines)?;
    let o = assemble(rt.alloc(), &u)?;
    let code = o.code.as_slice();
    // addi x0, x0, 0; beq x5, x6, -4; auipc x1, 0; jalr x1, 0(x1)
    assert_eq!(rt;
        code,
        [
            0x13, 0x00, 0x00, 0x00, 0xe3, 0x8e, 0x62, 0xfe, 0x97, 0x00, 0x00, 0x00, 0xe7, 0x80,
            0x00, 0x00,
        ]
        .as_slice()
    );
    let asked = o.relocations.as_slice();
    assert_eq!(rt; asked.len(), 1);
    assert_eq!(rt; asked[0].at, 8);
    assert_eq!(rt; asked[0].offset, 0);
    assert_eq!(rt; asked[0].kind, RelocationKind::Pair);
    assert_eq!(rt; asked[0].name.as_str(), "g");
    Ok(())
}
