//! Units that the machine runs.
ghost use Rattle.std.specs.Prelude.{◌≡◌, ◌++◌, [], ◌∷◌, IfOk, OnOk};
ghost use Rattle.assembled_run.specs.Trial.{end_lines, sums, over_lines, leaf_lines, calling_lines, bare_unit, over_units, calling_units};

use crate::image_of;
use jf_base::{Limits, List, Memory, Text};
use program_image::Image;
use rv_assemble::{AsmLine, AsmUnit};
use rv_isa::Insn;
use rv_machine::{Event, Machine};
use std::alloc::{AllocError, Global};
use std::test::Fail;

const A0: u8 = 10;

fn add_end(lines: &mut Vec<AsmLine>) -> Result<(), AllocError>
    ensures { OnOk result (lines.new.items ≡ lines.old.items ++ end_lines) }
{
    lines.push(AsmLine::Plain(Insn::Addi {
        rd: 17,
        rs1: 0,
        imm: 93,
    }))?;
    lines.push(AsmLine::Plain(Insn::Ecall))?;
    Ok(())
}

/// So many instructions that add 1 to a0.
fn add_sums(lines: &mut Vec<AsmLine>, count: u32) -> Result<(), AllocError>
    ensures { OnOk result (lines.new.items ≡ lines.old.items ++ sums count) }
{
    for _ in 0..count {
        lines.push(AsmLine::Plain(Insn::Addi {
            rd: A0,
            rs1: A0,
            imm: 1,
        }))?;
    }
    Ok(())
}

/// 7 into a0, and a branch over so many instructions that add 1 to it.
fn lines_over(alloc: Global, count: u32) -> Result<Vec<AsmLine>, AllocError>
    ensures { IfOk result (λ lines. lines.items ≡ over_lines count) }
{
    let mut lines = Vec::new(alloc);
    lines.push(AsmLine::Plain(Insn::Addi {
        rd: A0,
        rs1: 0,
        imm: 7,
    }))?;
    let insn = Insn::Beq {
        rs1: 0,
        rs2: 0,
        imm: 0,
    };
    lines.push(AsmLine::Branch { insn, to: 1 })?;
    add_sums(&mut lines, count)?;
    lines.push(AsmLine::Label(1))?;
    add_end(&mut lines)?;
    Ok(lines)
}

fn leaf(alloc: Global) -> Result<Vec<AsmLine>, AllocError>
    ensures { IfOk result (λ lines. lines.items ≡ leaf_lines) }
{
    let mut lines = Vec::new(alloc);
    lines.push(AsmLine::Plain(Insn::Addi {
        rd: A0,
        rs1: 0,
        imm: 5,
    }))?;
    lines.push(AsmLine::Plain(Insn::Jalr {
        rd: 0,
        rs1: 1,
        imm: 0,
    }))?;
    Ok(lines)
}

fn caller(alloc: Global) -> Result<Vec<AsmLine>, AllocError>
    ensures { IfOk result (λ lines. lines.items ≡ calling_lines) }
{
    let mut lines = Vec::new(alloc);
    let name = Text::from_text(alloc, "f")?;
    lines.push(AsmLine::Call { name })?;
    add_end(&mut lines)?;
    Ok(lines)
}

fn bare(alloc: Global, name: &str, lines: Vec<AsmLine>) -> Result<AsmUnit, AllocError>
    ensures { IfOk result (λ u. u ≡ bare_unit name.now lines.items) }
{
    Ok(AsmUnit {
        name: Text::from_text(alloc, name)?,
        lines: List::from_vec(lines),
        image: List::from_vec(Vec::new(alloc)),
        fixes: List::from_vec(Vec::new(alloc)),
    })
}

fn units_over(alloc: Global, count: u32) -> Result<Vec<AsmUnit>, AllocError>
    ensures { IfOk result (λ units. units.items ≡ over_units count) }
{
    let lines = lines_over(alloc, count)?;
    let main = bare(alloc, "main", lines)?;
    let mut units = Vec::new(alloc);
    units.push(main)?;
    Ok(units)
}

fn units_with_a_call(alloc: Global) -> Result<Vec<AsmUnit>, AllocError>
    ensures { IfOk result (λ units. units.items ≡ calling_units) }
{
    let lines = caller(alloc)?;
    let main = bare(alloc, "main", lines)?;
    let called = leaf(alloc)?;
    let f = bare(alloc, "f", called)?;
    let mut units = Vec::new(alloc);
    units.push(main)?;
    units.push(f)?;
    Ok(units)
}

fn image_over(alloc: Global, count: u32) -> Result<Image, Memory> {
    let units = units_over(alloc, count)?;
    image_of(alloc, units.as_slice())
}

fn image_with_a_call(alloc: Global) -> Result<Image, Memory> {
    let units = units_with_a_call(alloc)?;
    image_of(alloc, units.as_slice())
}

/// The event of the last of so many steps.
fn last_event(alloc: Global, image: &Image, steps: u32) -> Result<Event, Memory> {
    let mut machine = Machine::load(alloc, image, Limits::standard())?;
    let mut event = Event::Ran;
    for _ in 0..steps {
        event = machine.step(None);
    }
    Ok(event)
}

#[test]
fn a_branch_over_5000_bytes_is_taken(rt: HostRuntime) -> Result<(), Fail> {
    let alloc = rt.alloc();
    let image = image_over(alloc, 1250).ok().ok_or("no memory")?;
    // the 7, BNE and JAL, the call's number, and ECALL
    let event = last_event(alloc, &image, 5).ok().ok_or("no memory")?;
    assert_eq!(rt; event, Event::Exit(7));
    Ok(())
}

#[test]
fn a_branch_over_1200000_bytes_is_taken(rt: HostRuntime) -> Result<(), Fail> {
    let alloc = rt.alloc();
    let image = image_over(alloc, 300_000).ok().ok_or("no memory")?;
    // the 7, BNE, AUIPC and JALR, the call's number, and ECALL
    let event = last_event(alloc, &image, 6).ok().ok_or("no memory")?;
    assert_eq!(rt; event, Event::Exit(7));
    Ok(())
}

#[test]
fn a_unit_calls_another(rt: HostRuntime) -> Result<(), Fail> {
    let alloc = rt.alloc();
    let image = image_with_a_call(alloc).ok().ok_or("no memory")?;
    // AUIPC and JALR, the 5 and the return, the call's number, and ECALL
    let event = last_event(alloc, &image, 6).ok().ok_or("no memory")?;
    assert_eq!(rt; event, Event::Exit(5));
    Ok(())
}
