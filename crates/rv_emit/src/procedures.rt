//! The lines of a procedure.

ghost use Rattle.std.specs.Prelude.{◌≡◌, ◌<◌, ◌^◌, [], length, IfOk, OnOk};
ghost use Rattle.emitted_code.specs.Straight.{lines};
ghost use Rattle.emitted_code.specs.Frames.{is_charged, layout_of, saved_of};
ghost use Rattle.emitted_code.specs.Code.{save, receive, limit_number, limit_code, end_code, rest_code, blocks_code, enter_code, past_code, proc_lines};
ghost use Rattle.flatten.specs.declared.blocks.BlockEnd.TheVariants as E;

use crate::frame::{Frame, is_charged};
use crate::homes::{fetch, give_results, leave, operand_register, read, receive, save};
use crate::insns::{insn, system_call};
use crate::machine::{A0, GP, RA, SP, T0, T1, ZERO};
use crate::writer::Writer;
use block_homes::Home;
use flat_ir::Exceeded;
use flatten::{Block, BlockEnd, BlockProc};
use jf_base::List;
use rv_assemble::AsmLine;
use rv_isa::Insn;
use std::alloc::{AllocError, Global};

/// The environment's call that ends the run with a stop code.
const STOP: u64 = 93;

/// The environment's call that ends the run at a limit.
const LIMIT: u64 = 94;

/// The limit on frames, as the environment's call takes it.
const FRAMES: u64 = 0;

fn number_of(e: Exceeded) -> u64
    ensures { result ≡ limit_number e }
{
    match e {
        Exceeded::Frames => FRAMES,
        Exceeded::Objects => 1,
    }
}

fn end_at_limit(out: &mut Writer, n: u64) -> Result<(), AllocError>
    ensures { OnOk result (out.new ≡ limit_code n out.old) }
{
    system_call(out, LIMIT)?;
    out.plain(Insn::Addi {
        rd: A0,
        rs1: ZERO,
        imm: n,
    })
}

fn jump(out: &mut Writer, _f: &Frame, to: u32) -> Result<(), AllocError>
    ensures { OnOk result (out.new ≡ end_code _f.now (E.Jump to) out.old) }
{
    let insn = Insn::Jal { rd: ZERO, imm: 0 };
    out.put(AsmLine::Branch { insn, to })
}

fn branch(out: &mut Writer, f: &Frame, y: u32, a: u32, b: u32) -> Result<(), AllocError>
    ensures { OnOk result (out.new ≡ end_code f.now (E.Branch y a b) out.old) }
{
    let home = f.home(y);
    let insn = Insn::Jal { rd: ZERO, imm: 0 };
    out.put(AsmLine::Branch { insn, to: b })?;
    let insn = Insn::Bne {
        rs1: operand_register(home, T0),
        rs2: ZERO,
        imm: 0,
    };
    out.put(AsmLine::Branch { insn, to: a })?;
    fetch(out, f, home, T0)
}

#[tactic(auto, using(crate::proofs::Pieces::append))]
fn return_with(out: &mut Writer, f: &Frame, ys: &[u32]) -> Result<(), AllocError>
    ensures { OnOk result (out.new ≡ end_code f.now (E.Return ys.now) out.old) }
{
    out.plain(Insn::Jalr {
        rd: ZERO,
        rs1: RA,
        imm: 0,
    })?;
    leave(out, f)?;
    give_results(out, f, ys)
}

fn stop(out: &mut Writer, f: &Frame, y: u32) -> Result<(), AllocError>
    ensures { OnOk result (out.new ≡ end_code f.now (E.Stop y) out.old) }
{
    system_call(out, STOP)?;
    read(out, f, f.home(y), A0)
}

fn end(out: &mut Writer, f: &Frame, e: &BlockEnd) -> Result<(), AllocError>
    ensures { OnOk result (out.new ≡ end_code f.now e.now out.old) }
{
    match e {
        BlockEnd::Jump(b) => jump(out, f, *b),
        BlockEnd::Branch(y, a, b) => branch(out, f, *y, *a, *b),
        BlockEnd::Return(ys) => return_with(out, f, ys.as_slice()),
        BlockEnd::Stop(y) => stop(out, f, *y),
        BlockEnd::Limit(e) => end_at_limit(out, number_of(*e)),
    }
}

fn block(alloc: Global, out: &mut Writer, f: &Frame, b: &Block) -> Result<(), AllocError>
    ensures { OnOk result (out.new ≡ rest_code f.now b.now.insns b.now.end out.old) }
{
    end(out, f, &b.end)?;
    let insns = b.insns.as_slice();
    for i in (0..insns.len()).rev() {
        insn(alloc, out, f, &insns[i])?;
    }
    Ok(())
}

// Blocks, the first of which has the number 0.
fn all_blocks(alloc: Global, out: &mut Writer, f: &Frame, bs: &[Block]) -> Result<(), AllocError>
    requires { length bs.now < 2 ^ 32 }
    ensures { OnOk result (out.new ≡ blocks_code f.now 0 bs.now out.old) }
{
    for i in (0..bs.len()).rev() {
        block(alloc, out, f, &bs[i])?;
        out.put(AsmLine::Label(i as u32))?;
    }
    Ok(())
}

fn enter(out: &mut Writer, f: &Frame, charged: bool, limit: u32) -> Result<(), AllocError>
    ensures { OnOk result (out.new ≡ enter_code charged f.now limit out.old) }
{
    out.plain(Insn::Sub {
        rd: SP,
        rs1: SP,
        rs2: T1,
    })?;
    if charged {
        let insn = Insn::Bltu {
            rs1: T0,
            rs2: T1,
            imm: 0,
        };
        out.put(AsmLine::Branch { insn, to: limit })?;
        out.plain(Insn::Sub {
            rd: T0,
            rs1: SP,
            rs2: GP,
        })?;
    }
    out.load_number(T1, f.size())
}

fn past(out: &mut Writer, charged: bool, limit: u32) -> Result<(), AllocError>
    requires { out.old ≡ [] }
    ensures { OnOk result (out.new ≡ past_code charged limit) }
{
    if charged {
        end_at_limit(out, FRAMES)?;
        out.put(AsmLine::Label(limit))?;
    }
    Ok(())
}

#[tactic(auto, using(crate::proofs::Pieces::append))]
fn lines_in(alloc: Global, p: &BlockProc, f: &Frame) -> Result<List<AsmLine>, AllocError>
    ensures { IfOk result (λ lines. lines ≡ proc_lines f.now p.now) }
{
    let blocks = p.blocks.as_slice();
    let limit = u32::try_from(blocks.len()).map_err(|_| AllocError)?;
    let charged = is_charged(p);
    let mut out = Writer::new(alloc);
    past(&mut out, charged, limit)?;
    all_blocks(alloc, &mut out, f, blocks)?;
    receive(&mut out, f, p.params)?;
    save(&mut out, f, f.saved())?;
    enter(&mut out, f, charged, limit)?;
    Ok(out.into_lines())
}

/// The lines of a procedure whose values have these homes. A procedure with numbers beyond 32 bits, of blocks or of words that it passes, with more than 246 results at once,
/// or with a frame that ends beyond 64 bits, is want of memory too.
pub fn lines_of(alloc: Global, p: &BlockProc, homes: &[Home]) -> Result<List<AsmLine>, AllocError>
    ensures { IfOk result (λ lines. lines ≡ proc_lines (layout_of p.now homes.now) p.now) }
{
    let frame = Frame::of(alloc, p, homes)?;
    lines_in(alloc, p, &frame)
}
