//! The lines of an instruction of a block, in front of what follows.

ghost use Rattle.std.specs.Prelude.{◌≡◌, ◌∷◌, OnOk};
ghost use Rattle.rv_assemble.specs.declared.unit.AsmLine.TheVariants as L;
ghost use Rattle.flatten.specs.declared.blocks.BlockInsn.TheVariants as I;
ghost use Rattle.emitted_code.specs.Code.{system_call, insn_code};
ghost use Rattle.emitted_code.specs.Names.{proc_name};

use crate::frame::Frame;
use crate::homes::{
    copy, fetch, operand_register, pass, read, result_register, settle, take_results, write,
};
use crate::machine::{A0, A7, RA, T0, T1, ZERO, load_of, operation_of, store_of};
use crate::names::{name_of, name_of_image, place_of};
use crate::writer::Writer;
use flat_ir::Operation;
use flatten::BlockInsn;
use jf_base::Width;
use rv_assemble::AsmLine;
use rv_isa::Insn;
use std::alloc::{AllocError, Global};

/// The environment's call that takes a byte.
const TAKE: u64 = 63;

/// The environment's call that gives a byte.
const GIVE: u64 = 64;

/// A call of the environment.
pub fn system_call(out: &mut Writer, n: u64) -> Result<(), AllocError>
    ensures { OnOk result (out.new ≡ system_call n out.old) }
{
    out.plain(Insn::Ecall)?;
    out.plain(Insn::Addi {
        rd: A7,
        rs1: ZERO,
        imm: n,
    })
}

#[tactic(auto, using(crate::proofs::Pieces::append))]
fn number(out: &mut Writer, f: &Frame, x: u32, n: u64) -> Result<(), AllocError>
    ensures { OnOk result (out.new ≡ insn_code f.now (I.Number x n) out.old) }
{
    let home = f.home(x);
    settle(out, f, home)?;
    out.load_number(result_register(home), n)
}

#[tactic(auto, using(crate::proofs::Pieces::append))]
fn binary(
    out: &mut Writer,
    f: &Frame,
    o: Operation,
    x: u32,
    y: u32,
    z: u32,
) -> Result<(), AllocError>
    ensures { OnOk result (out.new ≡ insn_code f.now (I.Binary o x y z) out.old) }
{
    let to = f.home(x);
    let first = f.home(y);
    let second = f.home(z);
    settle(out, f, to)?;
    let rs1 = operand_register(first, T0);
    let rs2 = operand_register(second, T1);
    out.plain(operation_of(o, result_register(to), rs1, rs2))?;
    fetch(out, f, second, T1)?;
    fetch(out, f, first, T0)
}

#[tactic(auto, using(crate::proofs::Pieces::append))]
fn load(
    out: &mut Writer,
    f: &Frame,
    x: u32,
    w: Width,
    is_signed: bool,
    y: u32,
) -> Result<(), AllocError>
    ensures { OnOk result (out.new ≡ insn_code f.now (I.Load x w is_signed y) out.old) }
{
    let to = f.home(x);
    let from = f.home(y);
    settle(out, f, to)?;
    let address = operand_register(from, T0);
    out.plain(load_of(w, is_signed, result_register(to), address))?;
    fetch(out, f, from, T0)
}

#[tactic(auto, using(crate::proofs::Pieces::append))]
fn store(out: &mut Writer, f: &Frame, w: Width, y: u32, z: u32) -> Result<(), AllocError>
    ensures { OnOk result (out.new ≡ insn_code f.now (I.Store w y z) out.old) }
{
    let to = f.home(y);
    let from = f.home(z);
    let address = operand_register(to, T0);
    out.plain(store_of(w, address, operand_register(from, T1)))?;
    fetch(out, f, from, T1)?;
    fetch(out, f, to, T0)
}

fn proc_address(
    alloc: Global,
    out: &mut Writer,
    f: &Frame,
    x: u32,
    p: u32,
) -> Result<(), AllocError>
    ensures { OnOk result (out.new ≡ insn_code f.now (I.ProcAddress x p) out.old) }
{
    let home = f.home(x);
    settle(out, f, home)?;
    let name = name_of(alloc, p)?;
    out.put(AsmLine::Address {
        rd: result_register(home),
        name,
        offset: 0,
    })
}

fn image_address(
    alloc: Global,
    out: &mut Writer,
    f: &Frame,
    x: u32,
    n: u64,
) -> Result<(), AllocError>
    ensures { OnOk result (out.new ≡ insn_code f.now (I.ImageAddress x n) out.old) }
{
    let home = f.home(x);
    settle(out, f, home)?;
    let name = name_of_image(alloc)?;
    let offset = place_of(n)?;
    out.put(AsmLine::Address {
        rd: result_register(home),
        name,
        offset,
    })
}

// The call of the unit of a procedure.
fn call_unit(alloc: Global, out: &mut Writer, p: u32) -> Result<(), AllocError>
    ensures { OnOk result (out.new ≡ L.Call (proc_name p) ∷ out.old) }
{
    let name = name_of(alloc, p)?;
    out.put(AsmLine::Call { name })
}

fn call(
    alloc: Global,
    out: &mut Writer,
    f: &Frame,
    xs: &[u32],
    p: u32,
    ys: &[u32],
) -> Result<(), AllocError>
    ensures { OnOk result (out.new ≡ insn_code f.now (I.Call xs.now p ys.now) out.old) }
{
    take_results(out, f, xs)?;
    call_unit(alloc, out, p)?;
    pass(out, f, ys)
}

#[tactic(auto, using(crate::proofs::Pieces::append))]
fn call_at(out: &mut Writer, f: &Frame, xs: &[u32], y: u32, ys: &[u32]) -> Result<(), AllocError>
    ensures { OnOk result (out.new ≡ insn_code f.now (I.CallAt xs.now y ys.now) out.old) }
{
    take_results(out, f, xs)?;
    out.plain(Insn::Jalr {
        rd: RA,
        rs1: T1,
        imm: 0,
    })?;
    read(out, f, f.home(y), T1)?;
    pass(out, f, ys)
}

fn take(out: &mut Writer, f: &Frame, x: u32) -> Result<(), AllocError>
    ensures { OnOk result (out.new ≡ insn_code f.now (I.Take x) out.old) }
{
    write(out, f, f.home(x), A0)?;
    system_call(out, TAKE)
}

fn give(out: &mut Writer, f: &Frame, y: u32) -> Result<(), AllocError>
    ensures { OnOk result (out.new ≡ insn_code f.now (I.Give y) out.old) }
{
    system_call(out, GIVE)?;
    read(out, f, f.home(y), A0)
}

/// An instruction, in front of what follows it.
pub fn insn(alloc: Global, out: &mut Writer, f: &Frame, i: &BlockInsn) -> Result<(), AllocError>
    ensures { OnOk result (out.new ≡ insn_code f.now i.now out.old) }
{
    match i {
        BlockInsn::Number(x, n) => number(out, f, *x, *n),
        BlockInsn::Copy(x, y) => copy(out, f, f.home(*x), f.home(*y)),
        BlockInsn::Binary(o, x, y, z) => binary(out, f, *o, *x, *y, *z),
        BlockInsn::Load(x, w, is_signed, y) => load(out, f, *x, *w, *is_signed, *y),
        BlockInsn::Store(w, y, z) => store(out, f, *w, *y, *z),
        BlockInsn::ProcAddress(x, p) => proc_address(alloc, out, f, *x, *p),
        BlockInsn::ImageAddress(x, n) => image_address(alloc, out, f, *x, *n),
        BlockInsn::Call(xs, p, ys) => call(alloc, out, f, xs.as_slice(), *p, ys.as_slice()),
        BlockInsn::CallAt(xs, y, ys) => call_at(out, f, xs.as_slice(), *y, ys.as_slice()),
        BlockInsn::Take(x) => take(out, f, *x),
        BlockInsn::Give(y) => give(out, f, *y),
    }
}
