//! Values between their homes, registers and the stack. What each function writes goes in front.

ghost use Rattle.std.specs.Prelude.{◌≡◌, ◌+◌, ◌-◌, ◌*◌, OnOk, IfOk};
ghost use Rattle.emitted_code.specs.Straight.{lines};
ghost use Rattle.emitted_code.specs.Frames.{home_of, saved_of};
ghost use Rattle.emitted_code.specs.Code.{operand_register, fetch, result_register, settle, read, write, copy, pass_one, pass, receive_one, receive, give_results, take_results, save, restore, leave};

use crate::frame::Frame;
use crate::machine::{A0, SP, T0};
use crate::writer::Writer;
use block_homes::Home;
use rv_isa::Insn;
use std::alloc::AllocError;

/// How many arguments go into registers.
const REGISTER_ARGUMENTS: usize = 8;

/// The register that a value is in, or this one, where it is in a slot.
pub fn operand_register(home: Home, t: u8) -> u8
    ensures { result ≡ operand_register home t }
{
    match home {
        Home::Register(r) => r,
        Home::Slot(_) => t,
    }
}

/// The register that a value is computed in.
pub fn result_register(home: Home) -> u8
    ensures { result ≡ result_register home }
{
    match home {
        Home::Register(r) => r,
        Home::Slot(_) => T0,
    }
}

/// What brings a value that is in a slot into a register.
pub fn fetch(out: &mut Writer, f: &Frame, home: Home, t: u8) -> Result<(), AllocError>
    ensures { OnOk result (out.new ≡ lines (fetch f.now home t) out.old) }
{
    match home {
        Home::Register(_) => Ok(()),
        Home::Slot(k) => out.load_word(t, f.slot(k)),
    }
}

/// What brings a value that was computed to its slot, where it is in one.
pub fn settle(out: &mut Writer, f: &Frame, home: Home) -> Result<(), AllocError>
    ensures { OnOk result (out.new ≡ lines (settle f.now home) out.old) }
{
    match home {
        Home::Register(_) => Ok(()),
        Home::Slot(k) => out.store_word(T0, f.slot(k)),
    }
}

/// A value into a register.
pub fn read(out: &mut Writer, f: &Frame, home: Home, rd: u8) -> Result<(), AllocError>
    ensures { OnOk result (out.new ≡ lines (read f.now home rd) out.old) }
{
    match home {
        Home::Register(r) => out.plain(Insn::Addi { rd, rs1: r, imm: 0 }),
        Home::Slot(k) => out.load_word(rd, f.slot(k)),
    }
}

/// A value from a register.
pub fn write(out: &mut Writer, f: &Frame, home: Home, rs: u8) -> Result<(), AllocError>
    ensures { OnOk result (out.new ≡ lines (write f.now home rs) out.old) }
{
    match home {
        Home::Register(r) => out.plain(Insn::Addi {
            rd: r,
            rs1: rs,
            imm: 0,
        }),
        Home::Slot(k) => out.store_word(rs, f.slot(k)),
    }
}

/// A value to the home of another.
#[tactic(auto, using(crate::proofs::Pieces::append))]
pub fn copy(out: &mut Writer, f: &Frame, to: Home, from: Home) -> Result<(), AllocError>
    ensures { OnOk result (out.new ≡ lines (copy f.now to from) out.old) }
{
    match to {
        Home::Register(r) => read(out, f, from, r),
        Home::Slot(k) => {
            out.store_word(operand_register(from, T0), f.slot(k))?;
            fetch(out, f, from, T0)
        }
    }
}

// The offset of the argument of this number behind those in registers.
fn behind(i: usize) -> Result<u64, AllocError>
    ensures { IfOk result (λ offset. offset ≡ 8 * (i - 8)) }
{
    let words = i.saturating_sub(REGISTER_ARGUMENTS) as u64;
    words.checked_mul(8).ok_or(AllocError)
}

#[tactic(auto, using(crate::proofs::Pieces::append))]
fn pass_one(out: &mut Writer, f: &Frame, i: usize, y: u32) -> Result<(), AllocError>
    ensures { OnOk result (out.new ≡ lines (pass_one f.now i y) out.old) }
{
    let home = f.home(y);
    if i < REGISTER_ARGUMENTS {
        return read(out, f, home, A0 + i as u8);
    }
    let offset = behind(i)?;
    out.store_word(T0, offset)?;
    read(out, f, home, T0)
}

/// Values as the arguments of a call, the first of which goes into a0.
#[tactic(auto, using(crate::proofs::Pieces::append))]
pub fn pass(out: &mut Writer, f: &Frame, ys: &[u32]) -> Result<(), AllocError>
    ensures { OnOk result (out.new ≡ lines (pass f.now 0 ys.now) out.old) }
{
    for i in (0..ys.len()).rev() {
        pass_one(out, f, i, ys[i])?;
    }
    Ok(())
}

#[tactic(auto, using(crate::proofs::Pieces::append))]
fn receive_one(out: &mut Writer, f: &Frame, i: u32) -> Result<(), AllocError>
    ensures { OnOk result (out.new ≡ lines (receive_one f.now i) out.old) }
{
    let home = f.home(i);
    if i < 8 {
        return write(out, f, home, A0 + i as u8);
    }
    let offset = f.size().checked_add(behind(i as usize)?).ok_or(AllocError)?;
    write(out, f, home, T0)?;
    out.load_word(T0, offset)
}

/// So many parameters to their homes.
#[tactic(auto, using(crate::proofs::Pieces::append))]
pub fn receive(out: &mut Writer, f: &Frame, params: u32) -> Result<(), AllocError>
    ensures { OnOk result (out.new ≡ lines (receive f.now params) out.old) }
{
    for i in (0..params).rev() {
        receive_one(out, f, i)?;
    }
    Ok(())
}

// The register of the result of this number.
fn result_place(i: usize) -> Result<u8, AllocError>
    ensures { IfOk result (λ r. r ≡ 10 + i) }
{
    match u8::try_from(i) {
        Ok(i) => i.checked_add(A0).ok_or(AllocError),
        Err(_) => Err(AllocError),
    }
}

/// Values as results.
#[tactic(auto, using(crate::proofs::Pieces::append))]
pub fn give_results(out: &mut Writer, f: &Frame, ys: &[u32]) -> Result<(), AllocError>
    ensures { OnOk result (out.new ≡ lines (give_results f.now 0 ys.now) out.old) }
{
    for i in (0..ys.len()).rev() {
        let rd = result_place(i)?;
        read(out, f, f.home(ys[i]), rd)?;
    }
    Ok(())
}

/// The results of a call to values.
#[tactic(auto, using(crate::proofs::Pieces::append))]
pub fn take_results(out: &mut Writer, f: &Frame, xs: &[u32]) -> Result<(), AllocError>
    ensures { OnOk result (out.new ≡ lines (take_results f.now 0 xs.now) out.old) }
{
    for i in (0..xs.len()).rev() {
        let rs = result_place(i)?;
        write(out, f, f.home(xs[i]), rs)?;
    }
    Ok(())
}

/// Registers to the frame.
#[tactic(auto, using(crate::proofs::Pieces::append))]
pub fn save(out: &mut Writer, f: &Frame, registers: &[u8]) -> Result<(), AllocError>
    ensures { OnOk result (out.new ≡ lines (save f.now registers.now) out.old) }
{
    for i in (0..registers.len()).rev() {
        let register = registers[i];
        out.store_word(register, f.save(register))?;
    }
    Ok(())
}

/// Registers from the frame.
#[tactic(auto, using(crate::proofs::Pieces::append))]
pub fn restore(out: &mut Writer, f: &Frame, registers: &[u8]) -> Result<(), AllocError>
    ensures { OnOk result (out.new ≡ lines (restore f.now registers.now) out.old) }
{
    for i in (0..registers.len()).rev() {
        let register = registers[i];
        out.load_word(register, f.save(register))?;
    }
    Ok(())
}

/// What leaves a procedure, but for the return.
#[tactic(auto, using(crate::proofs::Pieces::append))]
pub fn leave(out: &mut Writer, f: &Frame) -> Result<(), AllocError>
    ensures { OnOk result (out.new ≡ lines (leave f.now) out.old) }
{
    out.plain(Insn::Add {
        rd: SP,
        rs1: SP,
        rs2: T0,
    })?;
    out.load_number(T0, f.size())?;
    restore(out, f, f.saved())
}
