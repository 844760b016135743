//! The machine.
ghost use Rattle.std.specs.Prelude.{◌≡◌, ◌≤◌, ◌<◌, ◌+◌, ◌*◌, length, IfOk};
ghost use Rattle.rv_machine.specs.Insns.{insns_of, AreEncodable};
ghost use Rattle.rv_machine.specs.Memory.{stored};
ghost use Rattle.rv_machine.specs.Step.{mode_after};

use crate::alu;
use crate::event::{Event, Mode, TrapKind};
use byteorder::{ByteOrder, LittleEndian};
use jf_base::{Limits, Memory};
use program_image::Image;
use rv_isa::{Insn, decode};
use std::alloc::{AllocError, Global};
use std::marker::Model;

/// The address of the first byte of memory.
pub const BASE: u64 = 65536;

/// A machine with its memory. Contracts see it as what it is in, a `State`.
#[derive(Drop)]
pub struct Machine {
    registers: [u64; 32],
    memory: Vec<u8>,
    code: u64,
    // the instructions of the code's words
    insns: Vec<Option<Insn>>,
    pc: u64,
    mode: Mode,
}

impl Model for Machine {
    ghost use Rattle.rv_machine.specs.State.{State};
    ghost use Rattle.rv_machine.specs.Insns.{Agree};

    ghost Value = { State };

    ghost view = { λ m. record { registers = m.registers; memory = m.memory.items; code = m.code; pc = m.pc; mode = m.mode } };

    ghost invariant = { λ m. Agree m.registers m.memory.items m.insns.items m.code };
}

#[inline(always)]
fn write_8(memory: &mut [u8], at: usize, value: u64)
    requires { at + 1 ≤ length memory.old }
    ensures { memory.new ≡ stored memory.old at 1 value }
{
    memory[at] = (value % 256) as u8;
}

#[inline(always)]
fn write_16(memory: &mut [u8], at: usize, value: u64)
    requires { at + 2 ≤ length memory.old }
    ensures { memory.new ≡ stored memory.old at 2 value }
{
    LittleEndian::write_u16(&mut memory[at..], (value % (1 << 16)) as u16);
}

#[inline(always)]
fn write_32(memory: &mut [u8], at: usize, value: u64)
    requires { at + 4 ≤ length memory.old }
    ensures { memory.new ≡ stored memory.old at 4 value }
{
    LittleEndian::write_u32(&mut memory[at..], (value % (1 << 32)) as u32);
}

#[inline(always)]
fn write_64(memory: &mut [u8], at: usize, value: u64)
    requires { at + 8 ≤ length memory.old }
    ensures { memory.new ≡ stored memory.old at 8 value }
{
    LittleEndian::write_u64(&mut memory[at..], value);
}

/// The instructions of the first `count` words.
fn insns_in(alloc: Global, memory: &[u8], count: usize) -> Result<Vec<Option<Insn>>, AllocError>
    requires { 4 * count ≤ length memory.now }
    ensures decoded { IfOk result (λ insns. insns.items ≡ insns_of count memory.now) }
    ensures operands { IfOk result (λ insns. AreEncodable insns.items) }
{
    let mut insns = Vec::with_capacity(alloc, count)?;
    for k in 0..count {
        insns.push(decode(LittleEndian::read_u32(&memory[4 * k..])))?;
    }
    Ok(insns)
}

#[inline(always)]
fn mode_after(event: Event) -> Mode
    ensures { result ≡ mode_after event }
{
    match event {
        Event::Ran | Event::GiveByte(_) => Mode::Ready,
        Event::WantByte => Mode::Waiting,
        Event::Exit(_) | Event::Limited(_) | Event::Trap(_) => Mode::Ended(event),
    }
}

impl Machine {
    ghost use Rattle.rv_machine.specs.State.{register, set_register};
    ghost use Rattle.rv_machine.specs.Memory.{place_of};
    ghost use Rattle.rv_machine.specs.Step.{go_on, set_on, jump, load, store, branch, complete, ecall, act, fetched, ready_step, one};
    ghost use Rattle.rv_machine.specs.declared.event.Mode.TheVariants.{Ready};
    ghost use Rattle.rv_machine.specs.Loaded.{loaded};
    ghost use Rattle.jf_base.specs.Limits.{AreLimits};
    ghost use Rattle.rv_isa.specs.Encode.{IsEncodable};
    ghost use Rattle.std.specs.Int.{w8, w16, w32, w64};
    ghost use Rattle.std.specs.Prelude.{◌≡◌, ◌*◌, false, Option, IfOk};

    /// A machine with this image, at the start of a run. It takes the whole memory; no step takes more.
    #[tactic(auto, unfolding(crate::specs::Loaded::loaded))]
    pub fn load(alloc: Global, image: &Image, limits: Limits) -> Result<Machine, Memory>
        requires { AreLimits limits }
        ensures loaded { IfOk result (λ machine. machine ≡ loaded image.now limits) }
        ensures ready { IfOk result (λ machine. machine.mode ≡ Ready) }
    {
        let bytes = image.bytes.as_slice();
        let len = bytes.len();
        let frames = BASE + (len as u64 + 15) / 16 * 16;
        let objects = frames + limits.frames + 8192;
        let heap = objects + limits.objects;
        let end = heap + 2 * limits.heap + 4096;
        let mut memory = Vec::with_capacity(alloc, (end - BASE) as usize)?;
        memory.extend_from_slice(bytes)?;
        memory.resize((end - BASE) as usize, 0)?;
        let code = image.code_len.min(len as u64);
        let insns = insns_in(alloc, &memory, (code / 4) as usize)?;
        let mut registers = [0; 32];
        registers[2] = objects;
        registers[10] = objects;
        registers[11] = limits.objects;
        registers[12] = heap;
        registers[13] = limits.heap;
        registers[14] = frames;
        Ok(Machine {
            registers,
            memory,
            code,
            insns,
            pc: BASE.wrapping_add(image.entry),
            mode: Mode::Ready,
        })
    }

    #[inline(always)]
    fn register(&self, r: u8) -> u64
        requires { r < 32 }
        ensures { result ≡ register self.now r }
    {
        self.registers[r as usize]
    }

    #[inline(always)]
    fn set_register(&mut self, rd: u8, value: u64)
        requires { rd < 32 }
        ensures { self.new ≡ record self.old { registers = set_register self.old.registers rd value } }
    {
        if rd != 0 {
            self.registers[rd as usize] = value;
        }
    }

    #[inline(always)]
    fn go_on(&mut self, event: Event) -> Event
        ensures { (self.new, result) ≡ go_on self.old event }
    {
        self.pc = self.pc.wrapping_add(4);
        event
    }

    #[inline(always)]
    fn set_on(&mut self, rd: u8, value: u64) -> Event
        requires { rd < 32 }
        ensures { (self.new, result) ≡ set_on self.old rd value }
    {
        self.set_register(rd, value);
        self.pc = self.pc.wrapping_add(4);
        Event::Ran
    }

    #[inline(always)]
    fn jump(&mut self, rd: u8, target: u64) -> Event
        requires { rd < 32 }
        ensures { (self.new, result) ≡ jump self.old rd target }
    {
        if target % 4 == 0 {
            let behind = self.pc.wrapping_add(4);
            self.set_register(rd, behind);
            self.pc = target;
            Event::Ran
        } else {
            Event::Trap(TrapKind::Align)
        }
    }

    #[inline(always)]
    fn branch(&mut self, taken: bool, imm: u64) -> Event
        ensures { (self.new, result) ≡ branch self.old taken imm }
    {
        if !taken {
            return self.go_on(Event::Ran);
        }
        let target = self.pc.wrapping_add(imm);
        if target % 4 == 0 {
            self.pc = target;
            Event::Ran
        } else {
            Event::Trap(TrapKind::Align)
        }
    }

    /// The place of `size` bytes in memory, behind `from`.
    #[inline(always)]
    fn place(&self, from: u64, size: u64, address: u64) -> Result<usize, TrapKind>
        requires { 0 < size }
        ensures place { result ≡ place_of self.now.memory from size address }
        ensures behind { IfOk result (λ at. from ≤ at) }
        ensures fits { IfOk result (λ at. at + size ≤ length self.now.memory) }
    {
        let len = self.memory.len() as u64;
        if address % size != 0 {
            return Err(TrapKind::Align);
        }
        if address < BASE
            || address - BASE < from
            || address - BASE > len
            || len - (address - BASE) < size
        {
            return Err(TrapKind::Range);
        }
        Ok((address - BASE) as usize)
    }

    #[inline(always)]
    fn load_8(&mut self, is_signed: bool, rd: u8, address: u64) -> Event
        requires { rd < 32 }
        ensures { (self.new, result) ≡ load self.old w8 is_signed rd address }
    {
        match self.place(0, 1, address) {
            Ok(at) => {
                let value = self.memory[at];
                let extended = if is_signed {
                    alu::extended_8(value)
                } else {
                    value as u64
                };
                self.set_on(rd, extended)
            }
            Err(kind) => Event::Trap(kind),
        }
    }

    #[inline(always)]
    fn load_16(&mut self, is_signed: bool, rd: u8, address: u64) -> Event
        requires { rd < 32 }
        ensures { (self.new, result) ≡ load self.old w16 is_signed rd address }
    {
        match self.place(0, 2, address) {
            Ok(at) => {
                let value = LittleEndian::read_u16(&self.memory[at..]);
                let extended = if is_signed {
                    alu::extended_16(value)
                } else {
                    value as u64
                };
                self.set_on(rd, extended)
            }
            Err(kind) => Event::Trap(kind),
        }
    }

    #[inline(always)]
    fn load_32(&mut self, is_signed: bool, rd: u8, address: u64) -> Event
        requires { rd < 32 }
        ensures { (self.new, result) ≡ load self.old w32 is_signed rd address }
    {
        match self.place(0, 4, address) {
            Ok(at) => {
                let value = LittleEndian::read_u32(&self.memory[at..]);
                let extended = if is_signed {
                    alu::extended_32(value)
                } else {
                    value as u64
                };
                self.set_on(rd, extended)
            }
            Err(kind) => Event::Trap(kind),
        }
    }

    #[inline(always)]
    fn load_64(&mut self, rd: u8, address: u64) -> Event
        requires { rd < 32 }
        ensures { (self.new, result) ≡ load self.old w64 false rd address }
    {
        match self.place(0, 8, address) {
            Ok(at) => {
                let value = LittleEndian::read_u64(&self.memory[at..]);
                self.set_on(rd, value)
            }
            Err(kind) => Event::Trap(kind),
        }
    }

    #[inline(always)]
    fn store_8(&mut self, address: u64, value: u64) -> Event
        ensures { (self.new, result) ≡ store self.old w8 address value }
    {
        match self.place(self.code, 1, address) {
            Ok(at) => {
                write_8(&mut self.memory, at, value);
                self.pc = self.pc.wrapping_add(4);
                Event::Ran
            }
            Err(kind) => Event::Trap(kind),
        }
    }

    #[inline(always)]
    fn store_16(&mut self, address: u64, value: u64) -> Event
        ensures { (self.new, result) ≡ store self.old w16 address value }
    {
        match self.place(self.code, 2, address) {
            Ok(at) => {
                write_16(&mut self.memory, at, value);
                self.pc = self.pc.wrapping_add(4);
                Event::Ran
            }
            Err(kind) => Event::Trap(kind),
        }
    }

    #[inline(always)]
    fn store_32(&mut self, address: u64, value: u64) -> Event
        ensures { (self.new, result) ≡ store self.old w32 address value }
    {
        match self.place(self.code, 4, address) {
            Ok(at) => {
                write_32(&mut self.memory, at, value);
                self.pc = self.pc.wrapping_add(4);
                Event::Ran
            }
            Err(kind) => Event::Trap(kind),
        }
    }

    #[inline(always)]
    fn store_64(&mut self, address: u64, value: u64) -> Event
        ensures { (self.new, result) ≡ store self.old w64 address value }
    {
        match self.place(self.code, 8, address) {
            Ok(at) => {
                write_64(&mut self.memory, at, value);
                self.pc = self.pc.wrapping_add(4);
                Event::Ran
            }
            Err(kind) => Event::Trap(kind),
        }
    }

    #[inline(always)]
    fn ecall(&mut self) -> Event
        ensures { (self.new, result) ≡ ecall self.old }
    {
        let argument = self.register(10);
        match self.register(17) {
            63 => Event::WantByte,
            64 => self.go_on(Event::GiveByte((argument % 256) as u8)),
            93 => Event::Exit(((argument % (1 << 32)) as u32).cast_signed()),
            94 if argument <= 1 => Event::Limited(argument as u8),
            _ => Event::Trap(TrapKind::Call),
        }
    }

    #[inline(always)]
    #[tactic(auto, unfolding(crate::specs::Step::act))]
    fn act(&mut self, insn: Insn) -> Event
        requires { IsEncodable insn }
        ensures { (self.new, result) ≡ act insn self.old }
    {
        match insn {
            Insn::Lui { rd, imm } => self.set_on(rd, imm),
            Insn::Auipc { rd, imm } => {
                let value = alu::sum_of(self.pc, imm);
                self.set_on(rd, value)
            }
            Insn::Jal { rd, imm } => {
                let target = alu::sum_of(self.pc, imm);
                self.jump(rd, target)
            }
            Insn::Jalr { rd, rs1, imm } => {
                let target = alu::sum_of(self.register(rs1), imm) / 2 * 2;
                self.jump(rd, target)
            }
            Insn::Beq { rs1, rs2, imm } => {
                let taken = self.register(rs1) == self.register(rs2);
                self.branch(taken, imm)
            }
            Insn::Bne { rs1, rs2, imm } => {
                let taken = self.register(rs1) != self.register(rs2);
                self.branch(taken, imm)
            }
            Insn::Blt { rs1, rs2, imm } => {
                let taken = self.register(rs1).cast_signed() < self.register(rs2).cast_signed();
                self.branch(taken, imm)
            }
            Insn::Bge { rs1, rs2, imm } => {
                let taken = self.register(rs1).cast_signed() >= self.register(rs2).cast_signed();
                self.branch(taken, imm)
            }
            Insn::Bltu { rs1, rs2, imm } => {
                let taken = self.register(rs1) < self.register(rs2);
                self.branch(taken, imm)
            }
            Insn::Bgeu { rs1, rs2, imm } => {
                let taken = self.register(rs1) >= self.register(rs2);
                self.branch(taken, imm)
            }
            Insn::Lb { rd, rs1, imm } => {
                let address = alu::sum_of(self.register(rs1), imm);
                self.load_8(true, rd, address)
            }
            Insn::Lh { rd, rs1, imm } => {
                let address = alu::sum_of(self.register(rs1), imm);
                self.load_16(true, rd, address)
            }
            Insn::Lw { rd, rs1, imm } => {
                let address = alu::sum_of(self.register(rs1), imm);
                self.load_32(true, rd, address)
            }
            Insn::Ld { rd, rs1, imm } => {
                let address = alu::sum_of(self.register(rs1), imm);
                self.load_64(rd, address)
            }
            Insn::Lbu { rd, rs1, imm } => {
                let address = alu::sum_of(self.register(rs1), imm);
                self.load_8(false, rd, address)
            }
            Insn::Lhu { rd, rs1, imm } => {
                let address = alu::sum_of(self.register(rs1), imm);
                self.load_16(false, rd, address)
            }
            Insn::Lwu { rd, rs1, imm } => {
                let address = alu::sum_of(self.register(rs1), imm);
                self.load_32(false, rd, address)
            }
            Insn::Sb { rs1, rs2, imm } => {
                let address = alu::sum_of(self.register(rs1), imm);
                let value = self.register(rs2);
                self.store_8(address, value)
            }
            Insn::Sh { rs1, rs2, imm } => {
                let address = alu::sum_of(self.register(rs1), imm);
                let value = self.register(rs2);
                self.store_16(address, value)
            }
            Insn::Sw { rs1, rs2, imm } => {
                let address = alu::sum_of(self.register(rs1), imm);
                let value = self.register(rs2);
                self.store_32(address, value)
            }
            Insn::Sd { rs1, rs2, imm } => {
                let address = alu::sum_of(self.register(rs1), imm);
                let value = self.register(rs2);
                self.store_64(address, value)
            }
            Insn::Addi { rd, rs1, imm } => {
                let value = alu::sum_of(self.register(rs1), imm);
                self.set_on(rd, value)
            }
            Insn::Slti { rd, rs1, imm } => {
                let value = alu::is_less_signed(self.register(rs1), imm);
                self.set_on(rd, value)
            }
            Insn::Sltiu { rd, rs1, imm } => {
                let value = alu::is_less_unsigned(self.register(rs1), imm);
                self.set_on(rd, value)
            }
            Insn::Xori { rd, rs1, imm } => {
                let value = self.register(rs1) ^ imm;
                self.set_on(rd, value)
            }
            Insn::Ori { rd, rs1, imm } => {
                let value = self.register(rs1) | imm;
                self.set_on(rd, value)
            }
            Insn::Andi { rd, rs1, imm } => {
                let value = self.register(rs1) & imm;
                self.set_on(rd, value)
            }
            Insn::Slli { rd, rs1, imm } => {
                let value = alu::shifted_left(self.register(rs1), imm);
                self.set_on(rd, value)
            }
            Insn::Srli { rd, rs1, imm } => {
                let value = alu::shifted_right(self.register(rs1), imm);
                self.set_on(rd, value)
            }
            Insn::Srai { rd, rs1, imm } => {
                let value = alu::shifted_right_signed(self.register(rs1), imm);
                self.set_on(rd, value)
            }
            Insn::Addiw { rd, rs1, imm } => {
                let value = alu::word_sum(self.register(rs1), imm);
                self.set_on(rd, value)
            }
            Insn::Slliw { rd, rs1, imm } => {
                let value = alu::word_shifted_left(self.register(rs1), imm);
                self.set_on(rd, value)
            }
            Insn::Srliw { rd, rs1, imm } => {
                let value = alu::word_shifted_right(self.register(rs1), imm);
                self.set_on(rd, value)
            }
            Insn::Sraiw { rd, rs1, imm } => {
                let value = alu::word_shifted_right_signed(self.register(rs1), imm);
                self.set_on(rd, value)
            }
            Insn::Add { rd, rs1, rs2 } => {
                let value = alu::sum_of(self.register(rs1), self.register(rs2));
                self.set_on(rd, value)
            }
            Insn::Sub { rd, rs1, rs2 } => {
                let value = alu::difference_of(self.register(rs1), self.register(rs2));
                self.set_on(rd, value)
            }
            Insn::Sll { rd, rs1, rs2 } => {
                let value = alu::shifted_left(self.register(rs1), self.register(rs2));
                self.set_on(rd, value)
            }
            Insn::Slt { rd, rs1, rs2 } => {
                let value = alu::is_less_signed(self.register(rs1), self.register(rs2));
                self.set_on(rd, value)
            }
            Insn::Sltu { rd, rs1, rs2 } => {
                let value = alu::is_less_unsigned(self.register(rs1), self.register(rs2));
                self.set_on(rd, value)
            }
            Insn::Xor { rd, rs1, rs2 } => {
                let value = self.register(rs1) ^ self.register(rs2);
                self.set_on(rd, value)
            }
            Insn::Srl { rd, rs1, rs2 } => {
                let value = alu::shifted_right(self.register(rs1), self.register(rs2));
                self.set_on(rd, value)
            }
            Insn::Sra { rd, rs1, rs2 } => {
                let value = alu::shifted_right_signed(self.register(rs1), self.register(rs2));
                self.set_on(rd, value)
            }
            Insn::Or { rd, rs1, rs2 } => {
                let value = self.register(rs1) | self.register(rs2);
                self.set_on(rd, value)
            }
            Insn::And { rd, rs1, rs2 } => {
                let value = self.register(rs1) & self.register(rs2);
                self.set_on(rd, value)
            }
            Insn::Mul { rd, rs1, rs2 } => {
                let value = alu::product_of(self.register(rs1), self.register(rs2));
                self.set_on(rd, value)
            }
            Insn::Mulh { rd, rs1, rs2 } => {
                let value = alu::high_product_signed(self.register(rs1), self.register(rs2));
                self.set_on(rd, value)
            }
            Insn::Mulhsu { rd, rs1, rs2 } => {
                let value = alu::high_product_mixed(self.register(rs1), self.register(rs2));
                self.set_on(rd, value)
            }
            Insn::Mulhu { rd, rs1, rs2 } => {
                let value = alu::high_product_unsigned(self.register(rs1), self.register(rs2));
                self.set_on(rd, value)
            }
            Insn::Div { rd, rs1, rs2 } => {
                let value = alu::quotient_signed(self.register(rs1), self.register(rs2));
                self.set_on(rd, value)
            }
            Insn::Divu { rd, rs1, rs2 } => {
                let value = alu::quotient_unsigned(self.register(rs1), self.register(rs2));
                self.set_on(rd, value)
            }
            Insn::Rem { rd, rs1, rs2 } => {
                let value = alu::remainder_signed(self.register(rs1), self.register(rs2));
                self.set_on(rd, value)
            }
            Insn::Remu { rd, rs1, rs2 } => {
                let value = alu::remainder_unsigned(self.register(rs1), self.register(rs2));
                self.set_on(rd, value)
            }
            Insn::Addw { rd, rs1, rs2 } => {
                let value = alu::word_sum(self.register(rs1), self.register(rs2));
                self.set_on(rd, value)
            }
            Insn::Subw { rd, rs1, rs2 } => {
                let value = alu::word_difference(self.register(rs1), self.register(rs2));
                self.set_on(rd, value)
            }
            Insn::Sllw { rd, rs1, rs2 } => {
                let value = alu::word_shifted_left(self.register(rs1), self.register(rs2));
                self.set_on(rd, value)
            }
            Insn::Srlw { rd, rs1, rs2 } => {
                let value = alu::word_shifted_right(self.register(rs1), self.register(rs2));
                self.set_on(rd, value)
            }
            Insn::Sraw { rd, rs1, rs2 } => {
                let value = alu::word_shifted_right_signed(self.register(rs1), self.register(rs2));
                self.set_on(rd, value)
            }
            Insn::Mulw { rd, rs1, rs2 } => {
                let value = alu::word_product(self.register(rs1), self.register(rs2));
                self.set_on(rd, value)
            }
            Insn::Divw { rd, rs1, rs2 } => {
                let value = alu::word_quotient_signed(self.register(rs1), self.register(rs2));
                self.set_on(rd, value)
            }
            Insn::Divuw { rd, rs1, rs2 } => {
                let value = alu::word_quotient_unsigned(self.register(rs1), self.register(rs2));
                self.set_on(rd, value)
            }
            Insn::Remw { rd, rs1, rs2 } => {
                let value = alu::word_remainder_signed(self.register(rs1), self.register(rs2));
                self.set_on(rd, value)
            }
            Insn::Remuw { rd, rs1, rs2 } => {
                let value = alu::word_remainder_unsigned(self.register(rs1), self.register(rs2));
                self.set_on(rd, value)
            }
            Insn::Fence => self.go_on(Event::Ran),
            Insn::Ecall => self.ecall(),
            Insn::Ebreak => Event::Trap(TrapKind::Break),
        }
    }

    /// The instruction at the place.
    #[inline(always)]
    fn fetch(&self) -> Result<Insn, TrapKind>
        ensures value { result ≡ fetched self.now }
        ensures operands { IfOk result IsEncodable }
    {
        let at = self.pc.wrapping_sub(BASE);
        if at % 4 != 0 {
            return Err(TrapKind::Align);
        }
        let k = (at / 4) as usize;
        let insns = self.insns.as_slice();
        if k >= insns.len() {
            return Err(TrapKind::Range);
        }
        insns[k].ok_or(TrapKind::Word)
    }

    #[inline(always)]
    fn ready_step(&mut self) -> Event
        ensures { (self.new, result) ≡ ready_step self.old }
    {
        match self.fetch() {
            Ok(insn) => self.act(insn),
            Err(kind) => Event::Trap(kind),
        }
    }

    #[inline(always)]
    fn complete(&mut self, given: Option<u8>) -> Event
        ensures { (self.new, result) ≡ complete self.old given }
    {
        let value = match given {
            Some(byte) => byte as u64,
            None => u64::MAX,
        };
        self.set_register(10, value);
        self.pc = self.pc.wrapping_add(4);
        self.mode = Mode::Ready;
        Event::Ran
    }

    /// One step: the next instruction, the byte `given` (or `None` at the end of the input) for the ECALL that waits for it,
    /// or, behind an end, the same event again. `given` is ignored where no ECALL waits.
    #[inline]
    #[tactic(auto, unfolding(crate::specs::Step::one))]
    pub fn step(&mut self, given: Option<u8>) -> Event
        ensures { (self.new, result) ≡ one self.old given }
    {
        match self.mode {
            Mode::Ready => {
                let event = self.ready_step();
                match event {
                    Event::Ran => Event::Ran,
                    _ => {
                        self.mode = mode_after(event);
                        event
                    }
                }
            }
            Mode::Waiting => self.complete(given),
            Mode::Ended(event) => event,
        }
    }
}
