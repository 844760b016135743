//! Registers, and the instructions of operations, loads and stores.

ghost use Rattle.std.specs.Prelude.{◌≡◌};
ghost use Rattle.emitted_code.specs.Straight.{operation_insn, load_insn, store_insn};

use flat_ir::Operation;
use jf_base::Width;
use rv_isa::Insn;

pub const ZERO: u8 = 0;

pub const RA: u8 = 1;

pub const SP: u8 = 2;

pub const GP: u8 = 3;

pub const T0: u8 = 5;

pub const T1: u8 = 6;

pub const T2: u8 = 7;

pub const A0: u8 = 10;

pub const A4: u8 = 14;

pub const A7: u8 = 17;

/// The instruction of an operation.
pub fn operation_of(o: Operation, rd: u8, rs1: u8, rs2: u8) -> Insn
    ensures { result ≡ operation_insn o rd rs1 rs2 }
{
    match o {
        Operation::Add => Insn::Add { rd, rs1, rs2 },
        Operation::Sub => Insn::Sub { rd, rs1, rs2 },
        Operation::Sll => Insn::Sll { rd, rs1, rs2 },
        Operation::Slt => Insn::Slt { rd, rs1, rs2 },
        Operation::Sltu => Insn::Sltu { rd, rs1, rs2 },
        Operation::Xor => Insn::Xor { rd, rs1, rs2 },
        Operation::Srl => Insn::Srl { rd, rs1, rs2 },
        Operation::Sra => Insn::Sra { rd, rs1, rs2 },
        Operation::Or => Insn::Or { rd, rs1, rs2 },
        Operation::And => Insn::And { rd, rs1, rs2 },
        Operation::Mul => Insn::Mul { rd, rs1, rs2 },
        Operation::Mulh => Insn::Mulh { rd, rs1, rs2 },
        Operation::Mulhsu => Insn::Mulhsu { rd, rs1, rs2 },
        Operation::Mulhu => Insn::Mulhu { rd, rs1, rs2 },
        Operation::Div => Insn::Div { rd, rs1, rs2 },
        Operation::Divu => Insn::Divu { rd, rs1, rs2 },
        Operation::Rem => Insn::Rem { rd, rs1, rs2 },
        Operation::Remu => Insn::Remu { rd, rs1, rs2 },
        Operation::Addw => Insn::Addw { rd, rs1, rs2 },
        Operation::Subw => Insn::Subw { rd, rs1, rs2 },
        Operation::Sllw => Insn::Sllw { rd, rs1, rs2 },
        Operation::Srlw => Insn::Srlw { rd, rs1, rs2 },
        Operation::Sraw => Insn::Sraw { rd, rs1, rs2 },
        Operation::Mulw => Insn::Mulw { rd, rs1, rs2 },
        Operation::Divw => Insn::Divw { rd, rs1, rs2 },
        Operation::Divuw => Insn::Divuw { rd, rs1, rs2 },
        Operation::Remw => Insn::Remw { rd, rs1, rs2 },
        Operation::Remuw => Insn::Remuw { rd, rs1, rs2 },
    }
}

/// The load of a width, extended with its sign or with zeros.
pub fn load_of(w: Width, is_signed: bool, rd: u8, rs1: u8) -> Insn
    ensures { result ≡ load_insn w is_signed rd rs1 0 }
{
    match w {
        Width::W1 if is_signed => Insn::Lb { rd, rs1, imm: 0 },
        Width::W1 => Insn::Lbu { rd, rs1, imm: 0 },
        Width::W2 if is_signed => Insn::Lh { rd, rs1, imm: 0 },
        Width::W2 => Insn::Lhu { rd, rs1, imm: 0 },
        Width::W4 if is_signed => Insn::Lw { rd, rs1, imm: 0 },
        Width::W4 => Insn::Lwu { rd, rs1, imm: 0 },
        Width::W8 => Insn::Ld { rd, rs1, imm: 0 },
    }
}

/// The store of a width.
pub fn store_of(w: Width, rs1: u8, rs2: u8) -> Insn
    ensures { result ≡ store_insn w rs2 rs1 0 }
{
    match w {
        Width::W1 => Insn::Sb { rs1, rs2, imm: 0 },
        Width::W2 => Insn::Sh { rs1, rs2, imm: 0 },
        Width::W4 => Insn::Sw { rs1, rs2, imm: 0 },
        Width::W8 => Insn::Sd { rs1, rs2, imm: 0 },
    }
}
