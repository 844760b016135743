//! Instructions put behind the code so far.
ghost use Rattle.std.specs.Prelude.{◌≡◌, ◌<◌, ◌≤◌, ◌+◌, ◌%◌, ◌^◌, OnOk, vec_len};
ghost use Rattle.rv_isa.specs.Encode.{IsEncodable, IsSigned};
ghost use Rattle.rv_isa.specs.declared.insn.Insn.TheVariants.{Jalr};
ghost use Rattle.rv_assemble.specs.Lines.{Stands, MakesDistance, Jumps, Branches, Reaches, IsBranch, distance, aimed, opposite};
ghost use Rattle.rv_assemble.specs.Places.{Keeps, IsInReach, FitsJump, FitsBranch, FitsInsn, FitsLine, LineTo, IsProperFor, IsConditional};

use crate::unit::AsmLine;
use rv_isa::{Insn, encode};
use std::alloc::AllocError;

/// The high and the low part of a distance, for an AUIPC and the instruction behind it.
pub fn parts_of(far: u64) -> (u64, u64)
    requires { IsInReach far }
    ensures high { IsSigned 32 result.0 }
    ensures whole { result.0 % 2 ^ 12 ≡ 0 }
    ensures low { IsSigned 12 result.1 }
    ensures sum { (result.0 + result.1) % 2 ^ 64 ≡ far }
{
    let shifted = far.wrapping_add(2048);
    let above = shifted % 4096;
    (shifted - above, above.wrapping_sub(2048))
}

/// Puts an instruction behind the code.
pub(crate) fn put(code: &mut Vec<u8>, insn: &Insn) -> Result<(), AllocError>
    requires { IsEncodable insn.now }
    ensures len { OnOk result (vec_len code.new ≡ vec_len code.old + 4) }
    ensures keeps { OnOk result (Keeps code.old.items code.new.items) }
    ensures stands { OnOk result (Stands code.new.items (vec_len code.old) insn.now) }
{
    code.extend_from_slice(&encode(insn).to_le_bytes())?;
    Ok(())
}

/// Puts a jump over x6 to a far place behind the code.
fn put_far_jump(code: &mut Vec<u8>, rd: u8, far: u64) -> Result<(), AllocError>
    requires rd { rd < 32 }
    requires far { IsInReach far }
    ensures len { OnOk result (vec_len code.new ≡ vec_len code.old + 8) }
    ensures keeps { OnOk result (Keeps code.old.items code.new.items) }
    ensures makes { OnOk result (MakesDistance code.new.items (vec_len code.old) 6 far (λ low. Jalr rd 6 low)) }
{
    let (high, low) = parts_of(far);
    put(code, &Insn::Auipc { rd: 6, imm: high })?;
    put(
        code,
        &Insn::Jalr {
            rd,
            rs1: 6,
            imm: low,
        },
    )?;
    Ok(())
}

/// Puts a jump from the end of the code to the target; the code then ends at `next`.
fn put_jump(code: &mut Vec<u8>, rd: u8, next: u64, target: u64) -> Result<(), AllocError>
    requires rd { rd < 32 }
    requires fits { FitsJump (vec_len code.old) next target }
    ensures len { OnOk result (vec_len code.new ≡ next) }
    ensures keeps { OnOk result (Keeps code.old.items code.new.items) }
    ensures jumps { OnOk result (Jumps code.new.items rd (vec_len code.old) next target) }
{
    let place = code.len() as u64;
    let far = target.wrapping_sub(place);
    if next - place == 4 {
        put(code, &Insn::Jal { rd, imm: far })?;
    } else {
        put_far_jump(code, rd, far)?;
    }
    Ok(())
}

/// The conditional branch with this immediate.
fn aim(insn: Insn, far: u64) -> Insn
    ensures { result ≡ aimed insn far }
{
    match insn {
        Insn::Beq { rs1, rs2, .. } => Insn::Beq { rs1, rs2, imm: far },
        Insn::Bne { rs1, rs2, .. } => Insn::Bne { rs1, rs2, imm: far },
        Insn::Blt { rs1, rs2, .. } => Insn::Blt { rs1, rs2, imm: far },
        Insn::Bge { rs1, rs2, .. } => Insn::Bge { rs1, rs2, imm: far },
        Insn::Bltu { rs1, rs2, .. } => Insn::Bltu { rs1, rs2, imm: far },
        Insn::Bgeu { rs1, rs2, .. } => Insn::Bgeu { rs1, rs2, imm: far },
        _ => insn,
    }
}

/// The conditional branch on the opposite condition.
fn turned(insn: Insn) -> Insn
    ensures { result ≡ opposite insn }
{
    match insn {
        Insn::Beq { rs1, rs2, imm } => Insn::Bne { rs1, rs2, imm },
        Insn::Bne { rs1, rs2, imm } => Insn::Beq { rs1, rs2, imm },
        Insn::Blt { rs1, rs2, imm } => Insn::Bge { rs1, rs2, imm },
        Insn::Bge { rs1, rs2, imm } => Insn::Blt { rs1, rs2, imm },
        Insn::Bltu { rs1, rs2, imm } => Insn::Bgeu { rs1, rs2, imm },
        Insn::Bgeu { rs1, rs2, imm } => Insn::Bltu { rs1, rs2, imm },
        _ => insn,
    }
}

/// Puts a conditional branch from the end of the code to the target; the code then ends at `next`.
fn put_conditional(code: &mut Vec<u8>, insn: Insn, next: u64, target: u64) -> Result<(), AllocError>
    requires insn { IsConditional insn }
    requires fits { FitsBranch (vec_len code.old) next target }
    ensures len { OnOk result (vec_len code.new ≡ next) }
    ensures keeps { OnOk result (Keeps code.old.items code.new.items) }
    ensures branches { OnOk result (Branches code.new.items insn (vec_len code.old) next target) }
{
    let place = code.len() as u64;
    if next - place == 4 {
        put(code, &aim(insn, target.wrapping_sub(place)))?;
    } else {
        put(code, &aim(turned(insn), next - place))?;
        put_jump(code, 0, next, target)?;
    }
    Ok(())
}

/// Puts a branch or a JAL from the end of the code to the target; the code then ends at `next`.
fn put_branch(code: &mut Vec<u8>, insn: Insn, next: u64, target: u64) -> Result<(), AllocError>
    requires insn { IsBranch insn }
    requires fits { FitsInsn insn (vec_len code.old) next target }
    ensures len { OnOk result (vec_len code.new ≡ next) }
    ensures keeps { OnOk result (Keeps code.old.items code.new.items) }
    ensures reaches { OnOk result (Reaches code.new.items insn (vec_len code.old) next target) }
{
    match insn {
        Insn::Jal { rd, .. } => put_jump(code, rd, next, target)?,
        _ => put_conditional(code, insn, next, target)?,
    }
    Ok(())
}

/// Puts a line behind the code, which then ends at `next`; a branch goes to `target`.
pub(crate) fn put_line(
    code: &mut Vec<u8>,
    line: &AsmLine,
    next: u64,
    target: u64,
) -> Result<(), AllocError>
    requires proper { IsProperFor line.now }
    requires fits { FitsLine line.now (vec_len code.old) next target }
    ensures len { OnOk result (vec_len code.new ≡ next) }
    ensures keeps { OnOk result (Keeps code.old.items code.new.items) }
    ensures line { OnOk result (LineTo code.new.items (vec_len code.old) next target line.now) }
{
    match line {
        AsmLine::Label(_) => {}
        AsmLine::Plain(insn) => put(code, insn)?,
        AsmLine::Branch { insn, .. } => put_branch(code, *insn, next, target)?,
        AsmLine::Call { .. } => {
            put(code, &Insn::Auipc { rd: 1, imm: 0 })?;
            put(
                code,
                &Insn::Jalr {
                    rd: 1,
                    rs1: 1,
                    imm: 0,
                },
            )?;
        }
        AsmLine::Address { rd, .. } => {
            put(code, &Insn::Auipc { rd: *rd, imm: 0 })?;
            put(
                code,
                &Insn::Addi {
                    rd: *rd,
                    rs1: *rd,
                    imm: 0,
                },
            )?;
        }
    }
    Ok(())
}
