//! The formats of words.
ghost use Rattle.std.specs.Prelude.{◌≡◌, ◌<◌, ◌^◌};
ghost use Rattle.rv_isa.specs.Encode.{register_word, immediate_word, shift_word, word_shift_word, store_word, branch_word, upper_word, jump_word, AreRegisterOperands, AreImmediateOperands, AreShiftOperands, AreWordShiftOperands, AreStoreOperands, AreBranchOperands, AreUpperOperands, AreJumpOperands};

#[inline]
pub(crate) fn register_format(
    opcode: u32,
    funct3: u32,
    funct7: u32,
    rd: u8,
    rs1: u8,
    rs2: u8,
) -> u32
    requires opcode { opcode < 2 ^ 7 }
    requires funct3 { funct3 < 2 ^ 3 }
    requires funct7 { funct7 < 2 ^ 7 }
    requires operands { AreRegisterOperands rd rs1 rs2 }
    ensures { result ≡ register_word opcode funct3 funct7 rd rs1 rs2 }
{
    opcode
        + 128 * rd as u32
        + 4096 * funct3
        + 32768 * rs1 as u32
        + 1048576 * rs2 as u32
        + 33554432 * funct7
}

#[inline]
pub(crate) fn immediate_format(opcode: u32, funct3: u32, rd: u8, rs1: u8, imm: u64) -> u32
    requires opcode { opcode < 2 ^ 7 }
    requires funct3 { funct3 < 2 ^ 3 }
    requires operands { AreImmediateOperands rd rs1 imm }
    ensures { result ≡ immediate_word opcode funct3 rd rs1 imm }
{
    let field = (imm % 4096) as u32;
    opcode + 128 * rd as u32 + 4096 * funct3 + 32768 * rs1 as u32 + 1048576 * field
}

#[inline]
pub(crate) fn shift_format(
    opcode: u32,
    funct3: u32,
    funct6: u32,
    rd: u8,
    rs1: u8,
    amount: u64,
) -> u32
    requires opcode { opcode < 2 ^ 7 }
    requires funct3 { funct3 < 2 ^ 3 }
    requires funct6 { funct6 < 2 ^ 6 }
    requires operands { AreShiftOperands rd rs1 amount }
    ensures { result ≡ shift_word opcode funct3 funct6 rd rs1 amount }
{
    opcode
        + 128 * rd as u32
        + 4096 * funct3
        + 32768 * rs1 as u32
        + 1048576 * amount as u32
        + 67108864 * funct6
}

#[inline]
pub(crate) fn word_shift_format(
    opcode: u32,
    funct3: u32,
    funct7: u32,
    rd: u8,
    rs1: u8,
    amount: u64,
) -> u32
    requires opcode { opcode < 2 ^ 7 }
    requires funct3 { funct3 < 2 ^ 3 }
    requires funct7 { funct7 < 2 ^ 7 }
    requires operands { AreWordShiftOperands rd rs1 amount }
    ensures { result ≡ word_shift_word opcode funct3 funct7 rd rs1 amount }
{
    opcode
        + 128 * rd as u32
        + 4096 * funct3
        + 32768 * rs1 as u32
        + 1048576 * amount as u32
        + 33554432 * funct7
}

#[inline]
pub(crate) fn store_format(opcode: u32, funct3: u32, rs1: u8, rs2: u8, imm: u64) -> u32
    requires opcode { opcode < 2 ^ 7 }
    requires funct3 { funct3 < 2 ^ 3 }
    requires operands { AreStoreOperands rs1 rs2 imm }
    ensures { result ≡ store_word opcode funct3 rs1 rs2 imm }
{
    let low = (imm % 32) as u32;
    let high = (imm / 32 % 128) as u32;
    opcode + 128 * low + 4096 * funct3 + 32768 * rs1 as u32 + 1048576 * rs2 as u32 + 33554432 * high
}

#[inline]
pub(crate) fn branch_format(opcode: u32, funct3: u32, rs1: u8, rs2: u8, imm: u64) -> u32
    requires opcode { opcode < 2 ^ 7 }
    requires funct3 { funct3 < 2 ^ 3 }
    requires operands { AreBranchOperands rs1 rs2 imm }
    ensures { result ≡ branch_word opcode funct3 rs1 rs2 imm }
{
    let bit_11 = (imm / 2048 % 2) as u32;
    let low = (imm / 2 % 16) as u32;
    let middle = (imm / 32 % 64) as u32;
    let bit_12 = (imm / 4096 % 2) as u32;
    opcode
        + 128 * bit_11
        + 256 * low
        + 4096 * funct3
        + 32768 * rs1 as u32
        + 1048576 * rs2 as u32
        + 33554432 * middle
        + 2147483648 * bit_12
}

#[inline]
pub(crate) fn upper_format(opcode: u32, rd: u8, imm: u64) -> u32
    requires opcode { opcode < 2 ^ 7 }
    requires operands { AreUpperOperands rd imm }
    ensures { result ≡ upper_word opcode rd imm }
{
    let field = (imm / 4096 % 1048576) as u32;
    opcode + 128 * rd as u32 + 4096 * field
}

#[inline]
pub(crate) fn jump_format(opcode: u32, rd: u8, imm: u64) -> u32
    requires opcode { opcode < 2 ^ 7 }
    requires operands { AreJumpOperands rd imm }
    ensures { result ≡ jump_word opcode rd imm }
{
    let high = (imm / 4096 % 256) as u32;
    let bit_11 = (imm / 2048 % 2) as u32;
    let low = (imm / 2 % 1024) as u32;
    let bit_20 = (imm / 1048576 % 2) as u32;
    opcode + 128 * rd as u32 + 4096 * high + 1048576 * bit_11 + 2097152 * low + 2147483648 * bit_20
}
