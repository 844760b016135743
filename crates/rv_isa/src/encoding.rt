//! The word of an instruction: the format of its row, with the row's fixed fields.
ghost use Rattle.std.specs.Prelude.{◌≡◌};
ghost use Rattle.rv_isa.specs.Encode.{IsEncodable, encode_of};

use crate::formats::{
    branch_format, immediate_format, jump_format, register_format, shift_format, store_format,
    upper_format, word_shift_format,
};
use crate::insn::Insn;
use crate::rows::{
    with_alternates, with_base, with_branches, with_immediates, with_loads, with_products,
    with_shifts, with_stores, with_whole_words, with_word_alternates, with_word_base,
    with_word_immediates, with_word_products, with_word_shifts,
};

macro_rules! word_by_row {
    (
        $insn:ident
        [$($branch:ident $branch_funct3:literal,)*]
        [$($load:ident $load_funct3:literal,)*]
        [$($store:ident $store_funct3:literal,)*]
        [$($immediate:ident $immediate_funct3:literal,)*]
        [$($shift:ident $shift_funct3:literal $funct6:literal,)*]
        [$($word_immediate:ident $word_immediate_funct3:literal,)*]
        [$($word_shift:ident $word_shift_funct3:literal $funct7:literal,)*]
        [$($base:ident $base_funct3:literal,)*]
        [$($alternate:ident $alternate_funct3:literal,)*]
        [$($product:ident $product_funct3:literal,)*]
        [$($word_base:ident $word_base_funct3:literal,)*]
        [$($word_alternate:ident $word_alternate_funct3:literal,)*]
        [$($word_product:ident $word_product_funct3:literal,)*]
        [$($whole:ident $word:literal,)*]
    ) => {
        match $insn {
            Insn::Lui { rd, imm } => upper_format(0x37, rd, imm),
            Insn::Auipc { rd, imm } => upper_format(0x17, rd, imm),
            Insn::Jal { rd, imm } => jump_format(0x6f, rd, imm),
            Insn::Jalr { rd, rs1, imm } => immediate_format(0x67, 0, rd, rs1, imm),
            $(Insn::$branch { rs1, rs2, imm } => branch_format(0x63, $branch_funct3, rs1, rs2, imm),)*
            $(Insn::$load { rd, rs1, imm } => immediate_format(0x03, $load_funct3, rd, rs1, imm),)*
            $(Insn::$store { rs1, rs2, imm } => store_format(0x23, $store_funct3, rs1, rs2, imm),)*
            $(Insn::$immediate { rd, rs1, imm } => immediate_format(0x13, $immediate_funct3, rd, rs1, imm),)*
            $(Insn::$shift { rd, rs1, imm } => shift_format(0x13, $shift_funct3, $funct6, rd, rs1, imm),)*
            $(Insn::$word_immediate { rd, rs1, imm } => immediate_format(0x1b, $word_immediate_funct3, rd, rs1, imm),)*
            $(Insn::$word_shift { rd, rs1, imm } => word_shift_format(0x1b, $word_shift_funct3, $funct7, rd, rs1, imm),)*
            $(Insn::$base { rd, rs1, rs2 } => register_format(0x33, $base_funct3, 0x00, rd, rs1, rs2),)*
            $(Insn::$alternate { rd, rs1, rs2 } => register_format(0x33, $alternate_funct3, 0x20, rd, rs1, rs2),)*
            $(Insn::$product { rd, rs1, rs2 } => register_format(0x33, $product_funct3, 0x01, rd, rs1, rs2),)*
            $(Insn::$word_base { rd, rs1, rs2 } => register_format(0x3b, $word_base_funct3, 0x00, rd, rs1, rs2),)*
            $(Insn::$word_alternate { rd, rs1, rs2 } => register_format(0x3b, $word_alternate_funct3, 0x20, rd, rs1, rs2),)*
            $(Insn::$word_product { rd, rs1, rs2 } => register_format(0x3b, $word_product_funct3, 0x01, rd, rs1, rs2),)*
            $(Insn::$whole => $word,)*
        }
    };
}

/// The word of an instruction whose registers are below 32 and whose immediate is one that its field holds.
#[inline]
#[tactic(auto, unfolding(crate::specs::Encode::encode_of))]
pub fn encode(i: &Insn) -> u32
    requires { IsEncodable i.now }
    ensures { result ≡ encode_of i.now }
{
    let insn = *i;
    with_branches!(with_loads with_stores with_immediates with_shifts with_word_immediates with_word_shifts
        with_base with_alternates with_products with_word_base with_word_alternates with_word_products
        with_whole_words word_by_row insn)
}
