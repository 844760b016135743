//! The instruction of a word: by its opcode, then by funct3 and what is above it.
ghost use Rattle.std.specs.Prelude.{◌≡◌, None};
ghost use Rattle.rv_isa.specs.Decode.{funct3_of, funct6_of, funct7_of, jump_register_of, branch_of, load_of, store_of, shift_of, immediate_insn_of, word_shift_of, word_immediate_of, base_of, alternate_of, product_of, register_insn_of, word_base_of, word_alternate_of, word_product_of, word_register_insn_of, whole_word_of, decode_of};

use crate::fields::{
    amount, branch_offset, funct3, funct6, funct7, immediate, jump_offset, opcode, rd, rs1, rs2,
    store_offset, upper, word_amount,
};
use crate::insn::Insn;
use crate::rows::{
    with_alternates, with_base, with_branches, with_immediates, with_loads, with_products,
    with_shifts, with_stores, with_whole_words, with_word_alternates, with_word_base,
    with_word_immediates, with_word_products, with_word_shifts,
};

macro_rules! branch_by_funct3 {
    ($w:ident [$($name:ident $funct3:literal,)*]) => {
        match funct3($w) {
            $($funct3 => Some(Insn::$name { rs1: rs1($w), rs2: rs2($w), imm: branch_offset($w) }),)*
            _ => None,
        }
    };
}

macro_rules! store_by_funct3 {
    ($w:ident [$($name:ident $funct3:literal,)*]) => {
        match funct3($w) {
            $($funct3 => Some(Insn::$name { rs1: rs1($w), rs2: rs2($w), imm: store_offset($w) }),)*
            _ => None,
        }
    };
}

// The instruction with an immediate, and else what the function that is named gives.
macro_rules! immediate_by_funct3 {
    ($w:ident $otherwise:ident [$($name:ident $funct3:literal,)*]) => {
        match funct3($w) {
            $($funct3 => Some(Insn::$name { rd: rd($w), rs1: rs1($w), imm: immediate($w) }),)*
            _ => $otherwise($w),
        }
    };
}

macro_rules! register_by_funct3 {
    ($w:ident [$($name:ident $funct3:literal,)*]) => {
        match funct3($w) {
            $($funct3 => Some(Insn::$name { rd: rd($w), rs1: rs1($w), rs2: rs2($w) }),)*
            _ => None,
        }
    };
}

// Shifts: the first two have the fixed field 0, the third has one of its own.
macro_rules! shift_by_fields {
    ($w:ident $above:ident $amount:ident [$($name:ident $funct3:literal $fixed:literal,)*]) => {
        match (funct3($w), $above($w)) {
            $(($funct3, $fixed) => Some(Insn::$name { rd: rd($w), rs1: rs1($w), imm: $amount($w) }),)*
            _ => None,
        }
    };
}

macro_rules! whole_word {
    ($w:ident [$($name:ident $word:literal,)*]) => {
        match $w {
            $($word => Some(Insn::$name),)*
            _ => None,
        }
    };
}

#[inline]
fn none(_w: u32) -> Option<Insn>
    ensures { result ≡ None }
{
    None
}

#[inline]
#[tactic(auto, unfolding(crate::specs::Decode::jump_register_of))]
fn jump_register(w: u32) -> Option<Insn>
    ensures { result ≡ jump_register_of (funct3_of w) w }
{
    match funct3(w) {
        0 => Some(Insn::Jalr {
            rd: rd(w),
            rs1: rs1(w),
            imm: immediate(w),
        }),
        _ => None,
    }
}

#[inline]
#[tactic(auto, unfolding(crate::specs::Decode::branch_of))]
fn branch(w: u32) -> Option<Insn>
    ensures { result ≡ branch_of (funct3_of w) w }
{
    with_branches!(branch_by_funct3 w)
}

#[inline]
#[tactic(auto, unfolding(crate::specs::Decode::load_of))]
fn load(w: u32) -> Option<Insn>
    ensures { result ≡ load_of (funct3_of w) w }
{
    with_loads!(immediate_by_funct3 w none)
}

#[inline]
#[tactic(auto, unfolding(crate::specs::Decode::store_of))]
fn store(w: u32) -> Option<Insn>
    ensures { result ≡ store_of (funct3_of w) w }
{
    with_stores!(store_by_funct3 w)
}

#[inline]
#[tactic(auto, unfolding(crate::specs::Decode::shift_of))]
fn shift(w: u32) -> Option<Insn>
    ensures { result ≡ shift_of (funct3_of w) (funct6_of w) w }
{
    with_shifts!(shift_by_fields w funct6 amount)
}

#[inline]
#[tactic(auto, unfolding(crate::specs::Decode::immediate_insn_of))]
fn immediate_insn(w: u32) -> Option<Insn>
    ensures { result ≡ immediate_insn_of (funct3_of w) (funct6_of w) w }
{
    with_immediates!(immediate_by_funct3 w shift)
}

#[inline]
#[tactic(auto, unfolding(crate::specs::Decode::word_shift_of))]
fn word_shift(w: u32) -> Option<Insn>
    ensures { result ≡ word_shift_of (funct3_of w) (funct7_of w) w }
{
    with_word_shifts!(shift_by_fields w funct7 word_amount)
}

#[inline]
#[tactic(auto, unfolding(crate::specs::Decode::word_immediate_of))]
fn word_immediate_insn(w: u32) -> Option<Insn>
    ensures { result ≡ word_immediate_of (funct3_of w) (funct7_of w) w }
{
    with_word_immediates!(immediate_by_funct3 w word_shift)
}

#[inline]
#[tactic(auto, unfolding(crate::specs::Decode::base_of))]
fn base(w: u32) -> Option<Insn>
    ensures { result ≡ base_of (funct3_of w) w }
{
    with_base!(register_by_funct3 w)
}

#[inline]
#[tactic(auto, unfolding(crate::specs::Decode::alternate_of))]
fn alternate(w: u32) -> Option<Insn>
    ensures { result ≡ alternate_of (funct3_of w) w }
{
    with_alternates!(register_by_funct3 w)
}

#[inline]
#[tactic(auto, unfolding(crate::specs::Decode::product_of))]
fn product(w: u32) -> Option<Insn>
    ensures { result ≡ product_of (funct3_of w) w }
{
    with_products!(register_by_funct3 w)
}

#[inline]
#[tactic(auto, unfolding(crate::specs::Decode::register_insn_of))]
fn register_insn(w: u32) -> Option<Insn>
    ensures { result ≡ register_insn_of (funct3_of w) (funct7_of w) w }
{
    match funct7(w) {
        0x00 => base(w),
        0x20 => alternate(w),
        0x01 => product(w),
        _ => None,
    }
}

#[inline]
#[tactic(auto, unfolding(crate::specs::Decode::word_base_of))]
fn word_base(w: u32) -> Option<Insn>
    ensures { result ≡ word_base_of (funct3_of w) w }
{
    with_word_base!(register_by_funct3 w)
}

#[inline]
#[tactic(auto, unfolding(crate::specs::Decode::word_alternate_of))]
fn word_alternate(w: u32) -> Option<Insn>
    ensures { result ≡ word_alternate_of (funct3_of w) w }
{
    with_word_alternates!(register_by_funct3 w)
}

#[inline]
#[tactic(auto, unfolding(crate::specs::Decode::word_product_of))]
fn word_product(w: u32) -> Option<Insn>
    ensures { result ≡ word_product_of (funct3_of w) w }
{
    with_word_products!(register_by_funct3 w)
}

#[inline]
#[tactic(auto, unfolding(crate::specs::Decode::word_register_insn_of))]
fn word_register_insn(w: u32) -> Option<Insn>
    ensures { result ≡ word_register_insn_of (funct3_of w) (funct7_of w) w }
{
    match funct7(w) {
        0x00 => word_base(w),
        0x20 => word_alternate(w),
        0x01 => word_product(w),
        _ => None,
    }
}

#[inline]
#[tactic(auto, unfolding(crate::specs::Decode::whole_word_of))]
fn whole_word(w: u32) -> Option<Insn>
    ensures { result ≡ whole_word_of w }
{
    with_whole_words!(whole_word w)
}

/// The instruction whose word is `w`, and `None` exactly where no instruction has that word.
#[inline]
#[tactic(auto, unfolding(crate::specs::Decode::decode_of, crate::specs::Decode::insn_by_fields))]
pub fn decode(w: u32) -> Option<Insn>
    ensures { result ≡ decode_of w }
{
    match opcode(w) {
        0x37 => Some(Insn::Lui {
            rd: rd(w),
            imm: upper(w),
        }),
        0x17 => Some(Insn::Auipc {
            rd: rd(w),
            imm: upper(w),
        }),
        0x6f => Some(Insn::Jal {
            rd: rd(w),
            imm: jump_offset(w),
        }),
        0x67 => jump_register(w),
        0x63 => branch(w),
        0x03 => load(w),
        0x23 => store(w),
        0x13 => immediate_insn(w),
        0x1b => word_immediate_insn(w),
        0x33 => register_insn(w),
        0x3b => word_register_insn(w),
        _ => whole_word(w),
    }
}
