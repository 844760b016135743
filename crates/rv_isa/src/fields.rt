//! The fields of a word, and the immediates that they hold.
ghost use Rattle.std.specs.Prelude.{◌≡◌, ◌<◌, ◌^◌};
ghost use Rattle.rv_isa.specs.Decode.{opcode_of, rd_of, funct3_of, rs1_of, rs2_of, amount_of, funct6_of, funct7_of, extended, immediate_of, store_offset_of, branch_offset_of, upper_of, jump_offset_of};

#[inline]
pub(crate) fn opcode(w: u32) -> u32
    ensures { result ≡ opcode_of w }
{
    w % 128
}

#[inline]
pub(crate) fn rd(w: u32) -> u8
    ensures { result ≡ rd_of w }
{
    (w / 128 % 32) as u8
}

#[inline]
pub(crate) fn funct3(w: u32) -> u32
    ensures { result ≡ funct3_of w }
{
    w / 4096 % 8
}

#[inline]
pub(crate) fn rs1(w: u32) -> u8
    ensures { result ≡ rs1_of w }
{
    (w / 32768 % 32) as u8
}

#[inline]
pub(crate) fn rs2(w: u32) -> u8
    ensures { result ≡ rs2_of w }
{
    (w / 1048576 % 32) as u8
}

/// The amount of a shift.
#[inline]
pub(crate) fn amount(w: u32) -> u64
    ensures { result ≡ amount_of w }
{
    (w / 1048576 % 64) as u64
}

/// The amount of a shift of a word.
#[inline]
pub(crate) fn word_amount(w: u32) -> u64
    ensures { result ≡ rs2_of w }
{
    (w / 1048576 % 32) as u64
}

#[inline]
pub(crate) fn funct6(w: u32) -> u32
    ensures { result ≡ funct6_of w }
{
    w / 67108864
}

#[inline]
pub(crate) fn funct7(w: u32) -> u32
    ensures { result ≡ funct7_of w }
{
    w / 33554432
}

#[inline]
fn extend12(field: u32) -> u64
    requires { field < 4096 }
    ensures { result ≡ extended 12 field }
{
    if field < 2048 {
        field as u64
    } else {
        field as u64 + (u64::MAX - 4095)
    }
}

#[inline]
pub(crate) fn immediate(w: u32) -> u64
    ensures { result ≡ immediate_of w }
{
    extend12(w / 1048576)
}

#[inline]
pub(crate) fn store_offset(w: u32) -> u64
    ensures { result ≡ store_offset_of w }
{
    extend12(32 * (w / 33554432) + w / 128 % 32)
}

#[inline]
pub(crate) fn branch_offset(w: u32) -> u64
    ensures { result ≡ branch_offset_of w }
{
    let field = 4096 * (w / 2147483648)
        + 2048 * (w / 128 % 2)
        + 32 * (w / 33554432 % 64)
        + 2 * (w / 256 % 16);
    if field < 4096 {
        field as u64
    } else {
        field as u64 + (u64::MAX - 8191)
    }
}

#[inline]
pub(crate) fn upper(w: u32) -> u64
    ensures { result ≡ upper_of w }
{
    let field = (4096 * (w / 4096)) as u64;
    if field < 2147483648 {
        field
    } else {
        field + (u64::MAX - 4294967295)
    }
}

#[inline]
pub(crate) fn jump_offset(w: u32) -> u64
    ensures { result ≡ jump_offset_of w }
{
    let field = 1048576 * (w / 2147483648)
        + 4096 * (w / 4096 % 256)
        + 2048 * (w / 1048576 % 2)
        + 2 * (w / 2097152 % 1024);
    if field < 1048576 {
        field as u64
    } else {
        field as u64 + (u64::MAX - 2097151)
    }
}
