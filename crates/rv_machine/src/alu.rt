//! Operations on registers.
ghost use Rattle.std.specs.Prelude.{◌≡◌};
ghost use Rattle.std.specs.Int.{w8, w16, w32};
ghost use Rattle.rv_machine.specs.Alu.{low_word, extended, extended_word, sum_of, difference_of, is_less_signed, is_less_unsigned, shifted_left, shifted_right, shifted_right_signed, word_sum, word_difference, word_shifted_left, word_shifted_right, word_shifted_right_signed, product_of, word_product, high_product_signed, high_product_mixed, high_product_unsigned, quotient_unsigned, remainder_unsigned, quotient_signed, remainder_signed, word_quotient_unsigned, word_remainder_unsigned, word_quotient_signed, word_remainder_signed};

#[inline(always)]
pub(crate) fn extended_8(x: u8) -> u64
    ensures { result ≡ extended w8 x }
{
    (x.cast_signed() as i64).cast_unsigned()
}

#[inline(always)]
pub(crate) fn extended_16(x: u16) -> u64
    ensures { result ≡ extended w16 x }
{
    (x.cast_signed() as i64).cast_unsigned()
}

#[inline(always)]
pub(crate) fn extended_32(x: u32) -> u64
    ensures { result ≡ extended w32 x }
{
    (x.cast_signed() as i64).cast_unsigned()
}

#[inline(always)]
fn low_word(a: u64) -> u32
    ensures { result ≡ low_word a }
{
    (a % (1 << 32)) as u32
}

#[inline(always)]
fn extended_word(a: u64) -> u64
    ensures { result ≡ extended_word a }
{
    extended_32(low_word(a))
}

#[inline(always)]
pub(crate) fn sum_of(a: u64, b: u64) -> u64
    ensures { result ≡ sum_of a b }
{
    a.wrapping_add(b)
}

#[inline(always)]
pub(crate) fn difference_of(a: u64, b: u64) -> u64
    ensures { result ≡ difference_of a b }
{
    a.wrapping_sub(b)
}

#[inline(always)]
pub(crate) fn is_less_signed(a: u64, b: u64) -> u64
    ensures { result ≡ is_less_signed a b }
{
    if a.cast_signed() < b.cast_signed() {
        1
    } else {
        0
    }
}

#[inline(always)]
pub(crate) fn is_less_unsigned(a: u64, b: u64) -> u64
    ensures { result ≡ is_less_unsigned a b }
{
    if a < b { 1 } else { 0 }
}

#[inline(always)]
pub(crate) fn shifted_left(a: u64, n: u64) -> u64
    ensures { result ≡ shifted_left a n }
{
    a.wrapping_shl((n % 64) as u32)
}

#[inline(always)]
pub(crate) fn shifted_right(a: u64, n: u64) -> u64
    ensures { result ≡ shifted_right a n }
{
    a.wrapping_shr((n % 64) as u32)
}

#[inline(always)]
pub(crate) fn shifted_right_signed(a: u64, n: u64) -> u64
    ensures { result ≡ shifted_right_signed a n }
{
    a.cast_signed()
        .wrapping_shr((n % 64) as u32)
        .cast_unsigned()
}

#[inline(always)]
pub(crate) fn word_sum(a: u64, b: u64) -> u64
    ensures { result ≡ word_sum a b }
{
    extended_word(a.wrapping_add(b))
}

#[inline(always)]
pub(crate) fn word_difference(a: u64, b: u64) -> u64
    ensures { result ≡ word_difference a b }
{
    extended_word(a.wrapping_sub(b))
}

#[inline(always)]
pub(crate) fn word_shifted_left(a: u64, n: u64) -> u64
    ensures { result ≡ word_shifted_left a n }
{
    extended_32(low_word(a).wrapping_shl((n % 32) as u32))
}

#[inline(always)]
pub(crate) fn word_shifted_right(a: u64, n: u64) -> u64
    ensures { result ≡ word_shifted_right a n }
{
    extended_32(low_word(a).wrapping_shr((n % 32) as u32))
}

#[inline(always)]
pub(crate) fn word_shifted_right_signed(a: u64, n: u64) -> u64
    ensures { result ≡ word_shifted_right_signed a n }
{
    let word = low_word(a).cast_signed();
    (word.wrapping_shr((n % 32) as u32) as i64).cast_unsigned()
}

#[inline(always)]
pub(crate) fn product_of(a: u64, b: u64) -> u64
    ensures { result ≡ product_of a b }
{
    a.wrapping_mul(b)
}

#[inline(always)]
pub(crate) fn word_product(a: u64, b: u64) -> u64
    ensures { result ≡ word_product a b }
{
    extended_word(a.wrapping_mul(b))
}

#[inline]
pub(crate) fn high_product_signed(a: u64, b: u64) -> u64
    ensures { result ≡ high_product_signed a b }
{
    let product = a.cast_signed() as i128 * b.cast_signed() as i128;
    (product.cast_unsigned() / (1 << 64)) as u64
}

#[inline]
pub(crate) fn high_product_mixed(a: u64, b: u64) -> u64
    ensures { result ≡ high_product_mixed a b }
{
    let product = a.cast_signed() as i128 * b as i128;
    (product.cast_unsigned() / (1 << 64)) as u64
}

#[inline]
pub(crate) fn high_product_unsigned(a: u64, b: u64) -> u64
    ensures { result ≡ high_product_unsigned a b }
{
    (a as u128 * b as u128 / (1 << 64)) as u64
}

#[inline]
pub(crate) fn quotient_unsigned(a: u64, b: u64) -> u64
    ensures { result ≡ quotient_unsigned a b }
{
    if b == 0 { u64::MAX } else { a / b }
}

#[inline]
pub(crate) fn remainder_unsigned(a: u64, b: u64) -> u64
    ensures { result ≡ remainder_unsigned a b }
{
    if b == 0 { a } else { a % b }
}

#[inline]
pub(crate) fn quotient_signed(a: u64, b: u64) -> u64
    ensures { result ≡ quotient_signed a b }
{
    if b == 0 {
        return u64::MAX;
    }
    a.cast_signed()
        .wrapping_div(b.cast_signed())
        .cast_unsigned()
}

#[inline]
pub(crate) fn remainder_signed(a: u64, b: u64) -> u64
    ensures { result ≡ remainder_signed a b }
{
    if b == 0 {
        return a;
    }
    a.cast_signed()
        .wrapping_rem(b.cast_signed())
        .cast_unsigned()
}

#[inline]
pub(crate) fn word_quotient_unsigned(a: u64, b: u64) -> u64
    ensures { result ≡ word_quotient_unsigned a b }
{
    let (x, y) = (low_word(a), low_word(b));
    if y == 0 { u64::MAX } else { extended_32(x / y) }
}

#[inline]
pub(crate) fn word_remainder_unsigned(a: u64, b: u64) -> u64
    ensures { result ≡ word_remainder_unsigned a b }
{
    let (x, y) = (low_word(a), low_word(b));
    extended_32(if y == 0 { x } else { x % y })
}

#[inline]
pub(crate) fn word_quotient_signed(a: u64, b: u64) -> u64
    ensures { result ≡ word_quotient_signed a b }
{
    let (x, y) = (low_word(a), low_word(b));
    if y == 0 {
        return u64::MAX;
    }
    let quotient = x.cast_signed().wrapping_div(y.cast_signed());
    extended_32(quotient.cast_unsigned())
}

#[inline]
pub(crate) fn word_remainder_signed(a: u64, b: u64) -> u64
    ensures { result ≡ word_remainder_signed a b }
{
    let (x, y) = (low_word(a), low_word(b));
    if y == 0 {
        return extended_32(x);
    }
    let remainder = x.cast_signed().wrapping_rem(y.cast_signed());
    extended_32(remainder.cast_unsigned())
}
