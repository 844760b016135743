ghost use Rattle.std.specs.Prelude.{◌≡◌, ◌↔◌, IsTrue, length, ◌≤◌, ◌<◌, ◌^◌};
ghost use Rattle.jf_base.specs.Numbers.{Fits, wrapped, bytes_low_first_of, number_at, number_low_first, size_of_width};

/// The width of a number in bytes.
#[derive(Clone, Copy, PartialEq, Eq, Debug)]
pub enum Width {
    W1,
    W2,
    W4,
    W8,
}

/// Whether a number of this width and signedness can hold `v`.
pub fn fit(v: i128, w: Width, signed: bool) -> bool
    ensures { IsTrue result ↔ Fits v w signed }
{
    let (low, high): (i128, i128) = match (w, signed) {
        (Width::W1, false) => (0, 255),
        (Width::W2, false) => (0, 65535),
        (Width::W4, false) => (0, 4294967295),
        (Width::W8, false) => (0, 18446744073709551615),
        (Width::W1, true) => (-128, 127),
        (Width::W2, true) => (-32768, 32767),
        (Width::W4, true) => (-2147483648, 2147483647),
        (Width::W8, true) => (-9223372036854775808, 9223372036854775807),
    };
    low <= v && v <= high
}

/// The number of this width and signedness that is congruent to `v`.
pub fn wrap(v: i128, w: Width, signed: bool) -> i128
    ensures { result ≡ wrapped v w signed }
{
    let modulus: i128 = match w {
        Width::W1 => 256,
        Width::W2 => 65536,
        Width::W4 => 4294967296,
        Width::W8 => 18446744073709551616,
    };
    let low = v.rem_euclid(modulus);
    if signed && low >= modulus / 2 {
        low - modulus
    } else {
        low
    }
}

/// The bytes of `v` in two's complement, the lowest first, and 0 past the width.
pub fn bytes_of(v: i128, w: Width) -> [u8; 8]
    ensures { result ≡ bytes_low_first_of v w }
{
    let low = wrap(v, w, false) as u64;
    low.to_le_bytes()
}

fn low_four(b: &[u8]) -> u64
    requires { 4 ≤ length b.now }
    ensures value { result ≡ number_low_first 0 4 b.now }
    ensures bound { result < 2 ^ 32 }
{
    b[0] as u64 + 256 * (b[1] as u64 + 256 * (b[2] as u64 + 256 * b[3] as u64))
}

/// The number in these bytes, the lowest first.
pub fn number_of(b: &[u8], w: Width, signed: bool) -> i128
    requires { length b.now ≡ size_of_width w }
    ensures { result ≡ number_at b.now w signed }
{
    let low = match w {
        Width::W1 => b[0] as u64,
        Width::W2 => b[0] as u64 + 256 * b[1] as u64,
        Width::W4 => low_four(b),
        Width::W8 => low_four(b) + 4294967296 * low_four(&b[4..]),
    };
    wrap(low as i128, w, signed)
}
