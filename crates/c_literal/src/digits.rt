//! Runs of digits.

ghost use Rattle.std.specs.Prelude.{◌≡◌, ◌≤◌, ◌<◌, IfSome, Some};
ghost use Rattle.c_literal.specs.Digits.{digit_at, counted, digits_at, seen};

/// The digit of the radix that stands first, and what follows it.
#[tactic(auto, unfolding(crate::specs::Digits::digit_at))]
pub fn digit_at(radix: u32, text: &[u8]) -> Option<(u64, &[u8])>
    requires lower_bound { 2 ≤ radix }
    requires upper_bound { radix ≤ 16 }
    ensures found { digit_at radix text.now ≡ seen (λ x. (x.0, x.1.now)) result }
    ensures below { IfSome result (λ x. x.0 < radix) }
{
    match text.split_first() {
        None => None,
        Some((first, rest)) => match (*first as char).to_digit(radix) {
            None => None,
            Some(digit) => Some((digit as u64, rest)),
        },
    }
}

// The number that a digit more makes, if it is one of 64 bits.
fn counted(radix: u32, value: Option<u64>, digit: u64) -> Option<u64>
    ensures { result ≡ counted radix value digit }
{
    match value {
        None => None,
        Some(value) => match value.checked_mul(radix as u64) {
            None => None,
            Some(product) => product.checked_add(digit),
        },
    }
}

/// The number that the digits at the front make, if it is one of 64 bits, and what follows them.
#[tactic(auto, unfolding(crate::specs::Digits::digits_at))]
pub fn digits_at(radix: u32, text: &[u8]) -> (Option<u64>, &[u8])
    requires lower_bound { 2 ≤ radix }
    requires upper_bound { radix ≤ 16 }
    ensures { (result.0, result.1.now) ≡ digits_at radix (Some 0) text.now }
{
    let mut value = Some(0);
    let mut rest = text;
    while let Some((first, tail)) = rest.split_first() {
        match (*first as char).to_digit(radix) {
            None => return (value, rest),
            Some(digit) => {
                value = counted(radix, value, digit as u64);
                rest = tail;
            }
        }
    }
    (value, rest)
}
