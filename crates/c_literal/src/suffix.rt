//! Suffixes of integer constants.

ghost use Rattle.std.specs.Prelude.{◌≡◌};
ghost use Rattle.c_literal.specs.IntegerReading.{unsigned_at, long_at, suffix_at, ended};

use crate::integer::LongSuffix;

/// The suffixes of an integer constant.
#[derive(Clone, Copy, PartialEq, Eq, Debug)]
pub struct Suffixes {
    pub is_unsigned: bool,
    pub long: LongSuffix,
}

// Whether an unsigned suffix stands first, and what follows it.
#[tactic(auto, unfolding(crate::specs::IntegerReading::unsigned_at))]
fn unsigned_suffix(text: &[u8]) -> (bool, &[u8])
    ensures { (result.0, result.1.now) ≡ unsigned_at text.now }
{
    match text.split_first() {
        None => (false, text),
        Some((first, rest)) => {
            if *first == b'u' || *first == b'U' {
                (true, rest)
            } else {
                (false, text)
            }
        }
    }
}

// Which long suffix stands first, the longest that fits, and what follows it.
#[tactic(auto, unfolding(crate::specs::IntegerReading::long_at))]
fn long_suffix(text: &[u8]) -> (LongSuffix, &[u8])
    ensures { (result.0, result.1.now) ≡ long_at text.now }
{
    match text.split_first() {
        None => (LongSuffix::Absent, text),
        Some((first, rest)) => {
            if *first != b'l' && *first != b'L' {
                return (LongSuffix::Absent, text);
            }
            match rest.split_first() {
                None => (LongSuffix::Long, rest),
                Some((second, others)) => {
                    if *second == *first {
                        (LongSuffix::LongLong, others)
                    } else {
                        (LongSuffix::Long, rest)
                    }
                }
            }
        }
    }
}

// The suffixes, if nothing follows them.
fn ended(is_unsigned: bool, long: LongSuffix, rest: &[u8]) -> Option<Suffixes>
    ensures { result ≡ ended is_unsigned long rest.now }
{
    if rest.is_empty() {
        Some(Suffixes { is_unsigned, long })
    } else {
        None
    }
}

/// The suffixes that the text consists of, in either order (ISO/IEC 9899:2011, 6.4.4.1).
#[tactic(auto, unfolding(crate::specs::IntegerReading::suffix_at))]
pub fn suffix_at(text: &[u8]) -> Option<Suffixes>
    ensures { result ≡ suffix_at text.now }
{
    let (is_unsigned, rest) = unsigned_suffix(text);
    let (long, behind) = long_suffix(rest);
    if is_unsigned {
        ended(true, long, behind)
    } else {
        let (is_unsigned, rest) = unsigned_suffix(behind);
        ended(is_unsigned, long, rest)
    }
}
