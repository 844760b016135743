ghost use Rattle.std.specs.Prelude.{◌≡◌, ◌*◌, ◌≤◌, ◌^◌, IfSome};
ghost use Rattle.std.specs.Option.{option_and_then, option_map};
ghost use Rattle.jf_base.specs.Numbers.{size_of_width};
ghost use Rattle.c_types.specs.Sizes.{alignment, at_most_limit, size_in, whole_size};

use crate::ctype::CType;
use crate::table::Types;
use jf_base::Width;

/// The bytes of a width.
fn bytes_in(width: Width) -> u64
    ensures value { result ≡ size_of_width width }
    ensures small { (1 ≤ result) × (result ≤ 8) }
{
    match width {
        Width::W1 => 1,
        Width::W2 => 2,
        Width::W4 => 4,
        Width::W8 => 8,
    }
}

/// The alignment of an object of this type (C11 6.2.8): None exactly for void, functions and incomplete types.
pub fn align_of(t: &Types, c: &CType) -> Option<u64>
    ensures value { result ≡ alignment t.now c.now }
    ensures small { IfSome result (λ a. (1 ≤ a) × (a ≤ 8)) }
{
    match c {
        CType::Void => None,
        CType::Bool => Some(1),
        CType::Int { width, .. } => Some(bytes_in(*width)),
        CType::Char => Some(1),
        CType::Enum(_) => Some(4),
        CType::Struct(s) => match t.layout(*s) {
            None => None,
            Some(layout) => Some(layout.align),
        },
        CType::Pointer(_) => Some(8),
        CType::Array(x, _) => align_of(t, x.get()),
        CType::Function(_) => None,
        CType::Descriptor => Some(8),
        CType::Cdesc(_) => Some(8),
        CType::Const(x) => align_of(t, x.get()),
    }
}

/// The most bytes that an object may have.
pub const LARGEST: u64 = 1 << 62;

/// The bytes of an object of this type (C11 6.5.3.4): None exactly for void, functions and incomplete types, and where the
/// size passes 2^62.
#[cycle(size)]
pub fn size_of(t: &Types, c: &CType) -> Option<u64>
    ensures value { result ≡ size_in t.now c.now }
    ensures small { IfSome result (λ size. size ≤ 2 ^ 62) }
{
    match c {
        CType::Void => None,
        CType::Bool => Some(1),
        CType::Int { width, .. } => Some(bytes_in(*width)),
        CType::Char => Some(1),
        CType::Enum(_) => Some(4),
        CType::Struct(s) => match t.layout(*s) {
            None => None,
            Some(layout) => Some(layout.size),
        },
        CType::Pointer(_) => Some(8),
        CType::Array(x, n) => array_size(t, x.get(), *n),
        CType::Function(_) => None,
        CType::Descriptor => Some(24),
        CType::Cdesc(r) => Some(24 + 24 * *r as u64),
        CType::Const(x) => size_of(t, x.get()),
    }
}

/// The bytes of `n` objects of this type in a row.
#[cycle(size)]
fn array_size(t: &Types, element: &CType, n: u64) -> Option<u64>
    ensures value { result ≡ option_and_then at_most_limit (option_map (λ size. size * n) (whole_size t.now element.now)) }
    ensures small { IfSome result (λ size. size ≤ 2 ^ 62) }
{
    if n == 0 {
        return match align_of(t, element) {
            None => None,
            Some(_) => Some(0),
        };
    }
    match size_of(t, element) {
        None => None,
        Some(size) => {
            if size <= LARGEST / n {
                Some(size * n)
            } else {
                None
            }
        }
    }
}
