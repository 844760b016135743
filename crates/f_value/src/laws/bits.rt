ghost use Rattle.std.specs.Prelude.{◌&&◌, ◌||◌, not};
ghost use Rattle.f_value.specs.Laws.{JoinsBits, TurnsBits, ShiftsLeft, ShiftsRight, ComesBackFromLeft, ComesBackFromRight, EmptiesByWidth, RefusesMore};

use crate::value::FIntrinsic;

/// Laws: a bit of IAND is 1 where it is in both arguments, of IOR where it is in either, of IEOR where it is in one alone, for
/// each bit of two numbers as two's complement (16.9.90, 16.9.101, 16.9.96).
pub fn arguments_are_joined_bit_by_bit()
    ensures iand { JoinsBits FIntrinsic.Iand (λ p q. p && q) }
    ensures ior { JoinsBits FIntrinsic.Ior (λ p q. p || q) }
    ensures ieor { JoinsBits FIntrinsic.Ieor (λ p q. (p && not q) || (not p && q)) }
{}

/// A law: NOT turns each bit of a number as two's complement, and so gives -1 less the number (16.9.143).
pub fn not_turns_each_bit()
    ensures { TurnsBits }
{}

/// Laws: a shift to the left multiplies by a power of 2 and drops what leaves the bits, and a shift to the right divides the bits
/// as a number without sign (16.9.103).
pub fn shifts_move_bits()
    ensures left { ShiftsLeft }
    ensures right { ShiftsRight }
{}

/// Laws: a shift and the shift back give the number again where no 1 was lost.
pub fn shifts_come_back()
    ensures from_left { ComesBackFromLeft }
    ensures from_right { ComesBackFromRight }
{}

/// Laws: a shift by the number of bits, either way, gives 0, and one by more is a violation.
pub fn shifts_end()
    ensures by_width { EmptiesByWidth }
    ensures by_more { RefusesMore }
{}
