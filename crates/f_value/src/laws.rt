//! What a program may rest on: laws of the operators and the intrinsic functions, each the contract of a function that does nothing.

mod bits;
mod powers;
mod remainders;
mod texts;

pub use bits::{
    arguments_are_joined_bit_by_bit, not_turns_each_bit, shifts_come_back, shifts_end,
    shifts_move_bits,
};
pub use powers::{negative_powers_are_quotients, powers_are_repeated_products};
pub use remainders::{
    division_leaves_the_remainder, modulo_has_the_sign_of_p, remainders_of_a_kind,
};
pub use texts::{texts_are_compared_with_blanks_behind, texts_are_in_order, texts_are_ordered};
