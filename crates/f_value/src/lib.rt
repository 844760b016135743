//! The elemental operations of Fortran on values: its operators and its elemental intrinsics, exactly, with the violation that
//! each meets (ISO/IEC 1539-1:2018, clauses 10 and 16).
#![tactic(auto)]

mod integer;
mod intrinsics;
mod laws;
mod operator;
#[cfg(test)]
mod tests;
mod text;
mod value;

pub use intrinsics::intrinsic;
pub use laws::{
    arguments_are_joined_bit_by_bit, division_leaves_the_remainder, modulo_has_the_sign_of_p,
    negative_powers_are_quotients, not_turns_each_bit, powers_are_repeated_products,
    remainders_of_a_kind, shifts_come_back, shifts_end, shifts_move_bits,
    texts_are_compared_with_blanks_behind, texts_are_in_order, texts_are_ordered,
};
pub use operator::{binary, unary};
pub use value::{Did, FIntrinsic, FOp, FValue};
