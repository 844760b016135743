//! The tokens that trees of Fortran units stand for are those that the grammar spells, as laws.
//!
//! A tree keeps more than the grammar's plain data, and where its view doesn't tell all of its tokens, `specs/Told.antt` says so: such a tree has an empty
//! list where the grammar has none, or words that end nothing.
#![tactic(auto)]

mod laws;

pub use laws::{
    lexemes_are_a_file, lexemes_are_the_statements, lexemes_of_a_block, lexemes_of_a_reference,
    lexemes_of_a_specification, lexemes_of_a_type, lexemes_of_an_action, lexemes_of_an_expression,
    plain_units_are_told, printed_units_are_read_again,
};
