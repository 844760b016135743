//! Programs of the first form: a Fortran main program that calls one C function, which puts characters.
#![tactic(auto)]

mod c;
mod ends;
mod fortran;
mod laws;
mod lines;
mod pair;
mod program;
mod words;

pub use c::read_c;
pub use fortran::{FortranForm, read_fortran};
pub use laws::{
    c_text_is_read_in_one_way, each_program_has_texts, fortran_text_is_read_in_one_way,
    pair_is_read_in_one_way, texts_are_of_a_program, texts_have_few_tokens,
};
pub use pair::{Reading, read_pair};
pub use program::{FirstProgram, PutcharArgument};

#[cfg(test)]
mod tests;
