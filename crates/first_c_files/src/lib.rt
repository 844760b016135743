//! The C texts of the first form are files of C's grammar, as a law.
#![tactic(auto)]

mod laws;

pub use laws::texts_of_the_form_are_files;
