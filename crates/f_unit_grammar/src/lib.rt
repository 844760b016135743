//! Which statements a Fortran file is made of (ISO/IEC 1539-1:2018, 5.1 to 5.3), as definitions and their laws.
#![tactic(auto)]

mod laws;

pub use laws::{
    a_file_is_placed, a_text_is_read, one_file, the_first_broken_rule,
    what_has_no_place_begins_no_file, what_is_placed_begins_a_file, what_is_placed_is_a_file,
    what_is_read_is_a_text,
};
