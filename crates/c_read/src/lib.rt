//! Reading a C file from its tokens behind the preprocessor, up to the first external declaration that breaks a rule (ISO/IEC 9899:2011, 6.9).
#![tactic(auto)]

mod laws;
mod nesting;
mod reading;
mod refusing;

pub use laws::{
    a_file_is_read, what_is_read_is_a_file, where_a_file_is_broken, words_without_use_are_refused,
};
pub use reading::read_c;
