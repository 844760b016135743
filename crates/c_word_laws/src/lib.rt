//! Which words stand in no production of C's grammar (ISO/IEC 9899:2011, 6.4 to 6.9).
#![tactic(auto)]

mod laws;

pub use laws::{a_file_has_no_word_without_use, no_production_has_a_word_without_use};
