//! How much a limit on nesting changes of what is read of C (ISO/IEC 9899:2011, 6.9): nothing, but where a nesting too many stops the reading.
#![tactic(auto)]

mod laws;

pub use laws::{more_nestings_read_the_same, what_has_no_form_is_none};
