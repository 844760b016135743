//! The grammar of Fortran's expressions, references, types and action statements over tokens (ISO/IEC 1539-1:2018, 5.1, 7.2, 9 and 10.1), as
//! definitions and their laws.
#![tactic(auto)]

mod laws;

pub use laws::{
    action_that_fits_is_read, action_that_is_read_fits, one_action, one_tree,
    reference_that_fits_is_read, reference_that_is_read_fits, type_that_fits_is_read,
    type_that_is_read_fits, what_fits_is_read, what_is_read_fits,
};
