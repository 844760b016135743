//! The grammar of C (ISO/IEC 9899:2011, 6.5 and 6.7): expressions, specifiers and declarators with the names of types in scope, as definitions and their laws.
#![tactic(auto)]

mod fault;
mod laws;
mod scope;
mod token;

pub use fault::{Fault, Kind, ReadError};
pub use laws::{
    one_declaring_tree, one_tree, what_declares_is_read, what_fits_is_read, what_is_read_declares,
    what_is_read_fits,
};
pub use scope::{Binding, is_type, starts_type};
pub use token::{Allowed, Token};
