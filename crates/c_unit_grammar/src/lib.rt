//! The grammar of C's declarations, statements and external declarations (ISO/IEC 9899:2011, 6.7 to 6.9), as definitions and their laws.
#![tactic(auto)]

mod laws;

pub use laws::{
    a_file_tells_its_first_fault, one_external_tree, one_statement_tree, what_is_external_is_read,
    what_is_read_is_external, what_is_read_is_statement, what_is_statement_is_read,
};
