//! Reading C's external declarations from tokens, and all of a file up to the first that breaks a rule (ISO/IEC 9899:2011, 6.9).
#![tactic(auto)]

mod external;
mod file;
mod laws;
mod made;
mod read;

pub use file::{BrokenExternal, ExternalsError, read_externals};
pub use laws::{
    declarations_are_those_of_the_grammar, what_is_file_is_read, what_is_read_is_file,
    where_file_is_broken,
};
pub use read::read_external;
