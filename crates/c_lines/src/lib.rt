//! The lines of a C text: preprocessing tokens cut at line ends, which directive each line is, and names of headers.
#![tactic(auto)]

mod head;
mod header;
mod row;
mod rule;

pub use head::{Head, head_at, is_hash, is_paste};
pub use header::{Delimiter, header_of, spelled};
pub use row::row_at;
pub use rule::{Fault, Rule, first_ill, tag_number};

#[cfg(test)]
mod tests;
