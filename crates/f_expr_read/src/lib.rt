//! Reading Fortran's expressions, references and types from tokens (ISO/IEC 1539-1:2018, 7.2, 9 and 10.1).
#![tactic(auto)]

mod error;
mod made;
mod read;
mod reader;
mod types;
mod word;

pub use error::ReadError;
pub use read::{read_expression, read_reference, read_type};
pub use word::{
    begins_colon, begins_typed, behind_group, closed_at, colon_at, colons_at, comma_at, end_at,
    ends_bound, height_of, key_at, link_at, name_at, open_at, percent_at, sign_at, sign_height,
    star_at, word_at,
};

#[cfg(test)]
mod tests;
