//! Reading the parts of Fortran's declarations from tokens: dimensions, attributes, what is declared, and the names that other statements list
//! (ISO/IEC 1539-1:2018, 7.5.2, 8.5, 14.2.2 and 15.4.3.6).
#![tactic(auto)]

mod attribute;
mod dimension;
mod entity;
mod list;
mod used;
mod word;

pub use attribute::bind;
pub use dimension::{dimensions, maybe_dimensions};
pub use entity::null;
pub use list::{Parse, behind_commas, listed, more};
pub use word::{dots_at, maybe_colons, name, text, this, this_at};

#[cfg(test)]
mod tests;
