//! What every crate of the compiler speaks of: places in files, tags of rules, limits, numbers of a width with their bytes,
//! and lists, texts and boxes that contracts see as what they hold.
#![tactic(auto)]

mod boxed;
mod list;
mod numbers;
mod place;
mod tag;
mod text;

pub use boxed::Boxed;
pub use list::List;
pub use numbers::{Width, bytes_of, fit, number_of, wrap};
pub use place::{Limits, Memory, Place, Refusal};
pub use tag::{Tag, tag_text};
pub use text::Text;

#[cfg(test)]
mod tests;
