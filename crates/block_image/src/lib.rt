//! From blocks with a home for each value to an image.
#![tactic(auto)]

mod chain;
mod sizes;

pub use chain::image_of_blocks;
