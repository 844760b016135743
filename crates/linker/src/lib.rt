//! Units put together into the image of a program: each name at its one definition, each relocation resolved, all other bytes as assembled.
#![tactic(auto)]

mod fault;
mod laid;
mod linking;
mod names;
mod offsets;
mod patch;
mod resolve;
#[cfg(test)]
mod tests;

pub use fault::LinkFault;
pub use linking::link;
pub use program_image::Image;
