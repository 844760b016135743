//! Programs that are made to images, which the machine runs.

mod build;
mod calls;
mod flow;
mod frames;
mod operations;
mod room;
mod runs;
mod sums;
