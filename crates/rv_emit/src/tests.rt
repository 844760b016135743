//! Lines that are known from the calling convention.

mod build;
mod calls;
mod flow;
mod frames;
mod names;
