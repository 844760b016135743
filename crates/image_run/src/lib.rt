//! A machine that runs an image over a source of bytes and a sink for them.
#![tactic(auto)]

mod run;

pub use run::{Ended, run_image};
