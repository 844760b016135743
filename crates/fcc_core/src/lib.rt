//! The top call: reads the words and the files, compiles, runs, and tells the end.
#![tactic(auto)]

mod front;
mod laws;
mod say;
mod tell;
mod top;

pub use laws::files_of_the_form_are_a_program;
pub use tell::say_memory;
pub use top::fcc;

#[cfg(test)]
mod tests;
