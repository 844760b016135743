//! The expressions of `#if` and `#elif`.
//!
//! What controls a group of a C text is an expression over the widest integers (ISO/IEC 9899:2011, 6.10.1 and 6.6). Its tokens come here behind `defined`
//! and macro replacement, and it has a value or it has none.
#![tactic(auto)]

mod arithmetic;
mod choice;
mod condition;
mod laws;
mod marks;
mod number;
mod operators;
mod outcome;
mod reader;
mod token;

pub use condition::condition_value;
pub use laws::{one_expression, one_value};
pub use number::Number;
pub use token::Token;

#[cfg(test)]
mod tests;
