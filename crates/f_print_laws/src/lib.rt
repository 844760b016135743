//! The text of printed tokens has these tokens, as laws.
#![tactic(auto)]

mod laws;

pub use laws::{
    lexed_tokens_are_such, printed_statements_are_read_again, printed_tokens_are_lexed,
};
