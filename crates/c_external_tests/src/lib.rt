//! Tests of C's external declarations: files as lists of tokens, and what is read from them.
#![tactic(auto)]

#[cfg(test)]
mod tests;
