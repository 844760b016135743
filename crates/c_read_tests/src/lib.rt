//! Tests of reading C files: texts, their external declarations, and the first rule that one breaks.
#![tactic(auto)]

#[cfg(test)]
mod tests;
