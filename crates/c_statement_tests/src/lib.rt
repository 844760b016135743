//! Tests of C's statements: texts, what they are read as, and their faults.
#![tactic(auto)]

#[cfg(test)]
mod tests;
