//! Tests of C's expressions, specifiers and declarators: texts, and the trees and faults that are read from them.
#![tactic(auto)]

#[cfg(test)]
mod tests;
