//! Tests of resolved trees of Fortran: a small program that holds together, and programs with one wrong number.
#![tactic(auto)]

#[cfg(test)]
mod tests;
