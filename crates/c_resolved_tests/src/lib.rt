//! Tests of resolved trees of C: small units that hold together, and units with one wrong number.
#![tactic(auto)]

#[cfg(test)]
mod tests;
