//! Tests of the names of Fortran programs: small programs as items, and the rules that they break, what their names denote, and the order of their units.
#![tactic(auto)]

#[cfg(test)]
mod tests;
