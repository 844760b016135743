//! Declaring again, for the body of a function, what its list of parameters declares (ISO/IEC 9899:2011, 6.2.1p4 and 6.9.1).
//!
//! While a declarator is read, its list of parameters is a scope of its own, which ends with the list. The body of a definition sees the parameters once
//! more, and with them the enumerators that stand in their types.
#![tactic(auto)]

mod declarator;
mod expression;
mod function;
mod specifier;

pub use function::declare_parameters;
