//! Reading C's expressions, specifiers and declarators from tokens, with the names of types in scope (ISO/IEC 9899:2011, 6.5 and 6.7).
#![tactic(auto)]

mod chain;
mod declarator;
mod made;
mod naming;
mod operand;
mod operator;
mod read;
mod run;
mod specifier;
mod word;

pub use made::in_front;
pub use naming::{is_typedef, name_of};
pub use read::{
    read_assignment, read_constant, read_declarator, read_expression, read_nested_expression,
    read_specifiers, read_typed,
};
pub use word::{
    braced, broken, closed, colon, comma_at, deep, ended, ends_braces, last_comma, number,
};
