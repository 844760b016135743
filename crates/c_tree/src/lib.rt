//! Trees of C texts: a struct or a variant for each production of the grammar, as it was read and before anything is resolved.
//!
//! What the grammar repeats is a list, and so are chains of operators, so that only what the nesting limit counts is nested.
//! Each node has the number of its first token in the unit, counted from 0; the unit tells the place of each token by its number.
#![tactic(auto)]

mod declaration;
mod expression;
mod operator;
mod statement;
mod unit;

pub use declaration::{Declaration, InitDeclarator, Initializer};
pub use expression::{
    Choice, Core, Declarator, Enumerator, Expr, Link, MemberDeclaration, Parameters, Postfix,
    Specifier, Suffix, Target, Typed,
};
pub use operator::{
    AssignOperator, BinaryOperator, ConstantType, Height, PointerMark, PrefixOperator,
    SpecifierWord,
};
pub use statement::{BlockItem, ForStart, Statement};
pub use unit::{CProgram, CUnit, External};

#[cfg(test)]
mod tests;
