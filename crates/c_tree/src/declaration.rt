//! Declarations.

use crate::expression::{Declarator, Expr, Specifier};
use jf_base::List;

/// An initial value (ISO/IEC 9899:2011, 6.7.9).
#[cycle(initial)]
#[derive(Drop)]
pub enum Initializer {
    Value(Expr),
    /// `{ items [,] }`, of which there is one at least.
    Braced {
        items: List<Initializer>,
        has_comma: bool,
        at: u32,
    },
}

/// A declarator with its initial value, where it has one (ISO/IEC 9899:2011, 6.7).
#[derive(Drop)]
pub struct InitDeclarator {
    pub declarator: Declarator,
    pub value: Option<Initializer>,
    pub at: u32,
}

/// A declaration: specifiers, one at least, and declarators (ISO/IEC 9899:2011, 6.7).
#[derive(Drop)]
pub struct Declaration {
    pub specifiers: List<Specifier>,
    pub declarators: List<InitDeclarator>,
    pub at: u32,
}
