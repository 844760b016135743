//! Statements.

use crate::declaration::Declaration;
use crate::expression::Expr;
use jf_base::{Boxed, List};

/// A statement (ISO/IEC 9899:2011, 6.8).
#[cycle(statement)]
#[derive(Drop)]
pub enum Statement {
    Block {
        items: List<BlockItem>,
        at: u32,
    },
    /// An expression, or nothing, before a semicolon.
    Expression {
        value: Option<Expr>,
        at: u32,
    },
    If {
        test: Expr,
        body: Boxed<Statement>,
        otherwise: Option<Boxed<Statement>>,
        at: u32,
    },
    Switch {
        value: Expr,
        body: Boxed<Statement>,
        at: u32,
    },
    /// A label of the innermost `switch` around it, and the value of its constant in the promoted type of what is switched on (6.8.4.2).
    Case {
        constant: Expr,
        value: i128,
        body: Boxed<Statement>,
        at: u32,
    },
    Default {
        body: Boxed<Statement>,
        at: u32,
    },
    While {
        test: Expr,
        body: Boxed<Statement>,
        at: u32,
    },
    DoWhile {
        body: Boxed<Statement>,
        test: Expr,
        at: u32,
    },
    For {
        start: ForStart,
        test: Option<Expr>,
        step: Option<Expr>,
        body: Boxed<Statement>,
        at: u32,
    },
    Break {
        at: u32,
    },
    Continue {
        at: u32,
    },
    Return {
        value: Option<Expr>,
        at: u32,
    },
}

/// What stands in a block (ISO/IEC 9899:2011, 6.8.2).
#[cycle(statement)]
#[derive(Drop)]
pub enum BlockItem {
    Declaration(Declaration),
    Statement(Statement),
}

/// What a `for` begins with (ISO/IEC 9899:2011, 6.8.5.3).
#[derive(Drop)]
pub enum ForStart {
    Declaration(Declaration),
    Expression(Option<Expr>),
}
