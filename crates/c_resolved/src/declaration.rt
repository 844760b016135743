//! Declarations.

use crate::expression::Expr;
use c_types::CType;
use jf_base::List;

/// String literals that stand side by side, by their numbers among the literals of the unit (ISO/IEC 9899:2011, 6.4.5). Their bytes
/// stand one behind the other, with a zero behind the last.
#[derive(Drop)]
pub struct StringLiteral {
    pub first: u32,
    pub others: List<u32>,
    pub at: u32,
}

/// An initial value, for an object whose type is known (ISO/IEC 9899:2011, 6.7.9).
#[cycle(initial)]
#[derive(Drop)]
pub enum Initializer {
    /// A value, which is converted to the type of the object.
    Value(Expr),
    /// The bytes of a string literal, for an array of characters. Such a literal is no object.
    Text(StringLiteral),
    /// Initial values of the first elements of an array or of the first members of a struct, in their order. It stands for each array
    /// and struct that isn't initialized by a value or a text, whether braces stand in the text or not (p20). What has no initial value
    /// is zero, and a pointer null (p21).
    Aggregate { items: List<Initializer>, at: u32 },
}

/// A parameter or an object of automatic storage duration: the number of its name, its type, and the token of its name.
#[derive(Drop)]
pub struct Local {
    pub name: u32,
    pub kind: CType,
    pub at: u32,
}

/// The declaration of an object of automatic storage duration, by its number among the locals of its function (ISO/IEC 9899:2011, 6.7).
#[derive(Drop)]
pub struct LocalDeclaration {
    pub local: u32,
    pub value: Option<Initializer>,
    pub at: u32,
}

/// A declaration in a block: the objects of automatic storage duration that it declares, in their order. All else that it declares stands
/// in the lists of the unit.
#[derive(Drop)]
pub struct Declaration {
    pub locals: List<LocalDeclaration>,
    pub at: u32,
}
