//! Declarations and derived types.

use crate::attributes::Attributes;
use crate::dimension::Shape;
use crate::expression::Expression;
use crate::kind::DataType;
use f_tree::Name;
use jf_base::{Boxed, List, Place};

/// An initial value, or the value of a named constant (ISO/IEC 1539-1:2018, 8.4).
#[derive(Drop)]
pub enum Initial {
    /// `= value`
    Value(Boxed<Expression>),
    /// `=> null()`
    Null,
}

/// A data object or a procedure pointer that is declared (ISO/IEC 1539-1:2018, 8.2 and 15.4.3.6).
#[derive(Drop)]
pub struct Declaration {
    /// Its name, with the place where it stands.
    pub name: Name,
    /// The place of the first token of its declaration.
    pub place: Place,
    pub kind: DataType,
    pub shape: Shape,
    pub attributes: Attributes,
    /// The binding label of a variable with BIND(C) (18.9.2).
    pub label: Option<List<u8>>,
    pub initial: Option<Initial>,
    /// Whether a statement, an expression or an initial value names it.
    pub is_used: bool,
}

/// A component of a derived type (ISO/IEC 1539-1:2018, 7.5.4).
#[derive(Drop)]
pub struct Component {
    pub name: Name,
    pub kind: DataType,
    pub shape: Shape,
}

/// A derived type, which has BIND(C), and its components in their order (ISO/IEC 1539-1:2018, 7.5.2).
#[derive(Drop)]
pub struct DerivedType {
    pub name: Name,
    /// The place of the first token of its definition.
    pub place: Place,
    pub components: List<Component>,
}
