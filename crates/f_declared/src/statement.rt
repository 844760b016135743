//! Statements as they stand in a text, before they are put together to units.

use f_tree::{
    AccessStatement, Head, Import, Name, ProcedurePointers, TypeAttribute, Use, Variables,
};
use jf_base::{List, Place};

/// A statement of a specification part, or one that begins, divides or ends a unit, an interface or the definition of a derived type.
#[derive(Drop)]
pub enum Declared {
    /// PROGRAM (ISO/IEC 1539-1:2018, 14.1)
    Program {
        place: Place,
        name: Name,
    },
    /// MODULE (14.2.1)
    Module {
        place: Place,
        name: Name,
    },
    /// SUBROUTINE or FUNCTION with what stands before and behind it (15.6.2)
    Head(Head),
    Contains {
        place: Place,
    },
    Use(Use),
    Import(Import),
    ImplicitNone {
        place: Place,
    },
    /// A type declaration (8.2), or a statement that declares components (7.5.4)
    Variables(Variables),
    TypeStart(TypeStart),
    /// INTERFACE or ABSTRACT INTERFACE (15.4.3.2)
    InterfaceStart {
        place: Place,
        is_abstract: bool,
    },
    Access(AccessStatement),
    Save {
        place: Place,
    },
    ProcedurePointers(ProcedurePointers),
    /// END alone
    End {
        place: Place,
    },
    /// END with the word of what it ends, in two words or in one
    EndOf {
        place: Place,
        what: Ended,
        is_one_word: bool,
        name: Option<Name>,
    },
}

/// The statement that begins the definition of a derived type (ISO/IEC 1539-1:2018, 7.5.2).
#[derive(Drop)]
pub struct TypeStart {
    pub place: Place,
    pub attributes: List<TypeAttribute>,
    pub has_colons: bool,
    pub name: Name,
}

/// What an END statement ends by its word.
#[derive(Clone, Copy, PartialEq, Eq, Debug)]
pub enum Ended {
    Program,
    Module,
    Subroutine,
    Function,
    Type,
    Interface,
}
