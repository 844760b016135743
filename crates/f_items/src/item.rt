//! The names of a program in the order of its text.

use jf_base::{List, Place};

/// A name with its letters lowered (ISO/IEC 1539-1:2018, 6.2.2), and its place.
#[derive(Clone, PartialEq, Eq, Drop, Debug)]
pub struct Name {
    pub bytes: List<u8>,
    pub place: Place,
}

/// Whether a name of a module is accessible outside it (ISO/IEC 1539-1:2018, 8.5.2).
#[derive(Clone, Copy, PartialEq, Eq, Debug)]
pub enum Access {
    Public,
    Private,
}

/// What has a scope of its own (ISO/IEC 1539-1:2018, 19.1 to 19.4).
#[derive(Clone, Copy, PartialEq, Eq, Debug)]
pub enum ScopeKind {
    /// What is around the program units, with the intrinsic procedures.
    Intrinsic,
    Program,
    Module,
    /// An external procedure.
    External,
    /// A procedure behind CONTAINS.
    Contained,
    InterfaceBody,
    /// A derived type, in whose scope its components are.
    DerivedType,
    /// A SELECT RANK construct, in whose scope its associate name is.
    SelectRank,
}

/// What a name is declared as.
#[derive(Clone, Copy, PartialEq, Eq, Debug)]
pub enum Class {
    /// The name of the program or of the module itself.
    UnitName,
    /// A variable, a named constant or the result of a function.
    Data,
    DerivedType,
    Procedure,
    AbstractInterface,
    ProcedurePointer,
    Component,
}

/// How much of a name's declaration stands where it is named.
#[derive(Clone, Copy, PartialEq, Eq, Debug)]
pub enum Share {
    /// All of it.
    Whole,
    /// A head names a dummy argument or a result, whose type has to be declared behind it.
    Announced,
    /// A type is declared for a name, which may be announced.
    Typed,
}

/// What a name has to be where it is referred to.
#[derive(Clone, Copy, PartialEq, Eq, Debug)]
pub enum Need {
    /// What has a value, or is passed on: data or a procedure.
    Value,
    /// The same behind which arguments or subscripts stand; it may construct a structure, too.
    Applied,
    /// What CALL names.
    Called,
    /// A derived type.
    Type,
    /// What has an interface.
    Interface,
    /// A variable that is named alone.
    Variable,
    /// A data object of which a component is selected.
    Object,
    /// What has an accessibility.
    Accessible,
}

/// What a declaration says of a name's type (ISO/IEC 1539-1:2018, 7.3.2).
#[derive(Drop)]
pub enum DeclaredType {
    /// It has none, or an intrinsic one, or TYPE(*).
    NotDerived,
    /// The derived type of this name.
    Derived(List<u8>),
    /// That of the selector with this name, which is found outside the construct (11.1.10.3).
    OfSelector(List<u8>),
}

/// A name that is declared.
#[derive(Drop)]
pub struct Declared {
    pub name: Name,
    pub class: Class,
    pub share: Share,
    /// Its type.
    pub of_type: DeclaredType,
    /// The accessibility that its declaration says.
    pub access: Option<Access>,
}

/// A name, or the begin or end of what names stand in.
#[derive(Drop)]
pub enum Item {
    /// A scope begins; the place is that of its first token.
    Enter {
        kind: ScopeKind,
        place: Place,
    },
    /// A scope ends.
    Leave,
    /// A name that is declared in its scope.
    Declares(Declared),
    /// The name of a scope, declared in the scope around it.
    Heads(Declared),
    /// A USE statement (ISO/IEC 1539-1:2018, 14.2.2).
    Uses {
        place: Place,
        module: Name,
        is_intrinsic: bool,
        is_only: bool,
    },
    /// A name in a USE statement: what `used` names in the module is `local` in the scope.
    Takes {
        module: List<u8>,
        local: Name,
        used: Name,
        is_renamed: bool,
    },
    /// An IMPORT statement without names (ISO/IEC 1539-1:2018, 8.8).
    ImportsAll,
    /// A name in an IMPORT statement.
    Imports(Name),
    /// The accessibility of all names for which no other is said (ISO/IEC 1539-1:2018, 8.6.1).
    Default(Access),
    /// A name in an access statement.
    Accesses {
        name: Name,
        access: Access,
    },
    /// A reference to a name.
    Refers {
        name: Name,
        need: Need,
    },
    /// A reference to a component of the part of a reference before it, behind which parentheses may stand (ISO/IEC 1539-1:2018, 9.4.2).
    Selects(Name),
    /// What stands in parentheses behind a name begins.
    Inside,
    /// What stands in parentheses behind a name ends.
    Outside,
    /// A program, a module or an external procedure without IMPLICIT NONE ends; the place is that of its first token.
    Untyped {
        place: Place,
    },
}
