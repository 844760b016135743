//! Program units and procedures (ISO/IEC 1539-1:2018, 14 and 15.6).

use crate::declaration::{Bind, Ending, Specification};
use crate::expression::TypeSpec;
use crate::name::Name;
use crate::statement::Statement;
use jf_base::{List, Place};

/// A program unit (ISO/IEC 1539-1:2018, 5.1, R502).
#[derive(Drop)]
pub enum Unit {
    Program(Program),
    Module(Module),
    Procedure(Procedure),
}

/// A main program (ISO/IEC 1539-1:2018, 14.1).
#[derive(Drop)]
pub struct Program {
    pub place: Place,
    pub name: Name,
    pub specification: Specification,
    pub body: List<Statement>,
    pub ending: Ending,
    /// How many tokens it has, ends of statements not counted.
    pub tokens: u32,
}

/// A module (ISO/IEC 1539-1:2018, 14.2).
#[derive(Drop)]
pub struct Module {
    pub place: Place,
    pub name: Name,
    pub specification: Specification,
    /// The procedures behind CONTAINS, where it is there.
    pub procedures: Option<List<Procedure>>,
    pub ending: Ending,
}

/// An external or module procedure (ISO/IEC 1539-1:2018, 15.6.2).
#[derive(Drop)]
pub struct Procedure {
    pub head: Head,
    pub specification: Specification,
    pub body: List<Statement>,
    pub ending: Ending,
    /// How many tokens it has, ends of statements not counted.
    pub tokens: u32,
}

/// The first statement of a procedure or an interface body.
#[derive(Drop)]
pub struct Head {
    pub prefixes: List<Prefix>,
    pub kind: ProcedureKind,
    /// The place of SUBROUTINE or FUNCTION.
    pub place: Place,
    pub name: Name,
    /// The dummy arguments, where their parentheses are there.
    pub dummies: Option<List<Name>>,
    pub suffixes: List<Suffix>,
}

#[derive(Clone, Copy, PartialEq, Eq, Debug)]
pub enum ProcedureKind {
    Subroutine,
    Function,
}

/// What stands before SUBROUTINE or FUNCTION.
#[derive(Drop)]
pub enum Prefix {
    Recursive { place: Place },
    Type(TypeSpec),
}

/// What stands behind the dummy arguments.
#[derive(Drop)]
pub enum Suffix {
    Bind { place: Place, bind: Bind },
    Result { place: Place, name: Name },
}
