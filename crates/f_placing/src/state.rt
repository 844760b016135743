//! What is open, and what a statement does there.

use f_tree::ProcedureKind;

/// How far a unit has come (ISO/IEC 1539-1:2018, 5.3.2).
#[derive(Clone, Copy)]
pub enum Part {
    /// USE may stand.
    Beginning,
    /// IMPLICIT may stand.
    BehindImport,
    /// Declarations may stand.
    BehindImplicit,
    /// Executable statements alone may stand.
    Executing,
}

/// A unit, a module procedure among them, or an interface body.
#[derive(Clone, Copy)]
pub enum Scope {
    Program,
    Module,
    Procedure(ProcedureKind),
    InterfaceBody(ProcedureKind),
}

/// What is open. The name of a unit or of a derived type stands beside it.
#[derive(Clone, Copy)]
pub enum State {
    File,
    Unit(Scope, Part),
    /// A module behind CONTAINS
    Containing,
    /// The definition of a derived type
    Type,
    /// An interface block
    Interface,
    /// An IF construct before its ELSE
    If,
    /// An IF construct behind its ELSE
    Else,
    Do,
    /// A SELECT CASE construct before its first block
    SelectCase,
    /// A block of SELECT CASE
    Case,
    /// A SELECT RANK construct before its first block
    SelectRank,
    /// A block of SELECT RANK
    Rank,
}

/// What a statement does where something is open.
#[derive(Clone, Copy)]
pub enum Role {
    /// It stays in that, which goes on so.
    Stays(State),
    /// It begins something else inside, behind which that goes on so.
    Enters { next: State, inside: State },
    /// It ends that.
    Leaves,
    /// It has no place there.
    NoPlace,
}
