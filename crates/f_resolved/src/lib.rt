//! Resolved trees of Fortran programs: what the trees of the files become when names, types and ranks are known.
//!
//! In place of a name stands the number of what it denotes. A function reference, an array element and a structure constructor are
//! different forms here, keywords of arguments have become numbers of dummy arguments, and bounds, cases and the like that the text
//! makes constant have become numbers. Declarations that do nothing when a program runs have left the tree: what they declare stands in
//! the lists of the program and of its scopes.
//!
//! `is_resolved` tests that each number names a declared thing of the right kind.
#![tactic(auto)]

mod attributes;
mod check_declaration;
mod check_expression;
mod check_kind;
mod check_program;
mod check_statement;
mod declaration;
mod dimension;
mod expression;
mod kind;
mod program;
mod statement;

pub use attributes::Attributes;
pub use check_program::is_resolved;
pub use declaration::{Component, Declaration, DerivedType, Initial};
pub use dimension::{ArraySpecification, Bound, Dimension, Dimensions, Shape};
pub use expression::{
    Argument, Callee, Expression, Form, Intrinsic, Link, Part, Range, Reference, Subscript,
};
pub use kind::{DataType, Declared, Length, Named, Scope};
pub use program::{Body, Definition, FProgram, MainProgram, Module, Procedure};
pub use statement::{
    Allocate, Allocation, AllocationRange, Arm, Assignment, Call, Case, CaseChoice, CaseRange,
    Count, Deallocate, Do, Executable, If, LoopControl, PointerAssignment, PointerObject,
    ProcedureAssignment, RankCase, RankChoice, Read, SelectCase, SelectRank, Statement, Stop,
};
