//! Program units and programs.

use crate::declaration::{Declaration, DerivedType};
use crate::kind::Scope;
use crate::statement::Statement;
use f_tree::Name;
use jf_base::{List, Place};

/// A module (ISO/IEC 1539-1:2018, 14.2). Its procedures stand among those of the program.
#[derive(Drop)]
pub struct Module {
    pub name: Name,
    pub place: Place,
    pub declarations: List<Declaration>,
}

/// A main program (ISO/IEC 1539-1:2018, 14.1), and how many tokens it has.
#[derive(Drop)]
pub struct MainProgram {
    pub name: Name,
    pub place: Place,
    pub declarations: List<Declaration>,
    pub body: List<Statement>,
    pub tokens: u32,
}

/// What a procedure does, and how many tokens its definition has.
#[derive(Drop)]
pub struct Definition {
    pub body: List<Statement>,
    pub tokens: u32,
}

/// Where a procedure is declared (ISO/IEC 1539-1:2018, 15.4.3 and 15.6.2).
#[derive(Drop)]
pub enum Body {
    /// An external or module procedure is defined here.
    Defined(Definition),
    /// An interface body declares it.
    Elsewhere,
    /// An abstract interface, which is no procedure and is the interface of procedure pointers.
    Abstract,
}

/// A procedure or an interface: its characteristics (ISO/IEC 1539-1:2018, 15.3), and its code where it is defined.
///
/// Its first declarations are its dummy arguments, in their order. Behind them stand the others in the order of the text, and among these
/// the result of a function. `hosts` are the scopes around it, the innermost first: none of an external procedure.
#[derive(Drop)]
pub struct Procedure {
    pub name: Name,
    /// The place of its first token.
    pub place: Place,
    /// Its binding label, where it has one (18.10.2).
    pub label: Option<List<u8>>,
    pub hosts: List<Scope>,
    pub dummies: u32,
    /// The number of the result among the declarations; a subroutine has none.
    pub result: Option<u32>,
    pub declarations: List<Declaration>,
    pub body: Body,
    /// Whether a statement, an expression or an initial value names it.
    pub is_used: bool,
}

/// The Fortran files of a program, their names resolved.
///
/// Each list has what stands in any file, in the order of the files and of their texts; but a derived type stands behind those that its
/// components have. `static_bytes` counts the bytes of the static objects.
#[derive(Drop)]
pub struct FProgram {
    pub types: List<DerivedType>,
    pub modules: List<Module>,
    pub procedures: List<Procedure>,
    pub programs: List<MainProgram>,
    pub static_bytes: u64,
}
