//! Resolved trees of C programs: what the trees of a C text become when its names and types are known.
//!
//! In place of a name stands the number of what it denotes, in place of the name of a type the type itself, and each unit has one
//! table of structs for all its types. As in the trees that are read, what the grammar repeats is a list, and each node has the
//! number of its first token in the unit. Declarations that do nothing when a program runs have left the tree: what they declare
//! stands in the lists of the unit, of its functions and of its types.
//!
//! `is_resolved` and `is_program_resolved` test that each number names a declared thing of the right kind.
#![tactic(auto)]

mod check_declaration;
mod check_expression;
mod check_statement;
mod check_type;
mod check_unit;
mod declaration;
mod expression;
mod statement;
mod unit;

pub use check_unit::{is_program_resolved, is_resolved};
pub use declaration::{Declaration, Initializer, Local, LocalDeclaration, StringLiteral};
pub use expression::{
    Choice, Denoted, DescriptorMember, DimensionMember, Expr, Form, Link, Postfix, PostfixOperator,
    Target,
};
pub use statement::{BlockItem, ForStart, Statement};
pub use unit::{
    Content, Function, FunctionDefinition, LibraryFunction, Linkage, LinkedDeclaration,
    LinkedThing, Object, Program, Role, Unit,
};
