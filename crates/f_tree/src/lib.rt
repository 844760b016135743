//! Trees of Fortran program units, and their text.
//!
//! A tree has a struct or a variant for each form of the grammar and keeps each choice of spelling that the grammar leaves, so that it says which
//! tokens it stands for. A place stands at each token that begins a form; a form that begins with another has that one's place.
#![tactic(auto)]

mod declaration;
mod expression;
mod lexeme;
mod name;
mod page;
mod print;
mod spell;
mod spell_action;
mod spell_declaration;
mod spell_definition;
mod spell_expression;
mod spell_specification;
mod spell_statement;
mod spell_unit;
mod statement;
mod unit;

pub use declaration::{
    Access, AccessStatement, Attribute, AttributeForm, Bind, BindingName, Component, Declaration,
    DerivedType, Dimension, Ending, EndingForm, Entity, Field, Import, Initial, Intent, Interface,
    InterfaceBody, Only, PointerAttribute, ProcedurePointer, ProcedurePointers, Rename,
    Specification, TypeAttribute, Use, UseList, Variables,
};
pub use expression::{
    Argument, CharacterParameter, Expression, KindSelector, Level, Link, Part, Range, Reference,
    Sign, TypeSpec,
};
pub use lexeme::{Lexeme, Lexemes, copy_bytes, copy_kind};
pub use name::Name;
pub use page::text_of;
pub use print::print_unit;
pub use spell::{Spell, put_behind_commas, put_each, put_listed};
pub use spell_expression::{
    put_arguments, put_expression, put_expressions, put_reference, put_type,
};
pub use spell_specification::put_specification;
pub use spell_statement::{put_statement, put_statements};
pub use statement::{
    Action, Case, CaseChoice, CaseRange, DoConstruct, Else, ElseIf, IfConstruct, LoopControl,
    RankCase, RankChoice, SelectCase, SelectRank, Statement,
};
pub use unit::{Head, Module, Prefix, Procedure, ProcedureKind, Program, Suffix, Unit};

#[cfg(test)]
mod tests;
