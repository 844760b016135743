//! The names of a Fortran program in the order of its text, and what they mean: which scope declares, uses, imports and sees a name, and which rules on
//! names are broken.
//!
//! A list of items stands between the trees and the rules on names, so that the rules look at no form of the grammar. A name is one item, and so is
//! the begin and the end of a scope.
#![tactic(auto)]

mod item;
mod laws;

pub use item::{Access, Class, Declared, DeclaredType, Item, Name, Need, ScopeKind, Share};
pub use laws::{
    a_name_is_of_one_module, a_part_has_one_type, a_reference_finds_a_declaration,
    a_reference_finds_one_declaration, a_scope_declares_a_name_once, a_scope_declares_no_used_name,
    a_selection_finds_a_component, a_selection_has_one_part_before,
    none_is_broken_first_where_none_is_broken, one_first_broken_rule, one_order_of_units,
};
