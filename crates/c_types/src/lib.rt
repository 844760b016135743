//! The types of C as C11 has them where `int` has 4 bytes and `long` and pointers have 8: a file's table of structs, the
//! sizes, alignments and members of its types, and when two types are compatible, in one file and between two.
#![tactic(auto)]

mod compatibility;
mod copy;
mod ctype;
mod laws;
mod size;
mod table;
#[cfg(test)]
mod tests;

pub use compatibility::compatible;
pub use copy::{copy_proto, copy_type, same_proto, same_type};
pub use ctype::{CType, Layout, Member, Proto, StructBody};
pub use laws::{
    compatible_either_way, compatible_with_itself, one_relation_compares_by_members,
    structs_compare_by_members,
};
pub use size::{align_of, size_of};
pub use table::Types;
