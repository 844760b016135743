//! Whether types, members, names and tokens are there.

ghost use Rattle.std.specs.Prelude.{◌≡◌, map};
ghost use Rattle.c_resolved.specs.Lists.{all_of};
ghost use Rattle.c_resolved.specs.Kinds.{member_fits, name_fits, proto_fits, token_fits, type_fits};

use c_types::{CType, Proto, Types};

/// How many things of each sort a unit has, and how many parameters and locals the function around a tree.
#[derive(Clone, Copy)]
pub struct Counts {
    pub names: usize,
    pub literals: usize,
    pub places: usize,
    pub structs: usize,
    pub enums: usize,
    pub strings: usize,
    pub objects: usize,
    pub functions: usize,
    pub parameters: usize,
    pub locals: usize,
}

impl Counts {
    /// Whether the unit has a token of this number.
    pub fn has_token(self, at: u32) -> bool
        ensures { result ≡ token_fits self at }
    {
        (at as usize) < self.places
    }

    /// Whether the unit has a name of this number.
    pub fn has_name(self, name: u32) -> bool
        ensures { result ≡ name_fits self name }
    {
        (name as usize) < self.names
    }
}

/// Whether each struct and enumerated type in a type is there.
#[cycle(fit)]
pub fn is_type(counts: Counts, c: &CType) -> bool
    ensures { result ≡ type_fits counts c.now }
{
    match c {
        CType::Void => true,
        CType::Bool => true,
        CType::Int { .. } => true,
        CType::Char => true,
        CType::Enum(e) => (*e as usize) < counts.enums,
        CType::Struct(s) => (*s as usize) < counts.structs,
        CType::Pointer(x) => is_type(counts, x.get()),
        CType::Array(x, _) => is_type(counts, x.get()),
        CType::Function(p) => is_proto(counts, p.get()),
        CType::Descriptor => true,
        CType::Cdesc(r) => *r <= 15,
        CType::Const(x) => is_type(counts, x.get()),
    }
}

/// Whether each struct and enumerated type in a function's result and parameters is there.
#[cycle(fit)]
pub fn is_proto(counts: Counts, p: &Proto) -> bool
    ensures { result ≡ proto_fits counts p.now }
{
    is_type(counts, &p.result) && are_types(counts, p.params.as_slice())
}

#[cycle(fit)]
fn are_types(counts: Counts, all: &[CType]) -> bool
    ensures { result ≡ all_of (map (type_fits counts) all.now) }
{
    'types: for one in all {
        if !is_type(counts, one) {
            return false;
        }
    }
    true
}

/// Whether a struct is complete and has a member of this number.
pub fn has_member(t: &Types, structure: u32, member: u32) -> bool
    ensures { result ≡ member_fits t.now structure member }
{
    match t.layout(structure) {
        None => false,
        Some(layout) => (member as usize) < layout.members.len(),
    }
}
