ghost use Rattle.std.specs.Prelude.{◌≡◌, ◌+◌, ◌^◌, ◌≤◌, [], ◌∷◌, ◌++◌, ◌↔◌, All, Some, length, slice_get, slice_set, IfOk, IfSome, IsSome, IsTrue, OnOk, OnErr};
ghost use Rattle.std.specs.Option.{option_copied};
ghost use Rattle.c_types.specs.Layouts.{align_or_one, layout_of, member_among, member_at, rounded, size_or_none};
ghost use Rattle.c_types.specs.Sizes.{at_most_limit, layout_at, size_in};
ghost use Rattle.c_types.specs.Tables.{IsSound, IsTable, Keeps};

use crate::ctype::{CType, Layout, Member, StructBody};
use crate::size::{LARGEST, align_of, size_of};
use jf_base::{List, Memory};
use std::alloc::Global;
use std::marker::Model;

/// The structs of a file by their numbers, which contracts see as the list of their bodies.
#[derive(Debug, Drop)]
pub struct Types {
    bodies: Vec<StructBody>,
}

impl Model for Types {
    ghost use Rattle.std.specs.Prelude.{List};
    ghost use Rattle.c_types.specs.declared.ctype.StructBody.{StructBody};
    ghost use Rattle.c_types.specs.Tables.{IsTable};
    ghost use Rattle.std.specs.Coded.{coded_list};
    ghost use Rattle.c_types.specs.contracts.ctype.StructBody as body;

    ghost Value = { List StructBody };

    ghost coded = { coded_list body.the_row.coded };

    ghost view = { λ t. t.bodies.items };

    ghost invariant = { λ t. IsTable t.bodies.items };
}

impl Types {
    /// A table with no struct.
    pub fn new(alloc: Global) -> Result<Types, Memory>
        ensures { IfOk result (λ t. t ≡ []) }
    {
        Ok(Types {
            bodies: Vec::new(alloc),
        })
    }

    /// How many structs there are.
    pub fn count(&self) -> usize
        ensures { result ≡ length self.now }
    {
        self.bodies.len()
    }

    /// How the members of struct `s` lie: None exactly where it is incomplete or no struct of the table.
    pub fn layout(&self, s: u32) -> Option<&Layout>
        ensures found { option_copied result ≡ layout_at self.now s }
        ensures sound { IfSome result (λ l. IsSound self.now l.now) }
    {
        match layout_among(self.bodies.as_slice(), s) {
            None => None,
            Some(layout) => Some(layout),
        }
    }

    /// A law: each complete struct is sound, and was completed after those that its members hold.
    pub fn completed_in_order(&self)
        ensures { IsTable self.now }
    {
        let _table = &self.bodies;
    }

    /// A new struct, whose members aren't known yet. Where there is no memory, or there are 2^32 structs already, the table stays.
    pub fn add_struct(&mut self) -> Result<u32, Memory>
        ensures number { IfOk result (λ s. s ≡ length self.old) }
        ensures added { OnOk result (self.new ≡ self.old ++ StructBody.Incomplete ∷ []) }
        ensures incomplete { IfOk result (λ s. slice_get self.new s ≡ Some StructBody.Incomplete) }
        ensures kept { OnOk result (Keeps self.old self.new) }
        ensures err { OnErr result (self.new ≡ self.old) }
    {
        let s = self.bodies.len();
        if s >= 4_294_967_296 {
            return Err(Memory);
        }
        if let Err(_full) = self.bodies.push(StructBody::Incomplete) {
            return Err(Memory);
        }
        Ok(s as u32)
    }

    /// Whether each of these members has a size of at most 2^62 bytes.
    pub fn are_sized(&self, members: &[(u32, CType)]) -> bool
        ensures { IsTrue result ↔ All (λ m. IsSome (size_in self.now m.1)) members.now }
    {
        members.iter().all(|m| size_of(self, &m.1).is_some())
    }

    /// The size of a struct with these members: None exactly where it passes 2^62 bytes.
    pub fn struct_size(&self, members: &[(u32, CType)]) -> Option<u64>
        requires { All (λ m. IsSome (size_in self.now m.1)) members.now }
        ensures { result ≡ at_most_limit (layout_of self.now members.now).size }
    {
        let _table = &self.bodies;
        let mut end: u64 = 0;
        let mut align: u64 = 1;
        for (_, kind) in members {
            let size = member_size(self, kind);
            let kind_align = member_align(self, kind);
            end = round_up(end, kind_align) + size;
            if end > LARGEST {
                return None;
            }
            align = align.max(kind_align);
        }
        let size = round_up(end, align);
        if size > LARGEST { None } else { Some(size) }
    }

    /// Lays out the members of an incomplete struct, given by name and type in their order (C11 6.7.2.1p14, p15, p17). Where
    /// there is no memory, the table stays.
    pub fn complete(
        &mut self,
        alloc: Global,
        s: u32,
        members: Vec<(u32, CType)>,
    ) -> Result<(), Memory>
        requires incomplete { slice_get self.old s ≡ Some StructBody.Incomplete }
        requires sized { All (λ m. IsSome (size_in self.old m.1)) members.items }
        requires small { (layout_of self.old members.items).size ≤ 2 ^ 62 }
        ensures kept { OnOk result (Keeps self.old self.new) }
        ensures laid_out { OnOk result (self.new ≡ slice_set self.old s (StructBody.Complete (layout_of self.old members.items))) }
        ensures err { OnErr result (self.new ≡ self.old) }
    {
        let layout = self.lay_out(alloc, members)?;
        self.bodies[s as usize] = StructBody::Complete(layout);
        Ok(())
    }

    /// How these members lie in a struct.
    fn lay_out(&self, alloc: Global, members: Vec<(u32, CType)>) -> Result<Layout, Memory>
        requires sized { All (λ m. IsSome (size_in self.now m.1)) members.items }
        requires small { (layout_of self.now members.items).size ≤ 2 ^ 62 }
        ensures laid_out { IfOk result (λ l. l ≡ layout_of self.now members.items) }
        ensures sound { IfOk result (IsSound self.now) }
    {
        let _table = &self.bodies;
        let mut laid = List::from_vec(Vec::new(alloc));
        let mut end: u64 = 0;
        let mut align: u64 = 1;
        for (name, kind) in members {
            let size = member_size(self, &kind);
            let kind_align = member_align(self, &kind);
            let offset = round_up(end, kind_align);
            laid.push(Member { name, kind, offset })?;
            end = offset + size;
            align = align.max(kind_align);
        }
        Ok(Layout {
            members: laid,
            size: round_up(end, align),
            align,
        })
    }

    /// The member of this name in struct `s`: None exactly where the struct has no such member.
    pub fn member(&self, s: u32, name: u32) -> Option<&Member>
        ensures { option_copied result ≡ member_at self.now s name }
    {
        match self.layout(s) {
            None => None,
            Some(layout) => member_named(layout.members.as_slice(), name),
        }
    }
}

/// The layout of a struct among these bodies.
fn layout_among(bodies: &[StructBody], s: u32) -> Option<&Layout>
    ensures { option_copied result ≡ layout_at bodies.now s }
{
    match bodies.get(s as usize) {
        None => None,
        Some(StructBody::Incomplete) => None,
        Some(StructBody::Complete(layout)) => Some(layout),
    }
}

/// The first of these members that has this name.
fn member_named(members: &[Member], name: u32) -> Option<&Member>
    ensures { option_copied result ≡ member_among name members.now }
{
    members.iter().find(|m| m.name == name)
}

/// The bytes of a member.
fn member_size(t: &Types, kind: &CType) -> u64
    requires { IsSome (size_in t.now kind.now) }
    ensures { result ≡ size_or_none t.now kind.now }
{
    match size_of(t, kind) {
        None => 0,
        Some(size) => size,
    }
}

/// The alignment of a member.
fn member_align(t: &Types, kind: &CType) -> u64
    ensures value { result ≡ align_or_one t.now kind.now }
    ensures small { (1 ≤ result) × (result ≤ 8) }
{
    match align_of(t, kind) {
        None => 1,
        Some(align) => align,
    }
}

/// The least multiple of the alignment at or after `end`.
fn round_up(end: u64, align: u64) -> u64
    requires some_align { 1 ≤ align }
    requires small { end + align ≤ 2 ^ 63 }
    ensures { result ≡ rounded end align }
{
    (end + (align - 1)) / align * align
}
