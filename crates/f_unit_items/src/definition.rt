//! The names in definitions of derived types, in access statements and in declarations of procedure pointers. What stands last is put first.

ghost use Rattle.std.specs.Prelude.{◌≡◌, OnOk, map};
ghost use Rattle.f_unit_items.specs.Fronts.{each};
ghost use Rattle.f_unit_items.specs.Declarations.{type_form_access, type_access, pointer_form_access, pointer_access, field, accessed, accessed_names, procedure_pointer};

use crate::declaration::{access_of, put_bind, put_dimensions};
use crate::expression::{declared_type, put_type};
use crate::items::Items;
use crate::put::{HasItems, put_each};
use f_items::{Access, Class, DeclaredType, Item, Need, ScopeKind, Share};
use f_tree::{
    AccessStatement, Component, DerivedType, Field, Name, PointerAttribute, ProcedurePointer,
    ProcedurePointers, TypeAttribute, TypeSpec,
};
use std::alloc::AllocError;

fn type_form_access(attribute: &TypeAttribute) -> Option<Access>
    ensures { result ≡ type_form_access attribute.now }
{
    match attribute {
        TypeAttribute::Bind { place: _, bind: _ } => None,
        TypeAttribute::Access { place: _, access } => Some(access_of(*access)),
    }
}

/// The first accessibility that attributes of a derived type say.
#[tactic(auto, unfolding(crate::specs::Declarations::type_access))]
fn type_access(attributes: &[TypeAttribute]) -> Option<Access>
    ensures { result ≡ type_access attributes.now }
{
    let mut rest = attributes;
    'attributes: while let Some((attribute, behind)) = rest.split_first() {
        let access = type_form_access(attribute);
        if access.is_some() {
            return access;
        }
        rest = behind;
    }
    None
}

fn pointer_form_access(attribute: PointerAttribute) -> Option<Access>
    ensures { result ≡ pointer_form_access attribute }
{
    match attribute {
        PointerAttribute::Save { place: _ } => None,
        PointerAttribute::Access { place: _, access } => Some(access_of(access)),
    }
}

/// The first accessibility that attributes of procedure pointers say.
#[tactic(auto, unfolding(crate::specs::Declarations::pointer_access))]
fn pointer_access(attributes: &[PointerAttribute]) -> Option<Access>
    ensures { result ≡ pointer_access attributes.now }
{
    let mut rest = attributes;
    'attributes: while let Some((attribute, behind)) = rest.split_first() {
        let access = pointer_form_access(*attribute);
        if access.is_some() {
            return access;
        }
        rest = behind;
    }
    None
}

impl HasItems for TypeAttribute {
    ghost use Rattle.f_unit_items.specs.Declarations.{type_attribute};

    ghost items = { type_attribute };

    fn put(&self, out: &mut Items) -> Result<(), AllocError> {
        match self {
            TypeAttribute::Bind { place: _, bind } => put_bind(out, bind),
            TypeAttribute::Access {
                place: _,
                access: _,
            } => Ok(()),
        }
    }
}

fn put_field(out: &mut Items, declared: &TypeSpec, f: &Field) -> Result<(), AllocError>
    ensures { OnOk result (out.new ≡ field declared.now f.now out.old) }
{
    put_dimensions(out, &f.dimensions)?;
    let of_type = declared_type(out.allocator(), declared)?;
    out.declare(&f.name, Class::Component, Share::Whole, of_type, None)
}

fn put_fields(out: &mut Items, declared: &TypeSpec, list: &[Field]) -> Result<(), AllocError>
    ensures { OnOk result (out.new ≡ each (map (field declared.now) list.now) out.old) }
{
    let mut left = list.len();
    while left > 0 {
        left -= 1;
        put_field(out, declared, &list[left])?;
    }
    Ok(())
}

impl HasItems for Component {
    ghost use Rattle.f_unit_items.specs.Declarations.{component};

    ghost items = { component };

    fn put(&self, out: &mut Items) -> Result<(), AllocError> {
        put_fields(out, &self.declared, self.fields.as_slice())?;
        put_dimensions(out, &self.dimensions)?;
        put_type(out, &self.declared)
    }
}

impl HasItems for DerivedType {
    ghost use Rattle.f_unit_items.specs.Declarations.{derived_type};

    ghost items = { derived_type };

    fn put(&self, out: &mut Items) -> Result<(), AllocError> {
        out.put(Item::Leave)?;
        put_each(out, self.components.as_slice())?;
        let access = type_access(self.attributes.as_slice());
        out.head(&self.name, Class::DerivedType, access)?;
        put_each(out, self.attributes.as_slice())?;
        out.enter(ScopeKind::DerivedType, self.place)
    }
}

fn put_accesses(out: &mut Items, access: Access, list: &[Name]) -> Result<(), AllocError>
    ensures { OnOk result (out.new ≡ each (map (accessed access) list.now) out.old) }
{
    let mut left = list.len();
    while left > 0 {
        left -= 1;
        out.access(&list[left], access)?;
    }
    Ok(())
}

fn put_accessed(out: &mut Items, access: Access, names: &[Name]) -> Result<(), AllocError>
    ensures { OnOk result (out.new ≡ accessed_names access names.now out.old) }
{
    match names {
        [] => out.put(Item::Default(access)),
        [_, ..] => put_accesses(out, access, names),
    }
}

impl HasItems for AccessStatement {
    ghost use Rattle.f_unit_items.specs.Declarations.{access_statement};

    ghost items = { access_statement };

    fn put(&self, out: &mut Items) -> Result<(), AllocError> {
        put_accessed(out, access_of(self.access), self.names.as_slice())
    }
}

fn put_pointer(
    out: &mut Items,
    access: Option<Access>,
    pointer: &ProcedurePointer,
) -> Result<(), AllocError>
    ensures { OnOk result (out.new ≡ procedure_pointer access pointer.now out.old) }
{
    out.declare(
        &pointer.name,
        Class::ProcedurePointer,
        Share::Whole,
        DeclaredType::NotDerived,
        access,
    )
}

fn put_pointers(
    out: &mut Items,
    access: Option<Access>,
    list: &[ProcedurePointer],
) -> Result<(), AllocError>
    ensures { OnOk result (out.new ≡ each (map (procedure_pointer access) list.now) out.old) }
{
    let mut left = list.len();
    while left > 0 {
        left -= 1;
        put_pointer(out, access, &list[left])?;
    }
    Ok(())
}

impl HasItems for ProcedurePointers {
    ghost use Rattle.f_unit_items.specs.Declarations.{procedure_pointers};

    ghost items = { procedure_pointers };

    fn put(&self, out: &mut Items) -> Result<(), AllocError> {
        let access = pointer_access(self.attributes.as_slice());
        put_pointers(out, access, self.pointers.as_slice())?;
        out.refer(&self.interface, Need::Interface)
    }
}
