//! The names in specifications and interfaces. What stands last is put first.

ghost use Rattle.std.specs.Prelude.{◌≡◌, OnOk, map};
ghost use Rattle.f_unit_items.specs.Fronts.{if_there, each, each_given};
ghost use Rattle.f_unit_items.specs.Declarations.{import_statement};
ghost use Rattle.f_unit_items.specs.Units.{declaration, interface, interface_body, specification, body_class, implicit_none};

use crate::head::put_head;
use crate::items::Items;
use crate::put::{HasItems, put_each};
use f_items::{Class, Item, ScopeKind};
use f_tree::{Declaration, Import, Interface, InterfaceBody, Specification};
use jf_base::Place;
use std::alloc::AllocError;

fn put_import(out: &mut Items, import: &Option<Import>) -> Result<(), AllocError>
    ensures { OnOk result (out.new ≡ if_there import_statement import.now out.old) }
{
    match import {
        None => Ok(()),
        Some(import) => import.put(out),
    }
}

fn body_class(is_abstract: bool) -> Class
    ensures { result ≡ body_class is_abstract }
{
    if is_abstract {
        Class::AbstractInterface
    } else {
        Class::Procedure
    }
}

/// Where a specification has IMPLICIT NONE.
pub fn implicit_none(s: &Specification) -> Option<Place>
    ensures { result ≡ implicit_none s.now }
{
    s.implicit_none
}

/// Puts the names of what stands before the executable part of a unit in front.
#[cycle(specifications)]
pub fn put_specification(out: &mut Items, s: &Specification) -> Result<(), AllocError>
    ensures { OnOk result (out.new ≡ specification s.now out.old) }
{
    put_declarations(out, s.declarations.as_slice())?;
    put_import(out, &s.import)?;
    put_each(out, s.uses.as_slice())?;
    Ok(())
}

#[cycle(specifications)]
fn put_declaration(out: &mut Items, d: &Declaration) -> Result<(), AllocError>
    ensures { OnOk result (out.new ≡ declaration d.now out.old) }
{
    match d {
        Declaration::Variables(variables) => {
            variables.put(out)?;
            Ok(())
        }
        Declaration::DerivedType(derived) => {
            derived.put(out)?;
            Ok(())
        }
        Declaration::Interface(i) => {
            put_interface(out, i)?;
            Ok(())
        }
        Declaration::Access(access) => {
            access.put(out)?;
            Ok(())
        }
        Declaration::Save { place: _ } => Ok(()),
        Declaration::ProcedurePointers(pointers) => {
            pointers.put(out)?;
            Ok(())
        }
    }
}

#[cycle(specifications)]
fn put_interface(out: &mut Items, i: &Interface) -> Result<(), AllocError>
    ensures { OnOk result (out.new ≡ interface i.now out.old) }
{
    put_bodies(out, body_class(i.is_abstract), i.bodies.as_slice())?;
    Ok(())
}

#[cycle(specifications)]
fn put_body(out: &mut Items, class: Class, b: &InterfaceBody) -> Result<(), AllocError>
    ensures { OnOk result (out.new ≡ interface_body b.now class out.old) }
{
    out.put(Item::Leave)?;
    put_specification(out, &b.specification)?;
    put_head(out, ScopeKind::InterfaceBody, Some(class), &b.head)?;
    Ok(())
}

#[cycle(specifications)]
fn put_declarations(out: &mut Items, declarations: &[Declaration]) -> Result<(), AllocError>
    ensures { OnOk result (out.new ≡ each (map declaration declarations.now) out.old) }
{
    let mut left = declarations.len();
    while left > 0 {
        left -= 1;
        put_declaration(out, &declarations[left])?;
    }
    Ok(())
}

#[cycle(specifications)]
fn put_bodies(out: &mut Items, class: Class, bodies: &[InterfaceBody]) -> Result<(), AllocError>
    ensures { OnOk result (out.new ≡ each_given class (map interface_body bodies.now) out.old) }
{
    let mut left = bodies.len();
    while left > 0 {
        left -= 1;
        put_body(out, class, &bodies[left])?;
    }
    Ok(())
}
