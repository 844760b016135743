//! The names of procedures and program units. What stands last is put first.

ghost use Rattle.std.specs.Prelude.{◌≡◌, ◌++◌, OnOk, IfOk};
ghost use Rattle.f_unit_items.specs.Fronts.{if_there};
ghost use Rattle.f_unit_items.specs.Units.{untyped, external_procedure, contained_procedure, contained, unit_name, program, module_unit, items_of};

use crate::head::{head_place, put_head};
use crate::items::Items;
use crate::put::{HasItems, put_each};
use crate::specification::{implicit_none, put_specification};
use crate::statement::put_statements;
use f_items::{Class, DeclaredType, Item, ScopeKind, Share};
use f_scope::before_program;
use f_tree::{Module, Name, Procedure, Program, Unit};
use jf_base::{List, Place};
use std::alloc::{AllocError, Global};

fn put_untyped(out: &mut Items, none: Option<Place>, place: Place) -> Result<(), AllocError>
    ensures { OnOk result (out.new ≡ untyped none place out.old) }
{
    match none {
        None => out.put(Item::Untyped { place }),
        Some(_) => Ok(()),
    }
}

fn put_external(out: &mut Items, p: &Procedure) -> Result<(), AllocError>
    ensures { OnOk result (out.new ≡ external_procedure p.now out.old) }
{
    out.put(Item::Leave)?;
    put_untyped(out, implicit_none(&p.specification), head_place(&p.head))?;
    put_statements(out, p.body.as_slice())?;
    put_specification(out, &p.specification)?;
    put_head(out, ScopeKind::External, None, &p.head)
}

/// A procedure behind CONTAINS.
impl HasItems for Procedure {
    ghost use Rattle.f_unit_items.specs.Units.{contained_procedure};

    ghost items = { contained_procedure };

    fn put(&self, out: &mut Items) -> Result<(), AllocError> {
        out.put(Item::Leave)?;
        put_statements(out, self.body.as_slice())?;
        put_specification(out, &self.specification)?;
        put_head(
            out,
            ScopeKind::Contained,
            Some(Class::Procedure),
            &self.head,
        )
    }
}

fn put_contained(out: &mut Items, procedures: &Option<List<Procedure>>) -> Result<(), AllocError>
    ensures { OnOk result (out.new ≡ if_there contained procedures.now out.old) }
{
    match procedures {
        None => Ok(()),
        Some(procedures) => put_each(out, procedures.as_slice()),
    }
}

fn put_unit_name(out: &mut Items, name: &Name) -> Result<(), AllocError>
    ensures { OnOk result (out.new ≡ unit_name name.now out.old) }
{
    out.declare(
        name,
        Class::UnitName,
        Share::Whole,
        DeclaredType::NotDerived,
        None,
    )
}

fn put_program(out: &mut Items, p: &Program) -> Result<(), AllocError>
    ensures { OnOk result (out.new ≡ program p.now out.old) }
{
    out.put(Item::Leave)?;
    put_untyped(out, implicit_none(&p.specification), p.place)?;
    put_statements(out, p.body.as_slice())?;
    put_specification(out, &p.specification)?;
    put_unit_name(out, &p.name)?;
    out.enter(ScopeKind::Program, p.place)
}

fn put_module(out: &mut Items, m: &Module) -> Result<(), AllocError>
    ensures { OnOk result (out.new ≡ module_unit m.now out.old) }
{
    out.put(Item::Leave)?;
    put_untyped(out, implicit_none(&m.specification), m.place)?;
    put_contained(out, &m.procedures)?;
    put_specification(out, &m.specification)?;
    put_unit_name(out, &m.name)?;
    out.enter(ScopeKind::Module, m.place)
}

impl HasItems for Unit {
    ghost use Rattle.f_unit_items.specs.Units.{unit};

    ghost items = { unit };

    fn put(&self, out: &mut Items) -> Result<(), AllocError> {
        match self {
            Unit::Program(program) => put_program(out, program),
            Unit::Module(unit) => put_module(out, unit),
            Unit::Procedure(procedure) => put_external(out, procedure),
        }
    }
}

/// Puts items that lie from the first to the last in front.
fn put_before(out: &mut Items, before: Vec<Item>) -> Result<(), AllocError>
    ensures { OnOk result (out.new ≡ before.items ++ out.old) }
{
    let mut left = before;
    'items: while let Some(item) = left.pop() {
        out.put(item)?;
    }
    Ok(())
}

/// The items of a program: what is there before it, and then the names of all its units in the order of the text. They are what `f_scope::begin`
/// takes.
pub fn items_of(alloc: Global, units: &[Unit]) -> Result<Vec<Item>, AllocError>
    ensures { IfOk result (λ items. items.items ≡ items_of units.now) }
{
    let mut out = Items::new(alloc);
    put_each(&mut out, units)?;
    put_before(&mut out, before_program(alloc)?)?;
    Ok(out.into_vec())
}
