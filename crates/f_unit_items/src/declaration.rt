//! The names in type declarations, USE and IMPORT. What stands last is put first.

ghost use Rattle.std.specs.Prelude.{◌≡◌, OnOk, map};
ghost use Rattle.f_unit_items.specs.Fronts.{if_there, each};
ghost use Rattle.f_unit_items.specs.Declarations.{access_of, form_access, access_among, bind_list, dimensions, initial_value, entity, rename, only_name, is_only, use_list, imported, imported_names};

use crate::action::put_if_there;
use crate::expression::{declared_type, put_expression, put_type};
use crate::items::Items;
use crate::put::{HasItems, put_each};
use f_items::{Access, Class, Item, Share};
use f_tree::{
    Attribute, AttributeForm, Bind, Dimension, Entity, Import, Initial, Name, Only, Rename,
    TypeSpec, Use, UseList, Variables,
};
use jf_base::List;
use std::alloc::AllocError;

/// An accessibility that a tree says.
pub fn access_of(access: f_tree::Access) -> Access
    ensures { result ≡ access_of access }
{
    match access {
        f_tree::Access::Public => Access::Public,
        f_tree::Access::Private => Access::Private,
    }
}

fn form_access(form: &AttributeForm) -> Option<Access>
    ensures { result ≡ form_access form.now }
{
    match form {
        AttributeForm::Access(access) => Some(access_of(*access)),
        _ => None,
    }
}

/// The first accessibility that attributes say.
#[tactic(auto, unfolding(crate::specs::Declarations::access_among))]
fn access_among(attributes: &[Attribute]) -> Option<Access>
    ensures { result ≡ access_among attributes.now }
{
    let mut rest = attributes;
    'attributes: while let Some((attribute, behind)) = rest.split_first() {
        let access = form_access(&attribute.form);
        if access.is_some() {
            return access;
        }
        rest = behind;
    }
    None
}

/// Puts the names in BIND in front.
pub fn put_bind(out: &mut Items, bind: &Bind) -> Result<(), AllocError>
    ensures { OnOk result (out.new ≡ bind_list bind.now out.old) }
{
    match &bind.name {
        None => Ok(()),
        Some(name) => out.kind(&name.kind, name.place),
    }
}

impl HasItems for Dimension {
    ghost use Rattle.f_unit_items.specs.Declarations.{dimension};

    ghost items = { dimension };

    fn put(&self, out: &mut Items) -> Result<(), AllocError> {
        match self {
            Dimension::Upper(upper) => put_expression(out, upper),
            Dimension::Bounds(lower, upper) => {
                put_expression(out, upper)?;
                put_expression(out, lower)
            }
            Dimension::Deferred { lower, place: _ } => put_if_there(out, lower),
            Dimension::AssumedSize { lower, place: _ } => put_if_there(out, lower),
            Dimension::AssumedRank { place: _ } => Ok(()),
        }
    }
}

/// Puts the names of dimensions in front, where they are there.
pub fn put_dimensions(out: &mut Items, all: &Option<List<Dimension>>) -> Result<(), AllocError>
    ensures { OnOk result (out.new ≡ if_there dimensions all.now out.old) }
{
    match all {
        None => Ok(()),
        Some(all) => put_each(out, all.as_slice()),
    }
}

impl HasItems for Attribute {
    ghost use Rattle.f_unit_items.specs.Declarations.{attribute};

    ghost items = { attribute };

    fn put(&self, out: &mut Items) -> Result<(), AllocError> {
        match &self.form {
            AttributeForm::Dimension(all) => put_each(out, all.as_slice()),
            AttributeForm::Bind(bind) => put_bind(out, bind),
            _ => Ok(()),
        }
    }
}

fn put_initial(out: &mut Items, initial: &Option<Initial>) -> Result<(), AllocError>
    ensures { OnOk result (out.new ≡ if_there initial_value initial.now out.old) }
{
    match initial {
        None => Ok(()),
        Some(Initial::Value(value)) => put_expression(out, value),
        Some(Initial::Null { place: _ }) => Ok(()),
    }
}

fn put_entity(
    out: &mut Items,
    declared: &TypeSpec,
    access: Option<Access>,
    e: &Entity,
) -> Result<(), AllocError>
    ensures { OnOk result (out.new ≡ entity declared.now access e.now out.old) }
{
    put_initial(out, &e.initial)?;
    put_dimensions(out, &e.dimensions)?;
    let of_type = declared_type(out.allocator(), declared)?;
    out.declare(&e.name, Class::Data, Share::Typed, of_type, access)
}

fn put_entities(
    out: &mut Items,
    declared: &TypeSpec,
    access: Option<Access>,
    list: &[Entity],
) -> Result<(), AllocError>
    ensures { OnOk result (out.new ≡ each (map (entity declared.now access) list.now) out.old) }
{
    let mut left = list.len();
    while left > 0 {
        left -= 1;
        put_entity(out, declared, access, &list[left])?;
    }
    Ok(())
}

impl HasItems for Variables {
    ghost use Rattle.f_unit_items.specs.Declarations.{variables};

    ghost items = { variables };

    fn put(&self, out: &mut Items) -> Result<(), AllocError> {
        let access = access_among(self.attributes.as_slice());
        put_entities(out, &self.declared, access, self.entities.as_slice())?;
        put_each(out, self.attributes.as_slice())?;
        put_type(out, &self.declared)
    }
}

fn put_rename(out: &mut Items, source: &Name, r: &Rename) -> Result<(), AllocError>
    ensures { OnOk result (out.new ≡ rename source.now r.now out.old) }
{
    out.take(source, &r.local, &r.used, true)
}

fn put_renames(out: &mut Items, source: &Name, list: &[Rename]) -> Result<(), AllocError>
    ensures { OnOk result (out.new ≡ each (map (rename source.now) list.now) out.old) }
{
    let mut left = list.len();
    while left > 0 {
        left -= 1;
        put_rename(out, source, &list[left])?;
    }
    Ok(())
}

fn put_only(out: &mut Items, source: &Name, only: &Only) -> Result<(), AllocError>
    ensures { OnOk result (out.new ≡ only_name source.now only.now out.old) }
{
    match only {
        Only::Plain(name) => out.take(source, name, name, false),
        Only::Renamed(r) => put_rename(out, source, r),
    }
}

fn put_onlys(out: &mut Items, source: &Name, list: &[Only]) -> Result<(), AllocError>
    ensures { OnOk result (out.new ≡ each (map (only_name source.now) list.now) out.old) }
{
    let mut left = list.len();
    while left > 0 {
        left -= 1;
        put_only(out, source, &list[left])?;
    }
    Ok(())
}

fn is_only(list: &UseList) -> bool
    ensures { result ≡ is_only list.now }
{
    match list {
        UseList::All => false,
        UseList::Renamed(_) => false,
        UseList::Only(_) => true,
    }
}

fn put_use_list(out: &mut Items, source: &Name, list: &UseList) -> Result<(), AllocError>
    ensures { OnOk result (out.new ≡ use_list source.now list.now out.old) }
{
    match list {
        UseList::All => Ok(()),
        UseList::Renamed(renames) => put_renames(out, source, renames.as_slice()),
        UseList::Only(names) => put_onlys(out, source, names.as_slice()),
    }
}

impl HasItems for Use {
    ghost use Rattle.f_unit_items.specs.Declarations.{use_statement};

    ghost items = { use_statement };

    fn put(&self, out: &mut Items) -> Result<(), AllocError> {
        put_use_list(out, &self.module, &self.list)?;
        out.uses(
            self.place,
            &self.module,
            self.is_intrinsic,
            is_only(&self.list),
        )
    }
}

fn put_imports(out: &mut Items, list: &[Name]) -> Result<(), AllocError>
    ensures { OnOk result (out.new ≡ each (map imported list.now) out.old) }
{
    let mut left = list.len();
    while left > 0 {
        left -= 1;
        out.import(&list[left])?;
    }
    Ok(())
}

fn put_imported(out: &mut Items, names: &[Name]) -> Result<(), AllocError>
    ensures { OnOk result (out.new ≡ imported_names names.now out.old) }
{
    match names {
        [] => out.put(Item::ImportsAll),
        [_, ..] => put_imports(out, names),
    }
}

impl HasItems for Import {
    ghost use Rattle.f_unit_items.specs.Declarations.{import_statement};

    ghost items = { import_statement };

    fn put(&self, out: &mut Items) -> Result<(), AllocError> {
        put_imported(out, self.names.as_slice())
    }
}
