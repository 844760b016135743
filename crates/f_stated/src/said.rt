//! What one item says of a name.

ghost use Rattle.std.specs.Prelude.{◌≡◌, OnOk, IfOk, Some};
ghost use Rattle.std.specs.Option.{option_copied};
ghost use Rattle.f_scope.specs.Rows.{host_in};
ghost use Rattle.f_stated.specs.Said.{declared_key, access_key, default_key, import_key, whole_import_key, renaming_key, renaming_key_of, key_at, noted_key, access_of, default_of};

use f_items::{Access, Declared, Item};
use f_scope::{Placed, ScopeRow, Table, host_in};
use std::alloc::{AllocError, Global};

/// What a statement can say of a name, or of all names, in a scope.
#[derive(Clone, Copy, PartialEq, Eq, Debug)]
pub enum Saying {
    /// A name's accessibility (ISO/IEC 1539-1:2018, 8.5.2 and 8.6.1).
    Access,
    /// The accessibility of the names of which nothing else is said (8.6.1).
    DefaultAccess,
    /// An IMPORT statement has the name (8.8).
    Import,
    /// An IMPORT statement has no names (8.8).
    WholeImport,
    /// A USE statement gives a name of a module another name (14.2.2).
    Renaming,
}

/// A module's name and a name of the module in one key: a zero stands between them, and a one before each byte of the first.
#[tactic(auto, unfolding(crate::specs::Said::renaming_key))]
pub(crate) fn renaming_key(
    alloc: Global,
    module_name: &[u8],
    used: &[u8],
) -> Result<Vec<u8>, AllocError>
    ensures { IfOk result (λ key. key.items ≡ renaming_key module_name.now used.now) }
{
    let mut key = Vec::new(alloc);
    let mut rest = module_name;
    'bytes: while let Some((byte, behind)) = rest.split_first() {
        key.extend_from_slice(&[1, *byte])?;
        rest = behind;
    }
    key.extend_from_slice(&[0])?;
    key.extend_from_slice(used)?;
    Ok(key)
}

/// Notes a key of a scope at a place.
fn note_key(
    alloc: Global,
    tables: &mut Vec<Table>,
    scope: usize,
    key: &[u8],
    place: usize,
) -> Result<(), AllocError>
    ensures { OnOk result (tables.new.items ≡ noted_key tables.old.items place (Some (scope, key.now))) }
{
    if scope < tables.len() {
        tables[scope].note(alloc, key, place, true)?;
    }
    Ok(())
}

/// Notes a declaration that says an accessibility.
fn note_declared(
    alloc: Global,
    tables: &mut Vec<Table>,
    scope: usize,
    declared: &Declared,
    place: usize,
) -> Result<(), AllocError>
    ensures { OnOk result (tables.new.items ≡ noted_key tables.old.items place (declared_key scope declared.now)) }
{
    if declared.access.is_some() {
        note_key(alloc, tables, scope, declared.name.bytes.as_slice(), place)?;
    }
    Ok(())
}

/// Notes an item that says a name's accessibility.
fn note_access(
    alloc: Global,
    scopes: &[ScopeRow],
    tables: &mut Vec<Table>,
    item: &Placed,
    place: usize,
) -> Result<(), AllocError>
    ensures { OnOk result (tables.new.items ≡ noted_key tables.old.items place (access_key item.now.item item.now.scope (host_in scopes.now item.now.scope))) }
{
    match &item.item {
        Item::Declares(declared) => note_declared(alloc, tables, item.scope, declared, place),
        Item::Heads(declared) => {
            let host = host_in(scopes, item.scope);
            note_declared(alloc, tables, host, declared, place)
        }
        Item::Accesses { name, access: _ } => {
            note_key(alloc, tables, item.scope, name.bytes.as_slice(), place)
        }
        _ => Ok(()),
    }
}

/// Notes an item that says the accessibility of all other names.
fn note_default(
    alloc: Global,
    tables: &mut Vec<Table>,
    item: &Placed,
    place: usize,
) -> Result<(), AllocError>
    ensures { OnOk result (tables.new.items ≡ noted_key tables.old.items place (default_key item.now.item item.now.scope)) }
{
    match &item.item {
        Item::Default(_) => note_key(alloc, tables, item.scope, &[], place),
        _ => Ok(()),
    }
}

/// Notes an item that imports a name.
fn note_import(
    alloc: Global,
    tables: &mut Vec<Table>,
    item: &Placed,
    place: usize,
) -> Result<(), AllocError>
    ensures { OnOk result (tables.new.items ≡ noted_key tables.old.items place (import_key item.now.item item.now.scope)) }
{
    match &item.item {
        Item::Imports(name) => note_key(alloc, tables, item.scope, name.bytes.as_slice(), place),
        _ => Ok(()),
    }
}

/// Notes an item that imports all names.
fn note_whole_import(
    alloc: Global,
    tables: &mut Vec<Table>,
    item: &Placed,
    place: usize,
) -> Result<(), AllocError>
    ensures { OnOk result (tables.new.items ≡ noted_key tables.old.items place (whole_import_key item.now.item item.now.scope)) }
{
    match &item.item {
        Item::ImportsAll => note_key(alloc, tables, item.scope, &[], place),
        _ => Ok(()),
    }
}

/// Notes an item that renames a name of a module.
fn note_renaming(
    alloc: Global,
    tables: &mut Vec<Table>,
    item: &Placed,
    place: usize,
) -> Result<(), AllocError>
    ensures { OnOk result (tables.new.items ≡ noted_key tables.old.items place (renaming_key_of item.now.item item.now.scope)) }
{
    match &item.item {
        Item::Takes {
            module,
            local: _,
            used,
            is_renamed,
        } => {
            if *is_renamed {
                let key = renaming_key(alloc, module.as_slice(), used.bytes.as_slice())?;
                note_key(alloc, tables, item.scope, key.as_slice(), place)?;
            }
            Ok(())
        }
        _ => Ok(()),
    }
}

/// Notes what an item says.
pub(crate) fn note_said(
    alloc: Global,
    scopes: &[ScopeRow],
    tables: &mut Vec<Table>,
    saying: Saying,
    item: &Placed,
    place: usize,
) -> Result<(), AllocError>
    ensures { OnOk result (tables.new.items ≡ noted_key tables.old.items place (key_at saying scopes.now item.now)) }
{
    match saying {
        Saying::Access => note_access(alloc, scopes, tables, item, place),
        Saying::DefaultAccess => note_default(alloc, tables, item, place),
        Saying::Import => note_import(alloc, tables, item, place),
        Saying::WholeImport => note_whole_import(alloc, tables, item, place),
        Saying::Renaming => note_renaming(alloc, tables, item, place),
    }
}

/// The accessibility that an item says of a name.
pub(crate) fn access_of(item: Option<&Placed>) -> Option<Access>
    ensures { result ≡ access_of (option_copied item.entry) }
{
    match item {
        None => None,
        Some(item) => match &item.item {
            Item::Declares(declared) => declared.access,
            Item::Heads(declared) => declared.access,
            Item::Accesses { name: _, access } => Some(*access),
            _ => None,
        },
    }
}

/// The accessibility that an item says of all other names.
pub(crate) fn default_of(item: Option<&Placed>) -> Option<Access>
    ensures { result ≡ default_of (option_copied item.entry) }
{
    match item {
        None => None,
        Some(item) => match &item.item {
            Item::Default(access) => Some(*access),
            _ => None,
        },
    }
}
