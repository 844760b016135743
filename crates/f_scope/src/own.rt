//! What each scope declares.

ghost use Rattle.std.specs.Prelude.{◌≡◌, ◌+◌, ◌<◌, ◌≤◌, ◌^◌, OnOk, IfOk, length, map, Some};
ghost use Rattle.f_items.specs.Declarations.{Declaration};
ghost use Rattle.f_scope.specs.Rows.{AreHosts, seen};
ghost use Rattle.f_scope.specs.Tables.{tells_share, declared_at, noted_in, noted_all};
ghost use Rattle.f_scope.specs.Own.{AreOwn};

use crate::placement::{Placed, ScopeRow, host_in};
use crate::table::Table;
use f_items::{Declared, Item, Share};
use std::alloc::{AllocError, Global};

/// The declaration tells what the name is.
fn tells(share: Share) -> bool
    ensures { result ≡ tells_share share }
{
    match share {
        Share::Whole => true,
        Share::Announced => false,
        Share::Typed => true,
    }
}

/// Notes what an item declares.
fn note_item(
    alloc: Global,
    scopes: &[ScopeRow],
    tables: &mut Vec<Table>,
    place: usize,
    item: &Placed,
) -> Result<(), AllocError>
    ensures { OnOk result (tables.new.items ≡ noted_in tables.old.items place (declared_at scopes.now item.now)) }
{
    match &item.item {
        Item::Declares(declared) => note_in(alloc, tables, item.scope, place, declared),
        Item::Heads(declared) => {
            let host = host_in(scopes, item.scope);
            note_in(alloc, tables, host, place, declared)
        }
        _ => Ok(()),
    }
}

/// Notes a declaration in the table of its scope.
fn note_in(
    alloc: Global,
    tables: &mut Vec<Table>,
    scope: usize,
    place: usize,
    declared: &Declared,
) -> Result<(), AllocError>
    ensures { OnOk result (tables.new.items ≡ noted_in tables.old.items place (Some (record { scope = scope; what = declared.now }))) }
{
    if scope < tables.len() {
        tables[scope].note(
            alloc,
            declared.name.bytes.as_slice(),
            place,
            tells(declared.share),
        )?;
    }
    Ok(())
}

/// Notes what items declare, the first of which stands at a place.
#[tactic(auto, unfolding(crate::specs::Tables::noted_all))]
fn note_all(
    alloc: Global,
    scopes: &[ScopeRow],
    tables: &mut Vec<Table>,
    items: &[Placed],
) -> Result<(), AllocError>
    ensures { OnOk result (tables.new.items ≡ noted_all scopes.now tables.old.items 0 items.now) }
{
    let mut place = 0;
    let mut rest = items;
    'items: while let Some((item, behind)) = rest.split_first() {
        note_item(alloc, scopes, tables, place, item)?;
        place += 1;
        rest = behind;
    }
    Ok(())
}

/// The table of each scope, by its number: where the scope declares each name. It takes time in proportion to the items.
pub fn own_tables(
    alloc: Global,
    scopes: &[ScopeRow],
    items: &[Placed],
) -> Result<Vec<Table>, AllocError>
    requires { AreHosts scopes.now }
    ensures { IfOk result (λ tables. AreOwn (map (seen scopes.now) items.now) tables.items (length scopes.now)) }
{
    let mut tables = Vec::new(alloc);
    'scopes: while tables.len() < scopes.len() {
        tables.push(Table::new(alloc))?;
    }
    note_all(alloc, scopes, &mut tables, items)?;
    Ok(tables)
}
