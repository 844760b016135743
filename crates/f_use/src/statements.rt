//! What the USE statements of a scope give it (ISO/IEC 1539-1:2018, 14.2.2).

ghost use Rattle.std.specs.Prelude.{◌≡◌, ◌<◌, [], OnOk, IfOk, length, slice_get};
ghost use Rattle.std.specs.Option.{option_copied};
ghost use Rattle.f_scope.specs.Tables.{table_at};
ghost use Rattle.f_use.specs.Origins.{Grew};
ghost use Rattle.f_use.specs.Uses.{IsExact, ArePlacesKnown, IsPlaceKnown, IsItemKnown, IsKnown, Unrenamed, RowsGive, AllGiven, OneTaken, AllTaken, ItemGives, PlaceGives, PlacesGive};

use crate::module_names::grant;
use f_items::Item;
use f_scope::{Placed, Table};
use f_stated::Stated;
use std::alloc::{AllocError, Global};

/// Adds what the module gives by a name that the scope doesn't rename.
fn grant_unless_renamed(
    alloc: Global,
    stated: &Stated,
    tables: &[Table],
    table: &mut Table,
    scope: usize,
    module_name: &[u8],
    source: usize,
    name: &[u8],
) -> Result<(), AllocError>
    requires scope { scope < stated.now.scopes }
    requires source { source < stated.now.scopes }
    requires known { IsExact stated.now.items source (table_at tables.now source) }
    ensures { OnOk result (Grew table.old table.new (Unrenamed stated.now.items scope module_name.now source name.now) (Unrenamed stated.now.items scope module_name.now source name.now)) }
{
    let renamed = stated.is_renamed(alloc, scope, module_name, name)?;
    if renamed {
        Ok(())
    } else {
        grant(alloc, stated, tables, table, name, source, name)?;
        Ok(())
    }
}

/// Adds what the module gives by the names of one of its tables.
fn grant_rows(
    alloc: Global,
    stated: &Stated,
    tables: &[Table],
    table: &mut Table,
    scope: usize,
    module_name: &[u8],
    source: usize,
    names: &Table,
) -> Result<(), AllocError>
    requires scope { scope < stated.now.scopes }
    requires source { source < stated.now.scopes }
    requires known { IsExact stated.now.items source (table_at tables.now source) }
    ensures { OnOk result (Grew table.old table.new (RowsGive stated.now.items scope module_name.now source names.now (length names.now)) (RowsGive stated.now.items scope module_name.now source names.now (length names.now))) }
{
    let count = names.len();
    let mut number = 0;
    'numbers: while number < count {
        grant_row(
            alloc,
            stated,
            tables,
            table,
            scope,
            module_name,
            source,
            names,
            number,
        )?;
        number += 1;
    }
    Ok(())
}

/// Adds what the module gives by the name with this number in one of its tables.
fn grant_row(
    alloc: Global,
    stated: &Stated,
    tables: &[Table],
    table: &mut Table,
    scope: usize,
    module_name: &[u8],
    source: usize,
    names: &Table,
    number: usize,
) -> Result<(), AllocError>
    requires scope { scope < stated.now.scopes }
    requires source { source < stated.now.scopes }
    requires known { IsExact stated.now.items source (table_at tables.now source) }
    ensures { OnOk result (Grew table.old table.new (Rattle.f_use.specs.Uses.RowGives stated.now.items scope module_name.now source names.now number) (Rattle.f_use.specs.Uses.RowGives stated.now.items scope module_name.now source names.now number)) }
{
    match names.row(number) {
        None => Ok(()),
        Some(row) => {
            grant_unless_renamed(
                alloc,
                stated,
                tables,
                table,
                scope,
                module_name,
                source,
                row.0,
            )?;
            Ok(())
        }
    }
}

/// Adds what the module gives by the names of its table among these.
fn grant_table(
    alloc: Global,
    stated: &Stated,
    tables: &[Table],
    table: &mut Table,
    scope: usize,
    module_name: &[u8],
    source: usize,
    names: &[Table],
) -> Result<(), AllocError>
    requires scope { scope < stated.now.scopes }
    requires source { source < stated.now.scopes }
    requires known { IsExact stated.now.items source (table_at tables.now source) }
    ensures { OnOk result (Grew table.old table.new (RowsGive stated.now.items scope module_name.now source (table_at names.now source) (length (table_at names.now source))) (RowsGive stated.now.items scope module_name.now source (table_at names.now source) (length (table_at names.now source)))) }
{
    if source < names.len() {
        grant_rows(
            alloc,
            stated,
            tables,
            table,
            scope,
            module_name,
            source,
            &names[source],
        )?;
        Ok(())
    } else {
        Ok(())
    }
}

/// Adds all that the module gives and that the scope doesn't rename.
fn grant_all(
    alloc: Global,
    stated: &Stated,
    tables: &[Table],
    table: &mut Table,
    scope: usize,
    module_name: &[u8],
    source: usize,
) -> Result<(), AllocError>
    requires scope { scope < stated.now.scopes }
    requires source { source < stated.now.scopes }
    requires known { IsExact stated.now.items source (table_at tables.now source) }
    ensures { OnOk result (Grew table.old table.new (AllGiven stated.now.items scope module_name.now source) (AllGiven stated.now.items scope module_name.now source)) }
{
    let own = stated.program().parts().own;
    grant_table(
        alloc,
        stated,
        tables,
        table,
        scope,
        module_name,
        source,
        own,
    )?;
    grant_table(
        alloc,
        stated,
        tables,
        table,
        scope,
        module_name,
        source,
        tables,
    )?;
    Ok(())
}

/// The scope of the module with this name, which is one of the program's scopes.
fn module_of(stated: &Stated, name: &[u8]) -> Option<usize>
    ensures { Rattle.f_use.specs.Uses.ModuleIn stated.now name.now result }
{
    let program = stated.program();
    let _parts = program.parts();
    program.module(name)
}

/// Adds what a USE statement names.
fn take_one(
    alloc: Global,
    stated: &Stated,
    tables: &[Table],
    table: &mut Table,
    module_name: &[u8],
    local: &[u8],
    used: &[u8],
) -> Result<(), AllocError>
    requires { IsKnown stated.now.items module_name.now tables.now }
    ensures { OnOk result (Grew table.old table.new (OneTaken stated.now.items module_name.now local.now used.now) (OneTaken stated.now.items module_name.now local.now used.now)) }
{
    match module_of(stated, module_name) {
        None => Ok(()),
        Some(source) => {
            grant(alloc, stated, tables, table, local, source, used)?;
            Ok(())
        }
    }
}

/// Adds what a USE statement without ONLY gives by the names that the scope doesn't rename.
fn take_all(
    alloc: Global,
    stated: &Stated,
    tables: &[Table],
    table: &mut Table,
    scope: usize,
    module_name: &[u8],
) -> Result<(), AllocError>
    requires scope { scope < stated.now.scopes }
    requires known { IsKnown stated.now.items module_name.now tables.now }
    ensures { OnOk result (Grew table.old table.new (AllTaken stated.now.items scope module_name.now) (AllTaken stated.now.items scope module_name.now)) }
{
    match module_of(stated, module_name) {
        None => Ok(()),
        Some(source) => {
            grant_all(alloc, stated, tables, table, scope, module_name, source)?;
            Ok(())
        }
    }
}

/// Adds what an item gives the scope by use association.
fn add_item(
    alloc: Global,
    stated: &Stated,
    tables: &[Table],
    table: &mut Table,
    scope: usize,
    item: &Item,
) -> Result<(), AllocError>
    requires scope { scope < stated.now.scopes }
    requires known { IsItemKnown stated.now.items tables.now item.now }
    ensures { OnOk result (Grew table.old table.new (ItemGives stated.now.items scope item.now) (ItemGives stated.now.items scope item.now)) }
{
    match item {
        Item::Takes {
            module,
            local,
            used,
            is_renamed: _,
        } => {
            take_one(
                alloc,
                stated,
                tables,
                table,
                module.as_slice(),
                local.bytes.as_slice(),
                used.bytes.as_slice(),
            )?;
            Ok(())
        }
        Item::Uses {
            place: _,
            module,
            is_intrinsic: _,
            is_only,
        } => {
            let only = *is_only;
            if only {
                Ok(())
            } else {
                take_all(alloc, stated, tables, table, scope, module.bytes.as_slice())?;
                Ok(())
            }
        }
        _ => Ok(()),
    }
}

/// The item at a place.
fn item_at(items: &[Placed], place: usize) -> Option<&Placed>
    ensures { option_copied result ≡ slice_get items.now place }
{
    items.get(place)
}

/// Adds what the item at a place gives the scope by use association.
fn add_place(
    alloc: Global,
    stated: &Stated,
    tables: &[Table],
    table: &mut Table,
    scope: usize,
    place: usize,
) -> Result<(), AllocError>
    requires scope { scope < stated.now.scopes }
    requires known { IsPlaceKnown stated.now.items tables.now place }
    ensures { OnOk result (Grew table.old table.new (PlaceGives stated.now.items scope place) (PlaceGives stated.now.items scope place)) }
{
    let items = stated.program().parts().items;
    match item_at(items, place) {
        None => Ok(()),
        Some(item) => {
            add_item(alloc, stated, tables, table, scope, &item.item)?;
            Ok(())
        }
    }
}

/// The table of the names that the items at these places give the scope by use association, where the tables of the modules are known that they name.
pub fn build_table(
    alloc: Global,
    stated: &Stated,
    tables: &[Table],
    scope: usize,
    places: &[usize],
) -> Result<Table, AllocError>
    requires scope { scope < stated.now.scopes }
    requires known { ArePlacesKnown stated.now.items tables.now places.now }
    ensures { IfOk result (λ table. Grew [] table (PlacesGive stated.now.items scope places.now) (PlacesGive stated.now.items scope places.now)) }
{
    let mut table = Table::new(alloc);
    let mut rest = places;
    'places: while let Some((place, behind)) = rest.split_first() {
        add_place(alloc, stated, tables, &mut table, scope, *place)?;
        rest = behind;
    }
    Ok(table)
}
