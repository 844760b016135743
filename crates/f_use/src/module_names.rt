//! What a module gives under one name.

ghost use Rattle.std.specs.Prelude.{◌≡◌, ◌<◌, OnOk};
ghost use Rattle.std.specs.Option.{option_copied};
ghost use Rattle.f_scope.specs.Tables.{table_at};
ghost use Rattle.f_use.specs.Origins.{Grew};
ghost use Rattle.f_use.specs.Uses.{entity_in, OwnEntity, From, IsExact};

use crate::origins::{add_entry, add_some};
use f_items::{Class, Item};
use f_scope::{Placed, Program, Table, entry_in, is_unit_name};
use f_stated::Stated;
use std::alloc::{AllocError, Global};

fn declared_class(item: Option<&Placed>) -> Option<Class>
    ensures { result ≡ Rattle.f_use.specs.Uses.declared_class (option_copied item.entry) }
{
    match item {
        None => None,
        Some(item) => match &item.item {
            Item::Declares(declared) => Some(declared.class),
            Item::Heads(declared) => Some(declared.class),
            _ => None,
        },
    }
}

/// The place, where what is declared there is more than the name of a program unit.
fn entity_in(class: Option<Class>, place: usize) -> Option<usize>
    ensures { result ≡ entity_in class place }
{
    match class {
        None => None,
        Some(class) => {
            if is_unit_name(class) {
                None
            } else {
                Some(place)
            }
        }
    }
}

/// The place, where the item there declares more than the name of a program unit.
fn entity_at(items: &[Placed], place: Option<usize>) -> Option<usize>
    ensures { result ≡ Rattle.f_use.specs.Uses.entity_at items.now place }
{
    match place {
        None => None,
        Some(place) => entity_in(declared_class(items.get(place)), place),
    }
}

/// The entity that the scope itself declares by the name, if there is one.
pub fn entity_of(program: &Program, scope: usize, name: &[u8]) -> Option<usize>
    requires { scope < program.now.scopes }
    ensures { OwnEntity program.now.items scope name.now result }
{
    let told = program.declared(scope, name);
    entity_at(program.parts().items, told)
}

/// Adds to a table what the module gives by `used` under the name `local`, where its own table is known.
pub fn grant(
    alloc: Global,
    stated: &Stated,
    tables: &[Table],
    table: &mut Table,
    local: &[u8],
    source: usize,
    used: &[u8],
) -> Result<(), AllocError>
    requires source { source < stated.now.scopes }
    requires known { IsExact stated.now.items source (table_at tables.now source) }
    ensures { OnOk result (Grew table.old table.new (From stated.now.items source used.now local.now) (From stated.now.items source used.now local.now)) }
{
    if stated.is_public(source, used) {
        let own = entity_of(stated.program(), source, used);
        add_some(alloc, table, local, own)?;
        let entry = entry_in(tables, source, used);
        add_entry(alloc, table, local, entry)?;
        Ok(())
    } else {
        Ok(())
    }
}
