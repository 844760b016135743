//! Where each scope says something first.

ghost use Rattle.std.specs.Prelude.{◌≡◌, OnOk, IfOk, length, map};
ghost use Rattle.f_scope.specs.Rows.{AreHosts, seen};
ghost use Rattle.f_stated.specs.Said.{noted_keys, AreSaid};

use crate::said::{Saying, note_said};
use f_scope::{Placed, ScopeRow, Table};
use std::alloc::{AllocError, Global};

/// Notes what items say, the first of which stands at place 0.
#[tactic(auto, unfolding(crate::specs::Said::noted_keys))]
fn note_all(
    alloc: Global,
    scopes: &[ScopeRow],
    tables: &mut Vec<Table>,
    saying: Saying,
    items: &[Placed],
) -> Result<(), AllocError>
    ensures { OnOk result (tables.new.items ≡ noted_keys saying scopes.now tables.old.items 0 items.now) }
{
    let mut place = 0;
    let mut rest = items;
    'items: while let Some((item, behind)) = rest.split_first() {
        note_said(alloc, scopes, tables, saying, item, place)?;
        place += 1;
        rest = behind;
    }
    Ok(())
}

/// The table of each scope, by its number: where it says this first of each name. It takes time in proportion to the items.
pub fn said_tables(
    alloc: Global,
    scopes: &[ScopeRow],
    saying: Saying,
    items: &[Placed],
) -> Result<Vec<Table>, AllocError>
    requires { AreHosts scopes.now }
    ensures { IfOk result (λ tables. AreSaid saying (map (seen scopes.now) items.now) tables.items (length scopes.now)) }
{
    let mut tables = Vec::new(alloc);
    'scopes: while tables.len() < scopes.len() {
        tables.push(Table::new(alloc))?;
    }
    note_all(alloc, scopes, &mut tables, saying, items)?;
    Ok(tables)
}
