//! A program whose USE statements are resolved.

ghost use Rattle.std.specs.Prelude.{◌≡◌, ◌<◌, IfOk, OnOk, length, slice_set};
ghost use Rattle.f_items.specs.Accessible.{IsUsed};
ghost use Rattle.f_scope.specs.Tables.{table_at};
ghost use Rattle.f_use.specs.Associated.{IsOrder, IsFilled, ScopeUses, Found, AreAssociated};
ghost use Rattle.f_use.specs.Places.{AreUsePlaces};
ghost use Rattle.f_use.specs.Uses.{IsExact};

use crate::origins::{Origins, origins_of};
use crate::places::{Places, places_in, use_places};
use crate::statements::build_table;
use f_scope::{Table, entry_in};
use f_stated::Stated;
use std::alloc::{AllocError, Global};
use std::marker::Model;

/// A program with the names that each scope gets by USE statements. Contracts see it as its items.
#[derive(Drop)]
pub struct Associated {
    stated: Stated,
    used: Vec<Table>,
}

impl Model for Associated {
    ghost use Rattle.f_scope.specs.Program.{Outline};
    ghost use Rattle.f_use.specs.Associated.{AreAssociated};

    ghost Value = { Outline };

    ghost view = { λ a. a.stated };

    ghost invariant = { λ a. AreAssociated a.stated a.used.items };
}

impl Associated {
    /// The program with what its statements say.
    pub fn stated(&self) -> &Stated
        ensures { result.now ≡ self.now }
    {
        &self.stated
    }

    /// The entities that the scope gets under the name by USE statements: one, and another if there are several.
    pub fn used(&self, scope: usize, name: &[u8]) -> Option<Origins>
        requires { scope < self.now.scopes }
        ensures { Found (IsUsed self.now.items scope name.now) result }
    {
        origins_of(entry_in(self.used.as_slice(), scope, name))
    }
}

/// The table of a scope, where the tables of the modules are known that it uses.
fn table_of(
    alloc: Global,
    stated: &Stated,
    lists: &[Places],
    used: &[Table],
    scope: usize,
) -> Result<Table, AllocError>
    requires scope { scope < stated.now.scopes }
    requires lists { AreUsePlaces stated.now.items lists.now stated.now.scopes }
    requires known { (m : _) → ScopeUses stated.now.items scope m → IsExact stated.now.items m (table_at used.now m) }
    ensures { IfOk result (λ table. IsExact stated.now.items scope table) }
{
    let table = build_table(alloc, stated, used, scope, places_in(lists, scope))?;
    Ok(table)
}

/// Puts a scope's table among the others.
fn put_table(used: &mut Vec<Table>, scope: usize, table: Table)
    requires { scope < length used.old.items }
    ensures { used.new.items ≡ slice_set used.old.items scope table }
{
    used[scope] = table;
}

/// Finds the table of a scope and puts it among the others.
fn fill(
    alloc: Global,
    stated: &Stated,
    lists: &[Places],
    used: &mut Vec<Table>,
    scope: usize,
) -> Result<(), AllocError>
    requires scope { scope < stated.now.scopes }
    requires count { length used.old.items ≡ stated.now.scopes }
    requires lists { AreUsePlaces stated.now.items lists.now stated.now.scopes }
    requires known { (m : _) → ScopeUses stated.now.items scope m → IsExact stated.now.items m (table_at used.old.items m) }
    ensures { OnOk result (IsFilled stated.now.items used.old.items used.new.items scope) }
{
    let table = table_of(alloc, stated, lists, used.as_slice(), scope)?;
    put_table(used, scope, table);
    Ok(())
}

/// As many tables without names as the program has scopes.
fn no_tables(alloc: Global, stated: &Stated) -> Result<Vec<Table>, AllocError>
    ensures { IfOk result (λ tables. length tables.items ≡ stated.now.scopes) }
{
    let count = stated.program().parts().scopes.len();
    let mut tables = Vec::new(alloc);
    'scopes: while tables.len() < count {
        tables.push(Table::new(alloc))?;
    }
    Ok(tables)
}

/// The tables of all scopes.
fn used_tables(
    alloc: Global,
    stated: &Stated,
    lists: &[Places],
    order: &[usize],
) -> Result<Vec<Table>, AllocError>
    requires lists { AreUsePlaces stated.now.items lists.now stated.now.scopes }
    requires order { IsOrder stated.now order.now }
    ensures { IfOk result (λ used. AreAssociated stated.now used.items) }
{
    let mut used = no_tables(alloc, stated)?;
    let mut rest = order;
    'order: while let Some((scope, behind)) = rest.split_first() {
        fill(alloc, stated, lists, &mut used, *scope)?;
        rest = behind;
    }
    Ok(used)
}

/// For each scope, by its number, where its USE statements and the names in them stand.
pub fn lists_of(alloc: Global, stated: &Stated) -> Result<Vec<Places>, AllocError>
    ensures { IfOk result (λ lists. AreUsePlaces stated.now.items lists.items stated.now.scopes) }
{
    let parts = stated.program().parts();
    let lists = use_places(alloc, parts.scopes, parts.items)?;
    Ok(lists)
}

fn associated_of(stated: Stated, used: Vec<Table>) -> Associated
    requires { AreAssociated stated used.items }
    ensures { result ≡ stated }
{
    Associated { stated, used }
}

/// Resolves the USE statements of all scopes, in an order in which each scope stands behind the modules that it uses. It takes time in proportion to the
/// items and to the names that scopes get.
pub fn associate(alloc: Global, stated: Stated, order: &[usize]) -> Result<Associated, AllocError>
    requires { IsOrder stated order.now }
    ensures { IfOk result (λ associated. associated ≡ stated) }
{
    let lists = lists_of(alloc, &stated)?;
    let used = used_tables(alloc, &stated, lists.as_slice(), order)?;
    Ok(associated_of(stated, used))
}
