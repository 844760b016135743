//! A program whose scopes and declarations are known.

ghost use Rattle.std.specs.Prelude.{◌≡◌, ◌<◌, [], IfOk, length, slice_get};
ghost use Rattle.std.specs.Option.{option_copied};
ghost use Rattle.f_items.specs.Places.{located};
ghost use Rattle.f_scope.specs.Own.{IsTold};
ghost use Rattle.f_scope.specs.Program.{is_module_kind, module_of, module_at, told_of, outline_of, AreTables, AreParts, ModuleFound};
ghost use Rattle.f_scope.specs.Tables.{entry_at, table_at};
ghost use Rattle.f_scope.specs.Begun.{IsBegun};
ghost use Rattle.f_scope.specs.Alone.{broken_item, DeclarationFound};

use crate::name_rule::{Rule, broken_by};
use crate::own::own_tables;
use crate::placement::{Placed, ScopeRow, host_in, place_items};
use crate::table::{Entry, Table};
use crate::unit_names::collect_unit_names;
use f_items::{Item, ScopeKind};
use std::alloc::{AllocError, Global};
use std::marker::Model;

/// The items of a program in their scopes, with what each scope declares and with the modules by their names. Contracts see it as its items.
#[derive(Drop)]
pub struct Program {
    scopes: Vec<ScopeRow>,
    items: Vec<Placed>,
    own: Vec<Table>,
    units: Table,
}

impl Model for Program {
    ghost use Rattle.f_scope.specs.Program.{Outline, outline_of, AreTables};

    ghost Value = { Outline };

    ghost view = { λ p. outline_of p.scopes.items p.items.items };

    ghost invariant = { λ p. AreTables p.scopes.items p.items.items p.own.items p.units };
}

/// What a program is made of, lent: its scopes by their numbers, its items, and the table of what each scope declares.
#[derive(Clone, Copy)]
pub struct Parts<'a> {
    pub scopes: &'a [ScopeRow],
    pub items: &'a [Placed],
    pub own: &'a [Table],
}

/// What can be said of a program before a name is looked up in another scope.
#[derive(Drop)]
pub enum Begun {
    /// At this item, counted from 0, a program or a module has the name of another before it: N01.
    NamedTwice(usize),
    Begins(Program),
}

fn is_module_kind(kind: ScopeKind) -> bool
    ensures { result ≡ is_module_kind kind }
{
    match kind {
        ScopeKind::Module => true,
        _ => false,
    }
}

/// The scope of an item, where that is a module's.
fn module_of(scopes: &[ScopeRow], item: Option<&Placed>) -> Option<usize>
    ensures { result ≡ module_of scopes.now (option_copied item.entry) }
{
    match item {
        None => None,
        Some(item) => {
            if item.scope < scopes.len() && is_module_kind(scopes[item.scope].kind) {
                Some(item.scope)
            } else {
                None
            }
        }
    }
}

/// The entry of a name in the table of a scope.
#[tactic(auto, unfolding(crate::specs::Tables::entry_at))]
pub fn entry_in(own: &[Table], scope: usize, name: &[u8]) -> Option<Entry>
    ensures { result ≡ entry_at name.now (table_at own.now scope) }
{
    if scope < own.len() {
        own[scope].find(name)
    } else {
        None
    }
}

/// The first item that declares a name with this entry.
fn told_of(entry: Option<Entry>) -> Option<usize>
    ensures { result ≡ told_of entry }
{
    match entry {
        None => None,
        Some(entry) => entry.told,
    }
}

/// The scope of the module that is named where this entry says.
fn module_at(scopes: &[ScopeRow], items: &[Placed], entry: Option<Entry>) -> Option<usize>
    ensures { result ≡ module_at scopes.now items.now entry }
{
    match entry {
        None => None,
        Some(entry) => module_of(scopes, items.get(entry.first)),
    }
}

/// What an item breaks by its declaration.
fn broken_item(
    scopes: &[ScopeRow],
    own: &[Table],
    item: Option<&Placed>,
    place: usize,
) -> Option<Rule>
    ensures { result ≡ broken_item scopes.now own.now (option_copied item.entry) place }
{
    match item {
        None => None,
        Some(item) => match &item.item {
            Item::Declares(declared) => broken_by(
                entry_in(own, item.scope, declared.name.bytes.as_slice()),
                place,
                declared.share,
            ),
            Item::Heads(declared) => {
                let host = host_in(scopes, item.scope);
                broken_by(
                    entry_in(own, host, declared.name.bytes.as_slice()),
                    place,
                    declared.share,
                )
            }
            _ => None,
        },
    }
}

/// What the item at a place breaks by its declaration.
fn broken_at(scopes: &[ScopeRow], own: &[Table], items: &[Placed], place: usize) -> Option<Rule>
    ensures { result ≡ broken_item scopes.now own.now (slice_get items.now place) place }
{
    broken_item(scopes, own, items.get(place), place)
}

fn program_of(scopes: Vec<ScopeRow>, items: Vec<Placed>, own: Vec<Table>, units: Table) -> Program
    requires { AreTables scopes.items items.items own.items units }
    ensures { result ≡ outline_of scopes.items items.items }
{
    Program {
        scopes,
        items,
        own,
        units,
    }
}

impl Program {
    /// Its scopes, its items and the table of what each scope declares.
    pub fn parts(&self) -> Parts<'_>
        ensures { AreParts self.now result.scopes.now result.items.now result.own.now }
    {
        Parts {
            scopes: self.scopes.as_slice(),
            items: self.items.as_slice(),
            own: self.own.as_slice(),
        }
    }

    /// The first item that declares the name in the scope, counted from 0, if there is one.
    pub fn declared(&self, scope: usize, name: &[u8]) -> Option<usize>
        requires { scope < self.now.scopes }
        ensures { IsTold self.now.items scope name.now result }
    {
        told_of(entry_in(self.own.as_slice(), scope, name))
    }

    /// Which rule on declared names the declaration at an item, counted from 0, breaks: N01 before N02.
    pub fn broken(&self, place: usize) -> Option<Rule>
        ensures { DeclarationFound self.now.items place result }
    {
        broken_at(
            self.scopes.as_slice(),
            self.own.as_slice(),
            self.items.as_slice(),
            place,
        )
    }

    /// The scope of the module with this name, if there is one.
    pub fn module(&self, name: &[u8]) -> Option<usize>
        ensures { ModuleFound self.now.items name.now result }
    {
        module_at(
            self.scopes.as_slice(),
            self.items.as_slice(),
            self.units.find(name),
        )
    }
}

/// How many items a program has.
pub fn item_count(program: &Program) -> usize
    ensures { result ≡ length program.now.items }
{
    program.parts().items.len()
}

/// How many scopes it has.
pub fn scope_count(program: &Program) -> usize
    ensures { result ≡ program.now.scopes }
{
    program.parts().scopes.len()
}

/// Puts items into their scopes and looks up what each scope declares. It takes time in proportion to the items.
pub fn begin(alloc: Global, items: Vec<Item>) -> Result<Begun, AllocError>
    ensures { IfOk result (λ begun. IsBegun (located 1 [] items.items) begun) }
{
    let placed = place_items(alloc, items)?;
    let scopes = placed.scopes;
    let items = placed.items;
    let own = own_tables(alloc, scopes.as_slice(), items.as_slice())?;
    let (twice, units) = collect_unit_names(alloc, scopes.as_slice(), items.as_slice())?;
    match twice {
        Some(place) => Ok(Begun::NamedTwice(place)),
        None => Ok(Begun::Begins(program_of(scopes, items, own, units))),
    }
}
