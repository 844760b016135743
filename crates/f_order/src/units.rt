//! The program unit of each scope, and what an item says of units.

ghost use Rattle.std.specs.Prelude.{◌≡◌, IfOk, length, slice_get};
ghost use Rattle.std.specs.Option.{option_copied};
ghost use Rattle.f_items.specs.Order.{module_used};
ghost use Rattle.f_scope.specs.Rows.{AreHosts};
ghost use Rattle.f_scope.specs.Program.{is_module_kind};
ghost use Rattle.f_use.specs.Uses.{ModuleIn};
ghost use Rattle.f_order.specs.Units.{number_at, unit_by, AreNumbers, AreUnits, UnitFound, is_module_name, names_module, ModuleFound, EdgeFound};

use f_items::{Item, ScopeKind};
use f_scope::{Placed, Program, ScopeRow, host_in, is_unit_name};
use jf_base::List;
use std::alloc::{AllocError, Global};

/// One unit depends on another, in which a module is that it uses.
#[derive(Clone, Copy, PartialEq, Eq, Debug)]
pub struct Edge {
    pub unit: usize,
    pub module_unit: usize,
}

/// The unit of a scope by a table of them.
pub(crate) fn number_at(units: &[usize], scope: usize) -> usize
    ensures { result ≡ number_at units.now scope }
{
    if scope < units.len() { units[scope] } else { 0 }
}

/// The unit of a scope by that of the scope around it.
fn unit_by(units: &[usize], host: usize, scope: usize) -> usize
    ensures { result ≡ unit_by units.now host scope }
{
    if scope == 0 {
        0
    } else if host == 0 {
        scope
    } else {
        number_at(units, host)
    }
}

/// The unit of each scope by the rows.
fn unit_numbers(alloc: Global, scopes: &[ScopeRow]) -> Result<Vec<usize>, AllocError>
    requires { AreHosts scopes.now }
    ensures { IfOk result (λ units. AreNumbers scopes.now units.items (length scopes.now)) }
{
    let mut units = Vec::new(alloc);
    let mut scope = 0;
    'scopes: while scope < scopes.len() {
        let unit = unit_by(units.as_slice(), host_in(scopes, scope), scope);
        units.push(unit)?;
        scope += 1;
    }
    Ok(units)
}

/// The program unit in which each scope lies, by its number; what is around the program units is number 0. It takes time in proportion to the scopes.
pub fn unit_table(alloc: Global, program: &Program) -> Result<Vec<usize>, AllocError>
    ensures { IfOk result (λ units. AreUnits program.now units.items) }
{
    let scopes = program.parts().scopes;
    let units = unit_numbers(alloc, scopes)?;
    Ok(units)
}

/// The item at a place.
fn item_at(items: &[Placed], place: usize) -> Option<&Placed>
    ensures { option_copied result ≡ slice_get items.now place }
{
    items.get(place)
}

/// The unit in which the item at a place stands.
pub fn unit_at(program: &Program, units: &[usize], place: usize) -> Option<usize>
    requires { AreUnits program.now units.now }
    ensures { UnitFound program.now.items place result }
{
    match item_at(program.parts().items, place) {
        None => None,
        Some(item) => Some(number_at(units, item.scope)),
    }
}

/// The item is the name of a unit.
fn is_module_name(item: &Item) -> bool
    ensures { result ≡ is_module_name item.now }
{
    match item {
        Item::Declares(declared) => is_unit_name(declared.class),
        _ => false,
    }
}

fn is_module_kind(kind: ScopeKind) -> bool
    ensures { result ≡ is_module_kind kind }
{
    match kind {
        ScopeKind::Module => true,
        _ => false,
    }
}

/// The kind of a scope.
fn kind_in(scopes: &[ScopeRow], scope: usize) -> ScopeKind
    ensures { result ≡ (Rattle.f_scope.specs.Rows.row_at scopes.now scope).kind }
{
    if scope < scopes.len() {
        scopes[scope].kind
    } else {
        ScopeKind::Intrinsic
    }
}

/// The item is the name of a module.
fn names_module(scopes: &[ScopeRow], item: &Placed) -> bool
    ensures { result ≡ names_module scopes.now item.now }
{
    is_module_name(&item.item) && is_module_kind(kind_in(scopes, item.scope))
}

/// The unit in which the module is that the item at a place names as its own.
pub(crate) fn module_at(program: &Program, units: &[usize], place: usize) -> Option<usize>
    requires { AreUnits program.now units.now }
    ensures { ModuleFound program.now.items place result }
{
    let parts = program.parts();
    match item_at(parts.items, place) {
        None => None,
        Some(item) => {
            if names_module(parts.scopes, item) {
                Some(number_at(units, item.scope))
            } else {
                None
            }
        }
    }
}

/// The module that an item of a USE statement names.
fn module_used(item: &Item) -> Option<&List<u8>>
    ensures { option_copied result ≡ module_used item.now }
{
    match item {
        Item::Uses {
            place: _,
            module,
            is_intrinsic: _,
            is_only: _,
        } => Some(&module.bytes),
        Item::Takes {
            module,
            local: _,
            used: _,
            is_renamed: _,
        } => Some(module),
        _ => None,
    }
}

/// The scope of the module with this name, which is one of the program's scopes.
fn module_of(program: &Program, name: &[u8]) -> Option<usize>
    ensures { ModuleIn program.now name.now result }
{
    let _parts = program.parts();
    program.module(name)
}

/// Which unit depends on which by the item at a place.
pub(crate) fn edge_at(program: &Program, units: &[usize], place: usize) -> Option<Edge>
    requires { AreUnits program.now units.now }
    ensures { EdgeFound program.now.items place result }
{
    match item_at(program.parts().items, place) {
        None => None,
        Some(item) => match module_used(&item.item) {
            None => None,
            Some(name) => match module_of(program, name.as_slice()) {
                None => None,
                Some(scope) => Some(Edge {
                    unit: number_at(units, item.scope),
                    module_unit: number_at(units, scope),
                }),
            },
        },
    }
}
