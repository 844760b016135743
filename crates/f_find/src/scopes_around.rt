//! What a name denotes in a scope and those around it.

ghost use Rattle.std.specs.Prelude.{◌≡◌, ◌<◌, [], Decides, length, Some, slice_get};
ghost use Rattle.f_items.specs.Accessible.{Denotes, Visible, IsImported};
ghost use Rattle.f_scope.specs.Rows.{row_at, chain_of};
ghost use Rattle.f_use.specs.Associated.{Found};
ghost use Rattle.f_find.specs.Steps.{FoundIn, GoesOn, AreRows};
ghost use Rattle.f_find.specs.Visible.{has_names, is_interface_body, IsVisible, IsVisibleAround};

use crate::scope_names::denoted;
use f_items::ScopeKind;
use f_scope::{ScopeRow, host_in};
use f_use::{Associated, Origins};

fn has_names(kind: ScopeKind) -> bool
    ensures { result ≡ has_names kind }
{
    match kind {
        ScopeKind::DerivedType => false,
        _ => true,
    }
}

fn is_interface_body(kind: ScopeKind) -> bool
    ensures { result ≡ is_interface_body kind }
{
    match kind {
        ScopeKind::InterfaceBody => true,
        _ => false,
    }
}

/// The row of a scope.
fn row_in(scopes: &[ScopeRow], scope: usize) -> ScopeRow
    ensures { result ≡ row_at scopes.now scope }
{
    if scope < scopes.len() {
        scopes[scope]
    } else {
        ScopeRow {
            kind: ScopeKind::Intrinsic,
            host: 0,
            unit: 0,
        }
    }
}

/// Whether an interface body imports the name, or all (ISO/IEC 1539-1:2018, 8.8).
fn is_imported(program: &Associated, scope: usize, name: &[u8]) -> bool
    requires { scope < program.now.scopes }
    ensures { Decides result (IsImported program.now.items scope name.now) }
{
    if program.stated().imports_all(scope) {
        true
    } else {
        program.stated().imports_name(scope, name)
    }
}

/// An intrinsic procedure of this name.
fn intrinsic(program: &Associated, name: &[u8]) -> Option<Origins>
    requires { 0 < program.now.scopes }
    ensures { Found (Visible program.now.items [] name.now) result }
{
    match program.stated().program().declared(0, name) {
        None => None,
        Some(place) => Some(Origins {
            first: place,
            other: None,
        }),
    }
}

/// What the name denotes in the scope itself, where names are sought in it.
fn found_in(program: &Associated, kind: ScopeKind, scope: usize, name: &[u8]) -> Option<Origins>
    requires { scope < program.now.scopes }
    ensures { FoundIn program.now.items kind scope name.now result }
{
    if has_names(kind) {
        denoted(program, scope, name)
    } else {
        None
    }
}

/// Whether names of the scope around are seen in a scope.
fn continues(program: &Associated, kind: ScopeKind, scope: usize, name: &[u8]) -> bool
    requires { scope < program.now.scopes }
    ensures { Decides result (GoesOn program.now.items kind scope name.now) }
{
    if is_interface_body(kind) {
        is_imported(program, scope, name)
    } else {
        true
    }
}

/// What the name denotes in the scope and those around it, by the rows of the scopes.
fn visible_from(
    program: &Associated,
    scopes: &[ScopeRow],
    scope: usize,
    name: &[u8],
) -> Option<Origins>
    requires rows { AreRows program.now scopes.now }
    requires scope { scope < program.now.scopes }
    ensures { Found (Visible program.now.items (chain_of scopes.now scope) name.now) result }
{
    let mut at = scope;
    'scopes: while at > 0 {
        let row = row_in(scopes, at);
        match found_in(program, row.kind, at, name) {
            Some(found) => return Some(found),
            None => {
                if continues(program, row.kind, at, name) {
                    at = row.host;
                } else {
                    return intrinsic(program, name);
                }
            }
        }
    }
    intrinsic(program, name)
}

/// What the name denotes where an item of the scope stands: in the scope, in those around it as far as IMPORT lets them be seen, or as an intrinsic
/// procedure (ISO/IEC 1539-1:2018, 19.5.1.4 and 8.8). It takes a look-up a scope.
pub fn visible(program: &Associated, scope: usize, name: &[u8]) -> Option<Origins>
    requires { scope < program.now.scopes }
    ensures { IsVisible program.now.items scope name.now result }
{
    let scopes = program.stated().program().parts().scopes;
    visible_from(program, scopes, scope, name)
}

/// What the name denotes in the scope around an item's, and in those around that.
pub fn visible_around(program: &Associated, scope: usize, name: &[u8]) -> Option<Origins>
    requires { scope < program.now.scopes }
    ensures { IsVisibleAround program.now.items scope name.now result }
{
    let scopes = program.stated().program().parts().scopes;
    visible_from(program, scopes, host_in(scopes, scope), name)
}
