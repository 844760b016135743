//! The scopes of a program that keeps the rules on names.

ghost use Rattle.std.specs.Prelude.{◌≡◌, [], IfOk, slice_get};
ghost use Rattle.std.specs.Option.{option_copied};
ghost use Rattle.f_items.specs.Order.{InOrder};
ghost use Rattle.f_items.specs.Scoped.{IsKept};
ghost use Rattle.f_order.specs.Resolved.{IsResolved};
ghost use Rattle.f_scope.specs.Rows.{row_at};
ghost use Rattle.f_use.specs.Associated.{Found};
ghost use Rattle.f_scopes.specs.Held.{IsHeld};
ghost use Rattle.f_scopes.specs.Names.{VisibleIn};
ghost use Rattle.f_scopes.specs.Numbers.{IsText, scope_count, scope_number, KindFound, HostFound, item_at};
ghost use Rattle.f_scopes.specs.References.{AreReferences};

use crate::count::count_scopes;
use crate::reference::find_references;
use f_find::visible;
use f_items::{Item, ScopeKind};
use f_order::Resolved;
use f_rules::stand_at;
use f_scope::{Program, ScopeRow, host_in};
use f_use::Origins;
use std::alloc::{AllocError, Global};
use std::marker::Model;

/// The scopes of a program that keeps the rules on names, and what its names denote (ISO/IEC 1539-1:2018, 19.1 to 19.5).
///
/// Scopes are numbered from 0 in the order in which they begin; number 0 is what is around the program units. A declaration is told by the number of its
/// item: items are the names of the program in the order of the text, counted from 0, behind the names that are there before a program. Contracts see the
/// whole as the items with the scopes that are open at each.
#[derive(Drop)]
pub struct Scopes {
    resolved: Resolved,
    count: usize,
    references: Vec<Option<usize>>,
}

impl Model for Scopes {
    ghost use Rattle.std.specs.Prelude.{List};
    ghost use Rattle.f_items.specs.Places.{Located};
    ghost use Rattle.f_scopes.specs.Held.{IsHeld};

    ghost Value = { List Located };

    ghost view = { λ s. s.resolved.program.items };

    ghost invariant = { λ s. IsHeld s.resolved s.count s.references.items };
}

fn program_of(resolved: &Resolved) -> &Program
    ensures { result.now ≡ resolved.now.program }
{
    resolved.program.stated().program()
}

/// The kind of a scope, by the rows of all scopes.
fn kind_in(scopes: &[ScopeRow], scope: usize) -> ScopeKind
    ensures { result ≡ (row_at scopes.now scope).kind }
{
    if scope < scopes.len() {
        scopes[scope].kind
    } else {
        ScopeKind::Intrinsic
    }
}

impl Scopes {
    /// How many scopes there are.
    pub fn count(&self) -> usize
        ensures { result ≡ scope_count self.now }
    {
        self.count
    }

    /// What the name denotes in the scope: what is declared there, by use association, or by host association as far as IMPORT lets it, or the intrinsic
    /// procedure (ISO/IEC 1539-1:2018, 19.5.1.4, 14.2.2 and 8.8). It is None exactly where the name isn't visible in the scope, or there is no such scope. A
    /// name that is referred to nowhere may come from two entities (14.2.2); then another is told. It takes a look-up a scope.
    pub fn find(&self, scope: usize, name: &[u8]) -> Option<Origins>
        ensures { Found (VisibleIn self.now scope name.now) result }
    {
        if scope < self.count {
            visible(&self.resolved.program, scope, name)
        } else {
            None
        }
    }

    /// What a scope is, or None where there is no such scope.
    pub fn kind(&self, scope: usize) -> Option<ScopeKind>
        ensures { KindFound self.now scope result }
    {
        if scope < self.count {
            Some(kind_in(program_of(&self.resolved).parts().scopes, scope))
        } else {
            None
        }
    }

    /// The scope around a scope (ISO/IEC 1539-1:2018, 19.5.1.4), or None for what is around the program units and where there is no such scope.
    pub fn host(&self, scope: usize) -> Option<usize>
        ensures { HostFound self.now scope result }
    {
        let scopes = program_of(&self.resolved).parts().scopes;
        if scope == 0 {
            None
        } else if scope < self.count {
            Some(host_in(scopes, scope))
        } else {
            None
        }
    }

    /// The item of this number, lent, or None where there is no such item.
    pub fn item(&self, number: usize) -> Option<&Item>
        ensures { option_copied result ≡ item_at (slice_get self.now number) }
    {
        match stand_at(program_of(&self.resolved), number) {
            None => None,
            Some(stand) => Some(stand.item),
        }
    }

    /// The scope that an item stands in: a procedure's and a derived type's name stands in its own scope, and is declared in the one around that.
    pub fn scope_of(&self, number: usize) -> Option<usize>
        ensures { result ≡ scope_number (slice_get self.now number) }
    {
        match stand_at(program_of(&self.resolved), number) {
            None => None,
            Some(stand) => Some(stand.scope),
        }
    }

    /// For each item the item that declares what it refers to: a reference, a name in an IMPORT, access or USE statement, and a component that is selected
    /// from an object of a derived type. Each name that is sought has one.
    pub fn references(&self) -> &[Option<usize>]
        ensures { AreReferences self.now result.now }
    {
        self.references.as_slice()
    }

    /// The scopes of the program units, each module behind those that it uses (ISO/IEC 1539-1:2018, 14.2.2), then the other units.
    pub fn order(&self) -> &[usize]
        ensures { InOrder self.now [] result.now }
    {
        self.resolved.order.as_slice()
    }
}

fn scopes_from(resolved: Resolved, count: usize, references: Vec<Option<usize>>) -> Scopes
    requires { IsHeld resolved count references.items }
    ensures { result ≡ resolved.program.items }
{
    Scopes {
        resolved,
        count,
        references,
    }
}

/// The scopes of a program that is resolved and keeps the rules. It takes time in proportion to the items, but for look-ups.
pub(crate) fn scopes_of(alloc: Global, resolved: Resolved) -> Result<Scopes, AllocError>
    requires text { IsText resolved.program.items }
    requires kept { IsKept resolved.program.items }
    requires resolved { IsResolved resolved.program resolved }
    ensures { IfOk result (λ scopes. scopes ≡ resolved.program.items) }
{
    let count = count_scopes(program_of(&resolved));
    let references = find_references(alloc, &resolved.program)?;
    Ok(scopes_from(resolved, count, references))
}
