//! The rules on names of a program.

ghost use Rattle.std.specs.Prelude.{[], IfOk};
ghost use Rattle.f_items.specs.Places.{located};
ghost use Rattle.f_items.specs.Scoped.{IsNamedTwice};
ghost use Rattle.f_order.specs.Resolved.{IsResolved};
ghost use Rattle.f_names.specs.Checked.{IsChecked};

use crate::lists::unit_places;
use crate::walk::{Broken, first_of};
use f_items::Item;
use f_order::{Resolution, Resolved, resolve};
use f_rules::{NameRule, part_types};
use f_scope::{Begun, Program, begin};
use f_stated::state;
use std::alloc::{AllocError, Global};

/// What the rules on names say of a program.
#[derive(Drop)]
pub enum Checked {
    /// The first broken rule.
    Broken(Broken),
    /// All are kept; the names are resolved.
    Kept(Resolved),
}

/// What the rules say of a program whose USE statements are resolved.
fn check_resolved(alloc: Global, resolved: Resolved) -> Result<Checked, AllocError>
    requires names { (k : _) → IsNamedTwice resolved.program.items k → ⊥ }
    requires resolved { IsResolved resolved.program resolved }
    ensures { IfOk result (λ checked. IsChecked resolved.program.items checked) }
{
    let lists = unit_places(
        alloc,
        resolved.program.stated().program(),
        resolved.units.as_slice(),
    )?;
    let types = part_types(alloc, &resolved.program)?;
    let first = first_of(
        &resolved.program,
        types.as_slice(),
        lists.as_slice(),
        resolved.order.as_slice(),
    );
    match first {
        Some(broken) => Ok(Checked::Broken(broken)),
        None => Ok(Checked::Kept(resolved)),
    }
}

fn check_begun(alloc: Global, program: Program) -> Result<Checked, AllocError>
    requires names { (k : _) → IsNamedTwice program.items k → ⊥ }
    ensures { IfOk result (λ checked. IsChecked program.items checked) }
{
    let stated = state(alloc, program)?;
    match resolve(alloc, stated)? {
        Resolution::OnCycle(place) => Ok(Checked::Broken(Broken {
            place,
            rule: NameRule::Acyclic,
        })),
        Resolution::Resolved(resolved) => {
            let checked = check_resolved(alloc, resolved)?;
            Ok(checked)
        }
    }
}

/// Checks the rules on names of a program with these items: the first broken rule and its item, or that all are kept. It takes time in proportion to the
/// items, but for look-ups.
pub fn check_names(alloc: Global, items: Vec<Item>) -> Result<Checked, AllocError>
    ensures { IfOk result (λ checked. IsChecked (located 1 [] items.items) checked) }
{
    match begin(alloc, items)? {
        Begun::NamedTwice(place) => Ok(Checked::Broken(Broken {
            place,
            rule: NameRule::DeclaredOnce,
        })),
        Begun::Begins(program) => {
            let checked = check_begun(alloc, program)?;
            Ok(checked)
        }
    }
}
