//! How many scopes a program has.

ghost use Rattle.std.specs.Prelude.{◌≡◌, ◌≤◌, map};
ghost use Rattle.f_items.specs.Places.{is_enter};
ghost use Rattle.f_scopes.specs.Held.{AreNumbered};
ghost use Rattle.f_scopes.specs.Numbers.{IsText, begun, placed_item, scope_count};

use f_items::Item;
use f_scope::{Placed, Program, scope_count};

fn is_enter(item: &Item) -> bool
    ensures { result ≡ is_enter item.now }
{
    match item {
        Item::Enter { kind: _, place: _ } => true,
        _ => false,
    }
}

/// How many scopes begin.
fn count_begun(items: &[Placed]) -> usize
    ensures { result ≡ begun (map placed_item items.now) }
{
    let mut count = 0;
    let mut rest = items;
    'items: while let Some((item, behind)) = rest.split_first() {
        if is_enter(&item.item) {
            count += 1;
        }
        rest = behind;
    }
    count
}

/// How many scopes a program has, with what is around the program units.
pub(crate) fn count_scopes(program: &Program) -> usize
    requires { IsText program.now.items }
    ensures count { result ≡ scope_count program.now.items }
    ensures numbered { AreNumbered program.now.items result }
    ensures below { result ≤ program.now.scopes }
{
    let parts = program.parts();
    let _most = scope_count(program);
    count_begun(parts.items) + 1
}
