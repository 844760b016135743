//! What a name denotes in a scope itself.

ghost use Rattle.std.specs.Prelude.{◌≡◌, ◌<◌};
ghost use Rattle.f_items.specs.Accessible.{Denotes};
ghost use Rattle.f_use.specs.Associated.{Found};
ghost use Rattle.f_find.specs.Merge.{other_of};

use f_use::{Associated, Origins};

/// The other entity beside an own one: one of those that are used and differ.
fn other_of(own: usize, used: Option<Origins>) -> Option<usize>
    ensures { result ≡ other_of own used }
{
    match used {
        None => None,
        Some(used) => {
            if used.first == own {
                used.other
            } else {
                Some(used.first)
            }
        }
    }
}

/// The entities of an own declaration and of those that are used.
pub fn merge(own: Option<usize>, used: Option<Origins>) -> Option<Origins>
    ensures { result ≡ Rattle.f_find.specs.Merge.merge own used }
{
    match own {
        None => used,
        Some(own) => Some(Origins {
            first: own,
            other: other_of(own, used),
        }),
    }
}

/// What the name denotes in the scope itself: what the scope declares, and what USE statements give it.
pub fn denoted(program: &Associated, scope: usize, name: &[u8]) -> Option<Origins>
    requires { scope < program.now.scopes }
    ensures { Found (Denotes program.now.items scope name.now) result }
{
    let own = program.stated().program().declared(scope, name);
    let used = program.used(scope, name);
    merge(own, used)
}
