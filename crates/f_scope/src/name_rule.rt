//! Rules on names that a declaration breaks whatever is accessible.

ghost use Rattle.std.specs.Prelude.{◌≡◌};
ghost use Rattle.f_scope.specs.Alone.{told_before, is_twice, is_lacking, broken_by};

use crate::table::Entry;
use f_items::Share;

/// A rule on declared names.
#[derive(Clone, Copy, PartialEq, Eq, Debug)]
pub enum Rule {
    /// N01: a name is declared once in a scope.
    DeclaredOnce,
    /// N02: what a head announces is declared.
    Declared,
}

fn told_before(told: Option<usize>, place: usize) -> bool
    ensures { result ≡ told_before told place }
{
    match told {
        None => false,
        Some(told) => told < place,
    }
}

fn is_twice(entry: Entry, place: usize, share: Share) -> bool
    ensures { result ≡ is_twice entry place share }
{
    match share {
        Share::Whole => entry.first < place,
        Share::Announced => entry.first < place,
        Share::Typed => told_before(entry.told, place),
    }
}

fn is_lacking(entry: Entry, share: Share) -> bool
    ensures { result ≡ is_lacking entry share }
{
    match share {
        Share::Whole => false,
        Share::Announced => entry.told.is_none(),
        Share::Typed => false,
    }
}

/// What a declaration at a place breaks, by the entry of its name in the table of its scope.
pub fn broken_by(entry: Option<Entry>, place: usize, share: Share) -> Option<Rule>
    ensures { result ≡ broken_by entry place share }
{
    match entry {
        None => None,
        Some(entry) => {
            if is_twice(entry, place, share) {
                Some(Rule::DeclaredOnce)
            } else if is_lacking(entry, share) {
                Some(Rule::Declared)
            } else {
                None
            }
        }
    }
}
