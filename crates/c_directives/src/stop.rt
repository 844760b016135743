//! Why reading ends early.

ghost use Rattle.std.specs.Prelude.{◌≡◌};
ghost use Rattle.c_directives.specs.declared.stop.Stop.TheVariants.{Memory};

use c_lines::Rule;
use jf_base::Place;
use std::alloc::{AllocError, AllocFailed};

/// The rule that is broken, and where.
#[derive(Clone, Copy, Debug, PartialEq, Eq)]
pub struct Broken {
    pub place: Place,
    pub rule: Rule,
}

/// Why there are no tokens: memory was wanting, a file of this name wasn't given, or a rule is broken.
#[derive(Debug, Drop)]
pub enum Stop {
    Memory,
    Library(String),
    At(Broken),
}

impl From<AllocError> for Stop {
    ghost from_gives = { λ _ e. e ≡ Memory };

    fn from(_e: AllocError) -> Stop {
        Stop::Memory
    }
}

impl<T: Drop> From<AllocFailed<T>> for Stop {
    ghost from_gives = { λ _ e. e ≡ Memory };

    fn from(_e: AllocFailed<T>) -> Stop {
        Stop::Memory
    }
}

/// A rule is broken there.
pub fn breaks(rule: Rule, place: Place) -> Stop
    ensures { result ≡ Stop.At (record { place = place; rule = rule }) }
{
    Stop::At(Broken { place, rule })
}
