//! Why tokens could not be read.

ghost use Rattle.std.specs.Prelude.{◌≡◌};
ghost use Rattle.c_grammar.specs.declared.fault.ReadError.TheVariants.{Memory};

use std::alloc::{AllocError, AllocFailed};

/// Which rule is broken.
#[derive(Clone, Copy, PartialEq, Eq)]
pub enum Kind {
    Form,
    Deep,
}

/// What is wrong: the first fault from left to right, and how many tokens are left there.
#[derive(Clone, Copy, PartialEq, Eq)]
pub struct Fault {
    pub kind: Kind,
    pub left: usize,
}

#[derive(Drop)]
pub enum ReadError {
    Memory,
    Fault(Fault),
}

impl From<AllocError> for ReadError {
    ghost from_gives = { λ _ e. e ≡ Memory };

    fn from(_e: AllocError) -> ReadError {
        ReadError::Memory
    }
}

impl<T: Drop> From<AllocFailed<T>> for ReadError {
    ghost from_gives = { λ _ e. e ≡ Memory };

    fn from(_e: AllocFailed<T>) -> ReadError {
        ReadError::Memory
    }
}
