//! Why nothing could be read.

ghost use Rattle.std.specs.Prelude.{◌≡◌};
ghost use Rattle.f_expr_read.specs.declared.error.ReadError.TheVariants.{Memory};

use std::alloc::{AllocError, AllocFailed};

/// Why nothing could be read.
#[derive(Clone, Copy, PartialEq, Eq, Debug)]
pub enum ReadError {
    /// Memory was wanting.
    Memory,
    /// No such tree stands first.
    Form,
}

impl From<AllocError> for ReadError {
    ghost from_gives = { λ _ e. e ≡ Memory };

    fn from(_error: AllocError) -> ReadError {
        ReadError::Memory
    }
}

impl<T: Drop> From<AllocFailed<T>> for ReadError {
    ghost from_gives = { λ _ e. e ≡ Memory };

    fn from(_error: AllocFailed<T>) -> ReadError {
        ReadError::Memory
    }
}
