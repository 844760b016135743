ghost use Rattle.storage_model.specs.Held.{IsHeld};
ghost use Rattle.std.proofs.Props.{props};

use crate::held::{Cover, HeldLoan, HeldObject};
use std::alloc::Global;

/// Objects and loans, by their numbers.
///
/// Beside them each home byte that a loan covers has the list of the loans' bytes that are over it. So an access looks, for each byte, only at the
/// loans over that byte: one of n bytes of an object that no open loan covers takes n steps, however many objects and loans there are, and one
/// through a loan goes down the byte's chain besides.
#[derive(Drop)]
pub struct Storage {
    pub(crate) alloc: Global,
    pub(crate) objects: Vec<HeldObject>,
    pub(crate) loans: Vec<HeldLoan>,
    pub(crate) covers: Vec<Vec<Vec<Cover>>>,
    ghost held: { IsHeld objects.items loans.items covers.items } by { Prim.hlevel props },
}
