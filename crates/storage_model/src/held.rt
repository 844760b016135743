use crate::cell::{Cell, Kind, Place};

/// An object. One with cells has a cell for each byte.
#[derive(Drop)]
pub struct HeldObject {
    pub size: u64,
    pub alive: bool,
    pub kind: Kind,
    pub cells: Vec<Cell>,
}

/// A byte of a loan: its place, whether it was written through the loan, and whether it was read beside it.
#[derive(Clone, Copy)]
pub struct LoanByte {
    pub place: Place,
    pub written: bool,
    pub read: bool,
}

/// A loan.
#[derive(Drop)]
pub struct HeldLoan {
    pub bytes: Vec<LoanByte>,
    pub is_open: bool,
    pub writable: bool,
}

/// A byte of a loan that is over a home byte.
#[derive(Clone, Copy)]
pub struct Cover {
    pub loan: u32,
    pub byte: u64,
}
