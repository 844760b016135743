use jf_base::List;

/// Where a value lives: in a register that callees keep, by its number, or in a slot of its procedure's frame.
#[derive(Clone, Copy, PartialEq, Eq, Debug)]
pub enum Home {
    Register(u8),
    Slot(u32),
}

/// A home for each value of a procedure, by the values' numbers.
#[derive(Debug, Drop)]
pub struct Assignment {
    pub homes: List<Home>,
}

/// Whether each use finds its value at home, whatever path leads to it, or the number of the first instruction with a use that may not.
/// Instructions are numbered through from 0 in the order of the blocks, and a block's end counts as one.
#[derive(Clone, Copy, PartialEq, Eq, Debug)]
pub enum Verdict {
    Yes,
    No(u32),
}
