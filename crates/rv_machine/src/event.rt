/// Why an instruction wasn't done.
#[derive(Clone, Copy, PartialEq, Eq, Debug)]
pub enum TrapKind {
    /// The word at the place is no instruction.
    Word,
    /// An access lies outside the memory, a store in the code, or a fetch outside the code.
    Range,
    /// An address isn't a multiple of the access's size, or a place isn't a multiple of 4.
    Align,
    /// ECALL asks for what there isn't.
    Call,
    /// EBREAK.
    Break,
}

/// What a step did.
#[derive(Clone, Copy, PartialEq, Eq, Debug)]
pub enum Event {
    /// An instruction was done.
    Ran,
    /// ECALL 63 asks for a byte: the next step is given it, and completes the ECALL.
    WantByte,
    /// ECALL 64 gave this byte.
    GiveByte(u8),
    /// ECALL 93 ended the run with this stop code.
    Exit(i32),
    /// ECALL 94 ended the run at a limit: 0 is that of frames, 1 that of objects.
    Limited(u8),
    /// The instruction can't be done, which ends the run.
    Trap(TrapKind),
}

/// Whether a machine goes on, waits for a byte, or has ended.
#[derive(Clone, Copy, PartialEq, Eq, Debug)]
pub enum Mode {
    Ready,
    Waiting,
    Ended(Event),
}
