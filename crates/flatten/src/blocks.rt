use flat_ir::{Exceeded, Fix, Operation};
use jf_base::{List, Width};

/// A simple instruction. Its numbers name values of the procedure, which hold 64 bits each and may be set again; the first is the value that is set.
#[derive(Debug, Drop)]
pub enum BlockInsn {
    /// A value gets this number.
    Number(u32, u64),
    /// A value gets what another holds.
    Copy(u32, u32),
    /// A value gets what an operation gives of two others.
    Binary(Operation, u32, u32, u32),
    /// A value gets the bytes of this width at an address, extended with their sign where it is `true`, else with zeros.
    Load(u32, Width, bool, u32),
    /// To the address that the first holds go the low bytes of what the second holds.
    Store(Width, u32, u32),
    /// A value gets the address of a procedure.
    ProcAddress(u32, u32),
    /// A value gets the address of this byte of the image.
    ImageAddress(u32, u64),
    /// These values get the results of a procedure that is called with these arguments.
    Call(List<u32>, u32, List<u32>),
    /// The same of the procedure at an address.
    CallAt(List<u32>, u32, List<u32>),
    /// A value gets the next byte of the input, or all ones where none is left.
    Take(u32),
    /// The low byte of a value is given as output.
    Give(u32),
}

/// How a block ends.
#[derive(Debug, Drop)]
pub enum BlockEnd {
    /// On to this block.
    Jump(u32),
    /// Where the value isn't 0 on to the first block, else to the second.
    Branch(u32, u32, u32),
    /// Ends the procedure with these results.
    Return(List<u32>),
    /// Ends the run with the low 32 bits of a value as its stop code.
    Stop(u32),
    /// Ends the run at a limit.
    Limit(Exceeded),
}

/// Instructions that run from the first to the last, and an end.
#[derive(Debug, Drop)]
pub struct Block {
    pub insns: List<BlockInsn>,
    pub end: BlockEnd,
}

/// A procedure, which begins with its first block. Its first `params` values hold the arguments, and its frame takes `frame` bytes of the limit on frames.
#[derive(Debug, Drop)]
pub struct BlockProc {
    pub params: u32,
    pub blocks: List<Block>,
    pub values: u32,
    pub frame: u64,
}

/// A program, which begins with its procedure `entry`.
#[derive(Debug, Drop)]
pub struct BlockProgram {
    pub procs: List<BlockProc>,
    pub image: List<u8>,
    pub fixes: List<Fix>,
    pub entry: u32,
}
