use jf_base::{Boxed, List, Width};

/// What two numbers of 64 bits are computed to: the operations of the machine, by their names in the RISC-V unprivileged specification (2.4, 4.2 and 7).
#[derive(Clone, Copy, PartialEq, Eq, Debug, Drop)]
pub enum Operation {
    Add,
    Sub,
    Sll,
    Slt,
    Sltu,
    Xor,
    Srl,
    Sra,
    Or,
    And,
    Mul,
    Mulh,
    Mulhsu,
    Mulhu,
    Div,
    Divu,
    Rem,
    Remu,
    Addw,
    Subw,
    Sllw,
    Srlw,
    Sraw,
    Mulw,
    Divw,
    Divuw,
    Remw,
    Remuw,
}

/// A limit that code can say is passed.
#[derive(Clone, Copy, PartialEq, Eq, Debug, Drop)]
pub enum Exceeded {
    Frames,
    Objects,
}

/// What is computed: a number of 64 bits. Only a load can trap.
#[derive(Debug, Drop)]
pub enum FlatExpr {
    /// This number.
    Number(u64),
    /// What this value of the procedure holds.
    Value(u32),
    /// An operation on two numbers, the first of which is computed first.
    Binary(Operation, Boxed<FlatExpr>, Boxed<FlatExpr>),
    /// The bytes of this width at an address; with `true` they are extended with their sign, else with zeros.
    Load(Width, bool, Boxed<FlatExpr>),
    /// The address of a procedure.
    Procedure(u32),
    /// The address of this byte of the image, or of the place behind its last.
    Image(u64),
}

/// A statement.
#[derive(Debug, Drop)]
pub enum FlatStmt {
    /// A value gets a number.
    Set(u32, FlatExpr),
    /// A value gets the bytes of this width at an address, extended with their sign where it is `true`, else with zeros.
    Load(u32, Width, bool, FlatExpr),
    /// The low bytes of a number go to an address, which is computed first.
    Store(Width, FlatExpr, FlatExpr),
    /// A call of a procedure with arguments, whose results go into these values.
    Call(List<u32>, u32, List<FlatExpr>),
    /// A call of the procedure at an address, which is computed first.
    CallAt(List<u32>, FlatExpr, List<FlatExpr>),
    /// The first statements where the number isn't 0, else the second.
    If(FlatExpr, List<FlatStmt>, List<FlatStmt>),
    /// The statements again and again.
    Loop(List<FlatStmt>),
    /// Leaves the loop that has this number, counted from 0 at the innermost one.
    Break(u32),
    /// Ends the procedure with these results.
    Return(List<FlatExpr>),
    /// A value gets the next byte of the input, or all ones where none is left.
    Take(u32),
    /// The low byte of a number is given as output.
    Give(FlatExpr),
    /// Ends the run with the low 32 bits of a number as its stop code.
    Stop(FlatExpr),
    /// Ends the run at a limit.
    Limit(Exceeded),
}

/// A procedure. Its first `params` values hold the arguments, and its frame takes `charge` bytes of the limit on frames.
#[derive(Debug, Drop)]
pub struct FlatProc {
    pub params: u32,
    pub values: u32,
    pub charge: u64,
    pub body: List<FlatStmt>,
}

/// What an address names: a procedure, or a byte of the image.
#[derive(Clone, Copy, PartialEq, Eq, Debug, Drop)]
pub enum Target {
    Proc(u32),
    Image(u64),
}

/// The 8 bytes of the image from `at` on hold an address.
#[derive(Clone, Copy, PartialEq, Eq, Debug, Drop)]
pub struct Fix {
    pub at: u64,
    pub target: Target,
}

/// A program, which begins with its procedure `entry`.
#[derive(Debug, Drop)]
pub struct FlatProgram {
    pub procs: List<FlatProc>,
    pub image: List<u8>,
    pub fixes: List<Fix>,
    pub entry: u32,
}
