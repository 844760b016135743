use jf_base::{List, Tag};

/// A scalar value of an intrinsic type: an INTEGER or a LOGICAL with its kind in bytes, or the bytes of a CHARACTER.
#[derive(Debug, Drop)]
pub enum FValue {
    Int { value: i128, kind: u8 },
    Logical { value: bool, kind: u8 },
    Text(List<u8>),
}

/// An operator. `Add` and `Subtract` are the signs too.
#[derive(Clone, Copy, PartialEq, Eq, Debug)]
pub enum FOp {
    Power,
    Multiply,
    Divide,
    Add,
    Subtract,
    Concat,
    Equal,
    Unequal,
    Less,
    LessEqual,
    Greater,
    GreaterEqual,
    Not,
    And,
    Or,
    Eqv,
    Neqv,
}

/// An elemental intrinsic function.
#[derive(Clone, Copy, PartialEq, Eq, Debug)]
pub enum FIntrinsic {
    Abs,
    Mod,
    Modulo,
    Max,
    Min,
    Int,
    LenTrim,
    Ichar,
    Char,
    Iachar,
    Achar,
    Iand,
    Ior,
    Ieor,
    Not,
    Ishft,
    Merge,
}

/// What an operation came to: its value, the violation that it meets, or want of memory.
#[derive(Debug, Drop)]
pub enum Did<T> {
    Done(T),
    Violation(Tag),
    Memory,
}
