//! Types, scopes and the numbers of what is declared in them.

use jf_base::Width;

/// How long a CHARACTER is (ISO/IEC 1539-1:2018, 7.4.4.2).
#[derive(Clone, Copy, PartialEq, Eq, Debug)]
pub enum Length {
    /// It is constant.
    Known(u64),
    /// A dummy argument's is assumed, and an expression's is that of its value.
    Unknown,
}

/// A type (ISO/IEC 1539-1:2018, 7.3), with its kind or its length. The kind of an INTEGER or a LOGICAL is its width in bytes.
#[derive(Clone, Copy, PartialEq, Eq, Debug)]
pub enum DataType {
    Integer(Width),
    Logical(Width),
    Character(Length),
    /// TYPE(C_PTR) of ISO_C_BINDING (18.2).
    CPtr,
    /// TYPE(C_FUNPTR) of ISO_C_BINDING (18.2).
    CFunPtr,
    /// A derived type, by its number in the program.
    Derived(u32),
    /// TYPE(*), which a dummy argument alone has (7.3.2.2).
    Assumed,
    /// What a procedure pointer has in place of a type: the number of the procedure that is its interface (15.4.3.6).
    Procedure(u32),
}

/// What has declarations of its own, by its number among those of its sort: a module, a main program, or a procedure, whether its code
/// is there or only its interface.
#[derive(Clone, Copy, PartialEq, Eq, Debug)]
pub enum Scope {
    Module(u32),
    Program(u32),
    Procedure(u32),
}

/// A declaration, by its scope and its number there.
#[derive(Clone, Copy, PartialEq, Eq, Debug)]
pub struct Declared {
    pub scope: Scope,
    pub number: u32,
}

/// What the name of a data object denotes (ISO/IEC 1539-1:2018, 3.41).
#[derive(Clone, Copy, PartialEq, Eq, Debug)]
pub enum Named {
    Variable(Declared),
    /// A named constant (8.5.13).
    Constant(Declared),
    /// The assumed-rank variable that a SELECT RANK construct selects by, in a block for this rank (11.1.10.3).
    OfRank(Declared, u8),
    /// The same in a block for assumed-size arrays, in which its rank is 1.
    OfAssumedSize(Declared),
}
