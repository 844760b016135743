use jf_base::Tag;

/// A view of bytes: the home of an object, or a loan, by its number.
#[derive(Clone, Copy, PartialEq, Eq, Debug)]
pub enum View {
    Home(u32),
    Loan(u32),
}

/// A pointer (ISO/IEC 9899:2011 6.2.5): null, a view with an offset from 0 to its size, or a procedure with its prototype.
#[derive(Clone, Copy, PartialEq, Eq, Debug)]
pub enum Pointer {
    Null,
    At { view: View, offset: i64 },
    Proc { number: u32, proto: u32 },
}

/// What one byte of an object has: nothing defined, a byte, or part `k` of a pointer, `k` from 0 to 7.
#[derive(Clone, Copy, PartialEq, Eq, Debug)]
pub enum Cell {
    Undefined,
    Byte(u8),
    Part(Pointer, u8),
}

/// What kind of object it is. A descriptor object of a capacity holds an array value, kept by the storage's user, in place of cells.
#[derive(Clone, Copy, PartialEq, Eq, Debug)]
pub enum Kind {
    Plain,
    ReadOnly,
    Descriptor(u8),
}

/// A place: an offset in a view.
#[derive(Clone, Copy, PartialEq, Eq, Debug)]
pub struct Spot {
    pub view: View,
    pub offset: i64,
}

/// A byte of a view: a place that is in the view's range.
#[derive(Clone, Copy, PartialEq, Eq, Debug)]
pub struct Place {
    pub view: View,
    pub offset: u64,
}

/// What a call did: its result, the violation that stood against it, or nothing for want of memory.
#[derive(Debug, Drop)]
pub enum Did<T> {
    Done(T),
    Violation(Tag),
    Memory,
}
