use jf_base::{Boxed, List, Width};

/// A type of C. A struct is named by its number in the table of its file, an enum by its number in its file.
#[cycle(ctype)]
#[derive(Debug, Drop)]
pub enum CType {
    Void,
    Bool,
    /// `rank` counts from 1 to 5 along `signed char`, `short`, `int`, `long` and `long long`, whatever the sign.
    Int {
        width: Width,
        signed: bool,
        rank: u8,
    },
    Char,
    Enum(u32),
    Struct(u32),
    Pointer(Boxed<CType>),
    Array(Boxed<CType>, u64),
    Function(Boxed<Proto>),
    /// `CFI_cdesc_t`, a descriptor of rank 0.
    Descriptor,
    /// `CFI_CDESC_T(r)`, a descriptor of rank at most r.
    Cdesc(u8),
    Const(Boxed<CType>),
}

/// The result and the parameters of a function.
#[cycle(ctype)]
#[derive(Debug, Drop)]
pub struct Proto {
    pub result: CType,
    pub params: List<CType>,
}

/// A member of a struct, with its distance in bytes from the struct's start.
#[derive(Debug, Drop)]
pub struct Member {
    pub name: u32,
    pub kind: CType,
    pub offset: u64,
}

/// How the members of a struct lie.
#[derive(Debug, Drop)]
pub struct Layout {
    pub members: List<Member>,
    pub size: u64,
    pub align: u64,
}

/// A struct of a file: its members aren't known yet, or they are laid out.
#[derive(Debug, Drop)]
pub enum StructBody {
    Incomplete,
    Complete(Layout),
}
