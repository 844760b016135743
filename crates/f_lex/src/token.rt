//! Tokens.

use jf_base::{List, Place};

/// An operator or a punctuation mark, one for each spelling.
#[derive(Clone, Copy, PartialEq, Eq, Debug)]
pub enum Mark {
    /// `(`
    Open,
    /// `)`
    Close,
    /// `[`
    OpenBracket,
    /// `]`
    CloseBracket,
    /// `,`
    Comma,
    /// `%`
    Percent,
    /// `:`
    Colon,
    /// `::`
    DoubleColon,
    /// `..`
    DotDot,
    /// `=`
    Assign,
    /// `=>`
    Arrow,
    /// `+`
    Plus,
    /// `-`
    Minus,
    /// `*`
    Star,
    /// `**`
    Power,
    /// `/`
    Slash,
    /// `//`
    Concat,
    /// `==`
    Equal,
    /// `/=`
    NotEqual,
    /// `<`
    Less,
    /// `<=`
    LessEqual,
    /// `>`
    Greater,
    /// `>=`
    GreaterEqual,
    /// `.eq.`
    DotEq,
    /// `.ne.`
    DotNe,
    /// `.lt.`
    DotLt,
    /// `.le.`
    DotLe,
    /// `.gt.`
    DotGt,
    /// `.ge.`
    DotGe,
    /// `.not.`
    Not,
    /// `.and.`
    And,
    /// `.or.`
    Or,
    /// `.eqv.`
    Eqv,
    /// `.neqv.`
    Neqv,
}

/// The kind parameter of a literal constant: digits, or the name of a constant with its letters lowered (ISO/IEC 1539-1:2018, 7.4.3.1).
#[derive(Clone, PartialEq, Eq, Drop, Debug)]
pub enum Kind {
    Number(List<u8>),
    Name(List<u8>),
}

/// A lexical token of the profile, with its bytes; letters are lowered outside texts (ISO/IEC 1539-1:2018, 6.2).
#[derive(Clone, PartialEq, Eq, Drop, Debug)]
pub enum Token {
    /// A name, of at most 63 characters, or a keyword: keywords aren't reserved.
    Name(List<u8>),
    /// An integer literal constant: its digits, which are below 2 to the power of 63.
    Number {
        digits: List<u8>,
        kind: Option<Kind>,
    },
    /// `.true.` or `.false.`
    Truth {
        value: bool,
        kind: Option<Kind>,
    },
    /// A character literal constant: its characters, where a doubled delimiter is one.
    Text {
        bytes: List<u8>,
        kind: Option<Kind>,
    },
    /// An operator or a punctuation mark.
    Mark(Mark),
    /// The end of a statement that has tokens: a line end, the end of the file or `;`.
    End,
}

/// A token, the offsets in its file of its first byte and of the byte behind its last, and its place.
#[derive(Clone, PartialEq, Eq, Drop, Debug)]
pub struct Spanned {
    pub token: Token,
    pub start: u32,
    pub end: u32,
    pub place: Place,
}
