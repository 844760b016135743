//! Words: tokens with their keywords told apart from names.

use c_tree::{ConstantType, SpecifierWord};

/// Which declarators may stand somewhere: with a name, without, or both.
#[derive(Clone, Copy, PartialEq, Eq)]
pub enum Allowed {
    Named,
    Abstract,
    Either,
}

/// A token as the grammar sees it. A name or a string literal is told by its number in a table.
#[derive(Clone, Copy, PartialEq, Eq)]
pub enum Token {
    Name(u32),
    /// An integer constant: its value and its type.
    Number(u64, ConstantType),
    /// A character constant: its value.
    Byte(u8),
    /// A string literal.
    Text(u32),
    /// A specifier of one word.
    Word(SpecifierWord),
    Restrict,
    Struct,
    Enum,
    /// `CFI_CDESC_T`
    DescriptorOfRank,
    Sizeof,
    If,
    Else,
    Switch,
    Case,
    Default,
    While,
    Do,
    For,
    Break,
    Continue,
    Return,
    /// A keyword that the profile has no use for.
    Unused,
    /// `(`
    Open,
    /// `)`
    Close,
    /// `[`
    SquareOpen,
    /// `]`
    SquareClose,
    /// `{`
    BraceOpen,
    /// `}`
    BraceClose,
    Comma,
    Semi,
    Colon,
    Question,
    Dot,
    Arrow,
    Increment,
    Decrement,
    Tilde,
    Exclamation,
    Star,
    Plus,
    Minus,
    Ampersand,
    Slash,
    Percent,
    ShiftLeft,
    ShiftRight,
    Less,
    Greater,
    LessEqual,
    GreaterEqual,
    /// `==`
    Equal,
    NotEqual,
    Caret,
    Bar,
    AndAnd,
    OrOr,
    /// `=`
    Equals,
    StarEquals,
    SlashEquals,
    PercentEquals,
    PlusEquals,
    MinusEquals,
    ShiftLeftEquals,
    ShiftRightEquals,
    AmpersandEquals,
    CaretEquals,
    BarEquals,
}
