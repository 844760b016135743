//! What a text consists of.

use crate::character::Point;
use jf_base::List;

/// What a piece of a text is, if it isn't white space.
#[derive(Clone, Copy, Debug, PartialEq, Eq)]
pub enum Kind {
    /// An identifier or keyword (ISO/IEC 9899:2011, 6.4.2).
    Name,
    /// A preprocessing number (6.4.8).
    Number,
    /// A character constant that ends, with its prefix (6.4.4.4).
    Character,
    /// A string literal that ends, with its prefix (6.4.5).
    Text,
    /// A punctuator (6.4.6).
    Mark,
    /// A basic source character that begins none of these: the backslash (6.4).
    Other,
    /// The end of a line.
    LineEnd,
    /// A byte outside the basic source character set (5.2.1), which breaks `P01`.
    ForeignByte,
    /// A comment, string literal or character constant without its end, which breaks `P02`.
    OpenText,
}

/// A piece of a text that isn't white space: what it is, its characters, where it begins, and whether white space stands before it on its line.
#[derive(Drop, Debug)]
pub struct Lexeme {
    pub kind: Kind,
    pub spelling: List<u8>,
    pub point: Point,
    pub after_blank: bool,
}
