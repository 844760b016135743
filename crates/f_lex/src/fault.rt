//! Which rule of source form is broken.

/// A rule of source form, in the order of their tags.
#[derive(Clone, Copy, Debug, PartialEq, Eq)]
pub enum Rule {
    /// `L01`: a line has at most 10,000 characters.
    LongLine,
    /// `L02`: a name has at most 63 characters.
    LongName,
    /// `L03`: outside texts and comments a byte belongs to the set of characters.
    ForeignByte,
    /// `L04`: a text ends on its line or is continued.
    OpenText,
    /// `L05`: a continuation has its next line, with `&` first inside a text.
    LostLine,
    /// `L06`: a token has one of the forms, a number below 2 to the power of 63.
    NoToken,
    /// `L07`: a file has at most 1,048,576 bytes, and the total at most 262,144 tokens.
    TooMany,
    /// `L08`: a statement has at most 1,000,000 characters.
    LongStatement,
}
