//! Tokens and their places.

use crate::mark::Mark;
use jf_base::{List, Place};

/// A token of a C text behind macro replacement and includes, spelled as it stood (ISO/IEC 9899:2011, 6.4).
#[derive(Clone, PartialEq, Eq, Drop, Debug)]
pub enum CToken {
    /// An identifier or a keyword.
    Id(List<u8>),
    /// An integer constant: its digits with the prefix and the suffix.
    Number(List<u8>),
    /// A string literal: what stands between the quotes, with its escape sequences unread. Adjacent literals are tokens of their own.
    Text(List<u8>),
    /// A character constant: what stands between the quotes, with its escape sequence unread.
    Byte(List<u8>),
    /// A punctuator.
    Mark(Mark),
}

/// A token and its place. What a macro or an included text gives has the place of the macro's name or of the `#include`.
#[derive(Clone, PartialEq, Eq, Drop, Debug)]
pub struct CSpanned {
    pub token: CToken,
    pub place: Place,
}
