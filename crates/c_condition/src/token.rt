//! The tokens of controlling expressions.

use crate::number::Number;
use c_token::Mark;

/// A token of a controlling expression, behind `defined` and macro replacement (ISO/IEC 9899:2011, 6.10.1).
#[derive(Clone, Copy, PartialEq, Eq, Debug)]
pub enum Token {
    /// An integer constant, a character constant, or what `defined` gives.
    Number(Number),
    /// A name, keywords among them, which counts as 0.
    Name,
    /// A punctuator.
    Mark(Mark),
    /// What no expression has in it, as a string literal.
    Other,
}
