//! What a character can begin.

ghost use Rattle.std.specs.Prelude.{◌≡◌};
ghost use Rattle.c_text.specs.Classes.{class_of};

/// The sort of a character of the basic source character set (ISO/IEC 9899:2011, 5.2.1), or of another byte.
#[derive(Clone, Copy, Debug, PartialEq, Eq)]
pub enum Class {
    /// A letter or the underscore.
    Letter,
    Digit,
    Blank,
    LineEnd,
    Quote,
    Slash,
    Dot,
    /// Another character that a punctuator begins with.
    Mark,
    Backslash,
    Foreign,
}

#[tactic(auto, unfolding(crate::specs::Classes::class_of))]
pub fn class_of(byte: u8) -> Class
    ensures { result ≡ class_of byte }
{
    match byte {
        b'A'..=b'Z' | b'a'..=b'z' | b'_' => Class::Letter,
        b'0'..=b'9' => Class::Digit,
        b' ' | b'\t' | 11..=12 => Class::Blank,
        b'\n' => Class::LineEnd,
        b'"' | b'\'' => Class::Quote,
        b'/' => Class::Slash,
        b'.' => Class::Dot,
        b'!' | b'#' | b'%'..=b'&' | b'('..=b'-' | b':'..=b'?' | b'[' | b']'..=b'^' | b'{'..=b'~' =>
            { Class::Mark }
        b'\\' => Class::Backslash,
        _ => Class::Foreign,
    }
}
