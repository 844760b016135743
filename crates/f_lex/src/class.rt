//! What a byte can begin.

ghost use Rattle.std.specs.Prelude.{◌≡◌};
ghost use Rattle.f_lex.specs.Characters.{class_of, class_at, goes_on, is_next, quote_is_second};

/// The sort of the character that stands first, or that none is left.
#[derive(Clone, Copy, Debug, PartialEq, Eq)]
pub enum Class {
    Letter,
    Digit,
    Underscore,
    Blank,
    LineEnd,
    Exclamation,
    Ampersand,
    Quote,
    Semicolon,
    Dot,
    /// A character that is a mark or begins one.
    Mark,
    /// A character of Fortran's set that begins no token.
    Unused,
    /// A byte outside Fortran's set.
    Foreign,
    /// There is no byte.
    Nothing,
}

/// Characters that go on with what a character began.
#[derive(Clone, Copy, Debug, PartialEq, Eq)]
pub enum Run {
    Letters,
    Digits,
    /// A name.
    Name,
    /// A name or keyword, where an underscore before a quote belongs to the text behind it.
    Word,
    Blanks,
    Comment,
}

#[tactic(auto, unfolding(crate::specs::Characters::class_of))]
pub fn class_of(byte: u8) -> Class
    ensures { result ≡ class_of byte }
{
    match byte {
        b'A'..=b'Z' | b'a'..=b'z' => Class::Letter,
        b'0'..=b'9' => Class::Digit,
        b'_' => Class::Underscore,
        b' ' | b'\t' => Class::Blank,
        b'\n' => Class::LineEnd,
        b'!' => Class::Exclamation,
        b'&' => Class::Ampersand,
        b'\'' | b'"' => Class::Quote,
        b';' => Class::Semicolon,
        b'.' => Class::Dot,
        b'%' | b'('..=b'/' | b':' | b'<'..=b'>' | b'[' | b']' => Class::Mark,
        b'#' | b'$' | b'?' | b'@' | b'\\' | b'^' | b'`' | b'{'..=b'~' => Class::Unused,
        _ => Class::Foreign,
    }
}

/// The sort of the character that stands first; a carriage return before a line feed counts as a blank.
#[tactic(auto, unfolding(crate::specs::Characters::class_at))]
pub fn class_at(bytes: &[u8]) -> Class
    ensures { result ≡ class_at bytes.now }
{
    match bytes.split_first() {
        None => Class::Nothing,
        Some((byte, rest)) => {
            if *byte == b'\r' && is_next(b'\n', rest) {
                Class::Blank
            } else {
                class_of(*byte)
            }
        }
    }
}

/// The byte stands first.
#[tactic(auto, unfolding(crate::specs::Characters::is_next))]
pub fn is_next(byte: u8, bytes: &[u8]) -> bool
    ensures { result ≡ is_next byte bytes.now }
{
    match bytes.split_first() {
        None => false,
        Some((first, _)) => *first == byte,
    }
}

/// The run goes on with the character that stands first.
#[tactic(auto, unfolding(crate::specs::Characters::goes_on))]
pub fn goes_on(run: Run, bytes: &[u8]) -> bool
    ensures { result ≡ goes_on run bytes.now }
{
    match (run, class_at(bytes)) {
        (Run::Letters, Class::Letter) => true,
        (Run::Digits, Class::Digit) => true,
        (Run::Name, Class::Letter | Class::Digit | Class::Underscore) => true,
        (Run::Word, Class::Letter | Class::Digit) => true,
        (Run::Word, Class::Underscore) => !quote_is_second(bytes),
        (Run::Blanks, Class::Blank) => true,
        (Run::Comment, class) => class != Class::LineEnd && class != Class::Nothing,
        _ => false,
    }
}

/// A quote stands behind the first byte.
#[tactic(auto, unfolding(crate::specs::Characters::quote_is_second))]
pub fn quote_is_second(bytes: &[u8]) -> bool
    ensures { result ≡ quote_is_second bytes.now }
{
    match bytes.split_first() {
        None => false,
        Some((_, rest)) => class_at(rest) == Class::Quote,
    }
}
