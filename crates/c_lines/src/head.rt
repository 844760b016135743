//! Directives.

ghost use Rattle.std.specs.Prelude.{◌≡◌};
ghost use Rattle.c_lines.specs.Heads.{is_name, is_mark, is_hash, is_paste, directive_of, other_word, behind_hash, head_at};

use c_text::{Kind, Lexeme};

/// Which directive a line is (ISO/IEC 9899:2011, 6.10).
#[derive(Clone, Copy, Debug, PartialEq, Eq)]
pub enum Head {
    /// None: the line is text.
    Text,
    /// `#` alone (6.10.7).
    Null,
    Include,
    Define,
    Undef,
    If,
    Ifdef,
    Ifndef,
    Elif,
    Else,
    Endif,
    Error,
    Pragma,
    /// `#` and something else.
    Unknown,
}

fn is_name(kind: Kind) -> bool
    ensures { result ≡ is_name kind }
{
    matches!(kind, Kind::Name)
}

fn is_mark(kind: Kind) -> bool
    ensures { result ≡ is_mark kind }
{
    matches!(kind, Kind::Mark)
}

/// The lexeme is `#` or its digraph.
#[tactic(auto, unfolding(crate::specs::Heads::is_hash))]
pub fn is_hash(lexeme: &Lexeme) -> bool
    ensures { result ≡ is_hash lexeme.now }
{
    let spelling = lexeme.spelling.as_slice();
    is_mark(lexeme.kind) && (spelling == b"#".as_slice() || spelling == b"%:".as_slice())
}

/// The lexeme is `##` or its digraph.
#[tactic(auto, unfolding(crate::specs::Heads::is_paste))]
pub fn is_paste(lexeme: &Lexeme) -> bool
    ensures { result ≡ is_paste lexeme.now }
{
    let spelling = lexeme.spelling.as_slice();
    is_mark(lexeme.kind) && (spelling == b"##".as_slice() || spelling == b"%:%:".as_slice())
}

fn other_word(word: &[u8]) -> Head
    ensures { result ≡ other_word word.now }
{
    if word == b"else".as_slice() {
        Head::Else
    } else if word == b"endif".as_slice() {
        Head::Endif
    } else if word == b"error".as_slice() {
        Head::Error
    } else if word == b"pragma".as_slice() {
        Head::Pragma
    } else {
        Head::Unknown
    }
}

#[tactic(auto, unfolding(crate::specs::Heads::directive_of))]
fn directive_of(word: &[u8]) -> Head
    ensures { result ≡ directive_of word.now }
{
    if word == b"include".as_slice() {
        Head::Include
    } else if word == b"define".as_slice() {
        Head::Define
    } else if word == b"undef".as_slice() {
        Head::Undef
    } else if word == b"if".as_slice() {
        Head::If
    } else if word == b"ifdef".as_slice() {
        Head::Ifdef
    } else if word == b"ifndef".as_slice() {
        Head::Ifndef
    } else if word == b"elif".as_slice() {
        Head::Elif
    } else {
        other_word(word)
    }
}

fn behind_hash(row: &[Lexeme]) -> (Head, &[Lexeme])
    ensures { (result.0, result.1.now) ≡ behind_hash row.now }
{
    match row.split_first() {
        None => (Head::Null, row),
        Some((word, rest)) => {
            if is_name(word.kind) {
                (directive_of(word.spelling.as_slice()), rest)
            } else {
                (Head::Unknown, rest)
            }
        }
    }
}

/// Which directive a line is, and what stands behind its name (ISO/IEC 9899:2011, 6.10p2). A line that doesn't begin with `#` is text, all of it.
#[tactic(auto, unfolding(crate::specs::Heads::head_at))]
pub fn head_at(row: &[Lexeme]) -> (Head, &[Lexeme])
    ensures { (result.0, result.1.now) ≡ head_at row.now }
{
    match row.split_first() {
        None => (Head::Text, row),
        Some((first, rest)) => {
            if is_hash(first) {
                behind_hash(rest)
            } else {
                (Head::Text, row)
            }
        }
    }
}
