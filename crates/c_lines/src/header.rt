//! Names of headers.

ghost use Rattle.std.specs.Prelude.{◌≡◌, IfOk, OnOk, ◌++◌};
ghost use Rattle.c_lines.specs.Headers.{seen, blank_before, spelled, spelled_behind, before_end, not_empty, header_of};

use c_text::Lexeme;
use std::alloc::{AllocError, Global};

/// What stands round the name of a header.
#[derive(Clone, Copy, Debug, PartialEq, Eq)]
pub enum Delimiter {
    /// `<` and `>`.
    Angle,
    /// `"` and `"`.
    Quote,
}

// Puts a lexeme behind others, with a blank where white space stands before it.
fn put_behind(out: &mut Vec<u8>, lexeme: &Lexeme) -> Result<(), AllocError>
    ensures { OnOk result (out.new.items ≡ out.old.items ++ (blank_before lexeme.now ++ lexeme.now.spelling)) }
{
    if lexeme.after_blank {
        out.push(b' ')?;
    }
    out.extend_from_slice(lexeme.spelling.as_slice())?;
    Ok(())
}

// Puts all lexemes behind others, each with a blank where white space stands before it.
fn put_all_behind(out: &mut Vec<u8>, lexemes: &[Lexeme]) -> Result<(), AllocError>
    ensures { OnOk result (out.new.items ≡ out.old.items ++ spelled_behind lexemes.now) }
{
    let mut rest = lexemes;
    'lexemes: while let Some((lexeme, tail)) = rest.split_first() {
        put_behind(out, lexeme)?;
        rest = tail;
    }
    Ok(())
}

/// How the lexemes of a line are spelled, with a blank where white space stands before one that isn't the first.
#[tactic(auto, unfolding(crate::specs::Headers::spelled))]
pub fn spelled(alloc: Global, row: &[Lexeme]) -> Result<Vec<u8>, AllocError>
    ensures { IfOk result (λ v. v.items ≡ spelled row.now) }
{
    let mut out = Vec::new(alloc);
    match row.split_first() {
        None => Ok(out),
        Some((first, behind)) => {
            out.extend_from_slice(first.spelling.as_slice())?;
            put_all_behind(&mut out, behind)?;
            Ok(out)
        }
    }
}

// What stands before the byte, where it stands last and nowhere else.
fn before_end(close: u8, text: &[u8]) -> Option<&[u8]>
    ensures { before_end close text.now ≡ seen (λ x. x.now) result }
{
    match text.split_last() {
        None => None,
        Some((last, name)) => {
            if name.contains(&close) {
                None
            } else if *last == close {
                Some(name)
            } else {
                None
            }
        }
    }
}

fn not_empty(delimiter: Delimiter, name: Option<&[u8]>) -> Option<(Delimiter, &[u8])>
    ensures { seen (λ x. (x.0, x.1.now)) result ≡ not_empty delimiter (seen (λ x. x.now) name.entry) }
{
    match name {
        None => None,
        Some(name) => {
            if name.is_empty() {
                None
            } else {
                Some((delimiter, name))
            }
        }
    }
}

/// The name of a header, where the text is one: `<name>` or `"name"` (ISO/IEC 9899:2011, 6.4.7). The name isn't empty and holds no closing delimiter.
#[tactic(auto, unfolding(crate::specs::Headers::header_of))]
pub fn header_of(text: &[u8]) -> Option<(Delimiter, &[u8])>
    ensures { header_of text.now ≡ seen (λ x. (x.0, x.1.now)) result }
{
    match text.split_first() {
        None => None,
        Some((first, rest)) => {
            if *first == b'<' {
                not_empty(Delimiter::Angle, before_end(b'>', rest))
            } else if *first == b'"' {
                not_empty(Delimiter::Quote, before_end(b'"', rest))
            } else {
                None
            }
        }
    }
}
