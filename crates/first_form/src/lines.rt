//! Lines of a text.

ghost use Rattle.std.specs.Prelude.{◌≡◌, ◌≢◌, ℕ, ◌+◌, ◌<◌, List, [], ◌∷◌, ◌++◌, All, MatchOption, IsTrue, ◌↔◌, reverse, length};
ghost use Rattle.std.specs.Str.Lines.{strip_carriage_return};
ghost use Rattle.first_form.specs.Lines.{is_blank, without_leading_blanks, trimmed, text_lines};

use crate::ends::cut;

fn is_blank(byte: u8) -> bool
    ensures { result ≡ is_blank byte }
{
    byte == b' ' || byte == b'\t'
}

fn without_leading_blanks(mut line: &[u8]) -> &[u8]
    ensures { result.now ≡ without_leading_blanks line.entry.now }
{
    while let Some((first, rest)) = line.split_first() {
        if !is_blank(*first) {
            break;
        }
        line = rest;
    }
    line
}

fn without_trailing_blanks(mut line: &[u8]) -> &[u8]
    ensures { result.now ≡ reverse (without_leading_blanks (reverse line.entry.now)) }
{
    while let Some((last, front)) = line.split_last() {
        if !is_blank(*last) {
            break;
        }
        line = front;
    }
    line
}

fn trimmed(line: &[u8]) -> &[u8]
    ensures { result.now ≡ trimmed line.now }
{
    without_trailing_blanks(without_leading_blanks(line))
}

// What stands before a line feed, without the carriage return at its end.
fn without_carriage_return(line: &[u8]) -> &[u8]
    ensures { result.now ≡ strip_carriage_return line.now }
{
    match line.split_last() {
        Some((last, front)) if *last == b'\r' => front,
        _ => line,
    }
}

// The first line of a text, and the text behind it.
pub(crate) fn first_line(text: &[u8]) -> Option<(&[u8], &[u8])>
    ensures lines { MatchOption result (text_lines text.now ≡ []) (λ x. text_lines text.now ≡ x.0.now ∷ text_lines x.1.now) }
    ensures shorter { MatchOption result (length text.now ≡ 0) (λ x. length x.1.now < length text.now) }
{
    if text.is_empty() {
        return None;
    }
    match cut(text, b'\n') {
        None => Some((trimmed(text), &[])),
        Some((line, rest)) => { Some((trimmed(without_carriage_return(line)), rest)) }
    }
}

// The text behind its first line, where that is this line.
pub(crate) fn after_line<'a>(text: &'a [u8], line: &[u8]) -> Option<&'a [u8]>
    ensures { MatchOption result ((rest : List (List ℕ)) → text_lines text.now ≢ line.now ∷ rest) (λ x. text_lines text.now ≡ line.now ∷ text_lines x.now) }
{
    match first_line(text) {
        Some((first, rest)) if first == line => Some(rest),
        _ => None,
    }
}

// Whether the text has this line alone.
pub(crate) fn is_only_line(text: &[u8], line: &[u8]) -> bool
    ensures { IsTrue result ↔ (text_lines text.now ≡ line.now ∷ []) }
{
    match after_line(text, line) {
        Some(rest) => first_line(rest).is_none(),
        None => false,
    }
}
