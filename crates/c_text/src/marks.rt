//! Punctuators.

ghost use Rattle.std.specs.Prelude.{◌≡◌, ◌≤◌, length, map};
ghost use Rattle.c_text.specs.Marks.{begins, length_at, longest, mark_length};

use crate::character::Character;

/// The punctuators of C (ISO/IEC 9899:2011, 6.4.6).
const MARKS: [&[u8]; 54] = [
    b"[", b"]", b"(", b")", b"{", b"}", b".", b"->", b"++", b"--", b"&", b"*", b"+", b"-", b"~",
    b"!", b"/", b"%", b"<<", b">>", b"<", b">", b"<=", b">=", b"==", b"!=", b"^", b"|", b"&&",
    b"||", b"?", b":", b";", b"...", b"=", b"*=", b"/=", b"%=", b"+=", b"-=", b"<<=", b">>=",
    b"&=", b"^=", b"|=", b",", b"#", b"##", b"<:", b":>", b"<%", b"%>", b"%:", b"%:%:",
];

// A text begins with the mark.
fn begins(mark: &[u8], text: &[Character]) -> bool
    ensures { result ≡ begins mark.now text.now }
{
    let mut marks = mark;
    let mut rest = text;
    while let Some((byte, more)) = marks.split_first() {
        match rest.split_first() {
            None => return false,
            Some((first, tail)) => {
                if *byte != first.byte {
                    return false;
                }
                marks = more;
                rest = tail;
            }
        }
    }
    true
}

// How long the mark is, if a text begins with it, or else 0.
fn length_at(mark: &[u8], text: &[Character]) -> usize
    ensures { result ≡ length_at mark.now text.now }
{
    if begins(mark, text) { mark.len() } else { 0 }
}

// How long the longest of these marks is that a text begins with; 0 where there is none.
#[tactic(auto, unfolding(crate::specs::Marks::longest))]
fn longest(marks: &[&[u8]], text: &[Character]) -> usize
    ensures { result ≡ longest (map (λ x. x.now) marks.now) text.now }
{
    let mut found = 0usize;
    for mark in marks {
        found = found.max(length_at(mark, text));
    }
    found
}

/// How long the longest punctuator is that a text begins with; 0 where there is none.
pub fn mark_length(text: &[Character]) -> usize
    ensures value { result ≡ mark_length text.now }
    ensures within { result ≤ length text.now }
{
    longest(&MARKS, text)
}
