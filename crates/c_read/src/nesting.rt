//! Where an external declaration that has no form nests too deep.

ghost use Rattle.std.specs.Prelude.{◌≡◌, ◌-◌, length, drop};
ghost use Rattle.c_read.specs.Nesting.{opens, closes, ends, fewer, too_deep_at, nested_by, told_of};

use c_external_read::BrokenExternal;
use c_grammar::{Fault, Kind, Token};

/// How many parentheses, brackets and braces may be open in an external declaration.
const DEEPEST: u32 = 64;

// Whether a token opens parentheses, brackets or braces.
fn opens(token: &Token) -> bool
    ensures { result ≡ opens token.now }
{
    matches!(token, Token::Open | Token::SquareOpen | Token::BraceOpen)
}

// Whether a token closes parentheses, brackets or braces.
fn closes(token: &Token) -> bool
    ensures { result ≡ closes token.now }
{
    matches!(token, Token::Close | Token::SquareClose | Token::BraceClose)
}

// Whether an external declaration ends with a token, where so many are open before it.
fn ends(nested: u32, token: &Token) -> bool
    ensures { result ≡ ends nested token.now }
{
    match token {
        Token::Semi => nested == 0,
        Token::BraceClose => nested < 2,
        _ => false,
    }
}

// How many are open behind a token that opens none.
fn fewer(nested: u32, token: &Token) -> u32
    ensures { result ≡ fewer nested token.now }
{
    if closes(token) {
        nested.saturating_sub(1)
    } else {
        nested
    }
}

// How many words are left behind the first that opens a nesting too many in the external declaration that begins with these.
#[tactic(auto, unfolding(crate::specs::Nesting::too_deep_at))]
fn too_deep(words: &[Token]) -> Option<usize>
    ensures { result ≡ too_deep_at 0 words.now }
{
    let mut nested: u32 = 0;
    let mut rest = words;
    'tokens: while let Some((first, behind)) = rest.split_first() {
        if opens(first) {
            if nested >= DEEPEST {
                return Some(behind.len());
            }
            nested += 1;
        } else {
            if ends(nested, first) {
                return None;
            }
            nested = fewer(nested, first);
        }
        rest = behind;
    }
    None
}

// Nesting is told before the form.
fn nested_by(broken: BrokenExternal, left: Option<usize>) -> BrokenExternal
    ensures { result ≡ nested_by broken left }
{
    match left {
        None => broken,
        Some(left) => BrokenExternal {
            left: broken.left,
            fault: Fault {
                kind: Kind::Deep,
                left,
            },
        },
    }
}

// The words from the number on where so many are left.
fn last(words: &[Token], left: usize) -> &[Token]
    ensures { result.now ≡ drop (length words.now - left) words.now }
{
    words.split_at(words.len().saturating_sub(left)).1
}

/// What is told of the first external declaration that breaks a rule among the words of a file: that it nests too deep, where it does so and has no form.
pub fn told(words: &[Token], broken: BrokenExternal) -> BrokenExternal
    ensures { result ≡ told_of words.now broken }
{
    match broken.fault.kind {
        Kind::Form => nested_by(broken, too_deep(last(words, broken.left))),
        Kind::Deep => broken,
    }
}
