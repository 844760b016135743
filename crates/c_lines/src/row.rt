//! Lines.

ghost use Rattle.std.specs.Prelude.{◌≡◌, ◌∷◌, ◌<◌, length};
ghost use Rattle.c_lines.specs.Rows.{is_end, rows, row_of, row_rest, behind_first};

use c_text::{Kind, Lexeme};

fn is_end(kind: Kind) -> bool
    ensures { result ≡ is_end kind }
{
    matches!(kind, Kind::LineEnd)
}

// What stands from the first line end on.
#[tactic(auto, unfolding(crate::specs::Rows::row_rest))]
fn row_rest(lexemes: &[Lexeme]) -> &[Lexeme]
    ensures { result.now ≡ row_rest lexemes.now }
{
    let mut rest = lexemes;
    'lexemes: while let Some((first, tail)) = rest.split_first() {
        if is_end(first.kind) {
            return rest;
        }
        rest = tail;
    }
    rest
}

/// The first line of what is left of a text, without its end, and what stands behind that.
pub fn row_at(lexemes: &[Lexeme]) -> (&[Lexeme], &[Lexeme])
    requires { 0 < length lexemes.now }
    ensures rows { rows lexemes.now ≡ result.0.now ∷ rows result.1.now }
    ensures less { length result.1.now < length lexemes.now }
{
    let rest = row_rest(lexemes);
    let row = lexemes.split_at(lexemes.len() - rest.len()).0;
    match rest.split_first() {
        None => (row, rest),
        Some((_, behind)) => (row, behind),
    }
}
