//! Cutting tokens into statements.

ghost use Rattle.std.specs.Prelude.{◌≡◌, ◌∷◌, ◌<◌, List, length, map};
ghost use Rattle.f_lex.specs.declared.token.Spanned.{Spanned};
ghost use Rattle.f_expr_read.specs.Views.{tokens_of};
ghost use Rattle.f_unit_grammar.specs.Rules.{cuts};
ghost use Rattle.f_statement_cut.specs.Pieces.{is_end, pieces, cut_of, from_end};

use f_lex::{Spanned, Token};
use jf_base::Place;

fn is_end(token: &Token) -> bool
    ensures { result ≡ is_end token.now }
{
    matches!(token, Token::End)
}

// What stands from the first end of a statement on.
#[tactic(auto, unfolding(crate::specs::Pieces::from_end))]
fn from_end(tokens: &[Spanned]) -> &[Spanned]
    ensures { result.now ≡ from_end tokens.now }
{
    let mut rest = tokens;
    'tokens: while let Some((first, tail)) = rest.split_first() {
        if is_end(&first.token) {
            return rest;
        }
        rest = tail;
    }
    rest
}

/// The tokens of the first statement, the place of its end where that stands behind them, and what stands behind that (ISO/IEC 1539-1:2018,
/// 6.3.2.4). A statement goes up to its end or the end of the tokens.
pub fn statement_at(tokens: &[Spanned]) -> (&[Spanned], Option<Place>, &[Spanned])
    requires { 0 < length tokens.now }
    ensures pieces { pieces tokens.now ≡ (result.0.now, result.1) ∷ pieces result.2.now }
    ensures less { length result.2.now < length tokens.now }
{
    let rest = from_end(tokens);
    let statement = tokens.split_at(tokens.len() - rest.len()).0;
    match rest.split_first() {
        None => (statement, None, rest),
        Some((end, behind)) => (statement, Some(end.place), behind),
    }
}

/// Statements without their places are the cuts of the tokens without theirs.
pub fn pieces_are_cuts()
    ensures { (tokens : List Spanned) → cuts (tokens_of tokens) ≡ map cut_of (pieces tokens) }
{}
