//! What stands behind the dummy arguments of a procedure (ISO/IEC 1539-1:2018, 15.6.2.2, R1532).

ghost use Rattle.std.specs.Prelude.{◌≡◌, length, map};
ghost use Rattle.f_declaration_grammar.specs.DeclarationReading.{suffix_by, suffix_at, suffixes_at};
ghost use Rattle.f_expr_read.specs.Gives.{Gives};
ghost use Rattle.f_expr_read.specs.Views.{tokens_of};
ghost use Rattle.f_declared.specs.Views.{view_suffix};

use crate::finish::is_ended;
use f_action_read::{closed, opened};
use f_expr_read::{ReadError, name_at};
use f_lex::Spanned;
use f_specifier_read::{bind, name};
use f_tree::Suffix;
use jf_base::{List, Place};
use std::alloc::Global;

// The suffix that a word at this place begins.
#[tactic(auto, unfolding(f_declaration_grammar::specs::DeclarationReading::suffix_by))]
fn suffix_by<'a>(
    alloc: Global,
    place: Place,
    word: &List<u8>,
    tokens: &'a [Spanned],
) -> Result<(Suffix, &'a [Spanned]), ReadError>
    ensures { Gives (λ x. (view_suffix x.0, tokens_of x.1.now)) result (suffix_by word.now (tokens_of tokens.now)) }
{
    let word = word.as_slice();
    if word == "bind".as_bytes() {
        let (bind, rest) = bind(alloc, tokens)?;
        return Ok((Suffix::Bind { place, bind }, rest));
    }
    if word == "result".as_bytes() {
        let rest = opened(tokens)?;
        let (name, rest) = name(alloc, rest)?;
        let rest = closed(rest)?;
        return Ok((Suffix::Result { place, name }, rest));
    }
    Err(ReadError::Form)
}

#[tactic(auto, unfolding(f_declaration_grammar::specs::DeclarationReading::suffix_at))]
fn suffix(alloc: Global, tokens: &[Spanned]) -> Result<(Suffix, &[Spanned]), ReadError>
    ensures { Gives (λ x. (view_suffix x.0, tokens_of x.1.now)) result (suffix_at (tokens_of tokens.now)) }
{
    match name_at(tokens) {
        None => Err(ReadError::Form),
        Some((word, place, rest)) => suffix_by(alloc, place, word, rest),
    }
}

/// Suffixes up to the end.
pub fn suffixes(alloc: Global, tokens: &[Spanned]) -> Result<List<Suffix>, ReadError>
    ensures { Gives (λ x. map view_suffix x) result (suffixes_at (length tokens.now) (tokens_of tokens.now)) }
{
    let mut all = List::from_vec(Vec::new(alloc));
    let mut rest = tokens;
    for _ in 0..tokens.len() {
        if is_ended(rest) {
            return Ok(all);
        }
        let (item, after) = suffix(alloc, rest)?;
        all.push(item)?;
        rest = after;
    }
    if is_ended(rest) {
        Ok(all)
    } else {
        Err(ReadError::Form)
    }
}
