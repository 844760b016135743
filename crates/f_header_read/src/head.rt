//! The first statements of procedures and interface bodies (ISO/IEC 1539-1:2018, 15.6.2.1 to 15.6.2.3).

ghost use Rattle.std.specs.Prelude.{◌≡◌, ◌∷◌, [], IfOk, length, map};
ghost use Rattle.std.specs.Option.{option_map};
ghost use Rattle.f_declaration_grammar.specs.DeclarationReading.{prefix_at, unit_word_at, dummy_names_at, dummies_at, head_of, prefixes_at, head_behind};
ghost use Rattle.f_expr_read.specs.Gives.{Gives, seen, behind};
ghost use Rattle.f_expr_read.specs.Views.{tokens_of};
ghost use Rattle.f_declared.specs.Views.{view_name, view_prefix, view_declared, is_function};
ghost use Rattle.f_header_read.specs.Heads.{before};

use crate::suffix::suffixes;
use f_action_read::closed;
use f_declared::Declared;
use f_expr_read::{ReadError, closed_at, open_at, read_type};
use f_lex::Spanned;
use f_specifier_read::{listed, name, this_at};
use f_tree::{Head, Name, Prefix, ProcedureKind};
use jf_base::{List, Place};
use std::alloc::{AllocError, Global};

#[tactic(auto, unfolding(f_declaration_grammar::specs::DeclarationReading::prefix_at))]
fn prefix(alloc: Global, tokens: &[Spanned]) -> Result<(Prefix, &[Spanned]), ReadError>
    ensures { Gives (λ x. (view_prefix x.0, tokens_of x.1.now)) result (prefix_at 65 (tokens_of tokens.now)) }
{
    match this_at("recursive", tokens) {
        Some((place, rest)) => Ok((Prefix::Recursive { place }, rest)),
        None => {
            let (declared, rest) = read_type(alloc, tokens)?;
            Ok((Prefix::Type(declared), rest))
        }
    }
}

// SUBROUTINE or FUNCTION where one stands first, its place, and what stands behind it.
#[tactic(auto, unfolding(f_declaration_grammar::specs::DeclarationReading::unit_word_at))]
fn unit_word(tokens: &[Spanned]) -> Option<(ProcedureKind, Place, &[Spanned])>
    ensures { unit_word_at (tokens_of tokens.now) ≡ seen (λ x. (is_function x.0, tokens_of x.2.now)) result }
{
    match this_at("subroutine", tokens) {
        Some((place, rest)) => Some((ProcedureKind::Subroutine, place, rest)),
        None => match this_at("function", tokens) {
            None => None,
            Some((place, rest)) => Some((ProcedureKind::Function, place, rest)),
        },
    }
}

// Names behind their `(`.
#[tactic(auto, unfolding(f_declaration_grammar::specs::DeclarationReading::dummy_names_at))]
fn dummy_names(alloc: Global, tokens: &[Spanned]) -> Result<(List<Name>, &[Spanned]), ReadError>
    ensures { Gives (λ x. (map view_name x.0, tokens_of x.1.now)) result (dummy_names_at (tokens_of tokens.now)) }
{
    match closed_at(tokens) {
        Some((_, rest)) => Ok((List::from_vec(Vec::new(alloc)), rest)),
        None => {
            let (names, rest) = listed(alloc, tokens)?;
            let rest = closed(rest)?;
            Ok((names, rest))
        }
    }
}

#[tactic(auto, unfolding(f_declaration_grammar::specs::DeclarationReading::dummies_at))]
fn dummies(
    alloc: Global,
    kind: ProcedureKind,
    tokens: &[Spanned],
) -> Result<(Option<List<Name>>, &[Spanned]), ReadError>
    ensures { Gives (λ x. (option_map (map view_name) x.0, tokens_of x.1.now)) result (dummies_at (is_function kind) (tokens_of tokens.now)) }
{
    match open_at(tokens) {
        Some((_, rest)) => {
            let (names, rest) = dummy_names(alloc, rest)?;
            Ok((Some(names), rest))
        }
        None => match kind {
            ProcedureKind::Subroutine => Ok((None, tokens)),
            ProcedureKind::Function => Err(ReadError::Form),
        },
    }
}

/// The head that begins with these prefixes, and with SUBROUTINE or FUNCTION at a place, from the tokens behind that word, which are all that is left
/// of the statement.
#[tactic(auto, unfolding(f_declaration_grammar::specs::DeclarationReading::head_of))]
pub fn head_of(
    alloc: Global,
    prefixes: List<Prefix>,
    kind: ProcedureKind,
    place: Place,
    tokens: &[Spanned],
) -> Result<Declared, ReadError>
    ensures { Gives view_declared result (head_of (map view_prefix prefixes) (is_function kind) (tokens_of tokens.now)) }
{
    let (name, rest) = name(alloc, tokens)?;
    let (dummies, rest) = dummies(alloc, kind, rest)?;
    let suffixes = suffixes(alloc, rest)?;
    Ok(Declared::Head(Head {
        prefixes,
        kind,
        place,
        name,
        dummies,
        suffixes,
    }))
}

// Prefixes behind those that are there, up to SUBROUTINE or FUNCTION, and what stands behind that word at its place.
fn prefixes(
    items: List<Prefix>,
    alloc: Global,
    tokens: &[Spanned],
) -> Result<(List<Prefix>, ProcedureKind, Place, &[Spanned]), ReadError>
    ensures { Gives (λ x. ((map view_prefix x.0, is_function x.1), tokens_of x.3.now)) result (behind before (map view_prefix items) (prefixes_at 65 (length tokens.now) (tokens_of tokens.now))) }
{
    let mut all = items;
    let mut rest = tokens;
    for _ in 0..tokens.len() {
        match unit_word(rest) {
            Some((kind, place, after)) => return Ok((all, kind, place, after)),
            None => {
                let (item, after) = prefix(alloc, rest)?;
                all.push(item)?;
                rest = after;
            }
        }
    }
    Err(ReadError::Form)
}

// A prefix alone.
fn alone(alloc: Global, prefix: Prefix) -> Result<List<Prefix>, AllocError>
    ensures { IfOk result (λ all. all ≡ prefix ∷ []) }
{
    let mut all = List::from_vec(Vec::new(alloc));
    all.push(prefix)?;
    Ok(all)
}

/// The head that begins with this prefix, from the tokens behind it, which are all that is left of the statement.
pub fn head_behind(alloc: Global, first: Prefix, tokens: &[Spanned]) -> Result<Declared, ReadError>
    ensures { Gives view_declared result (head_behind 65 (view_prefix first) (tokens_of tokens.now)) }
{
    let items = alone(alloc, first)?;
    let (prefixes, kind, place, rest) = prefixes(items, alloc, tokens)?;
    head_of(alloc, prefixes, kind, place, rest)
}
