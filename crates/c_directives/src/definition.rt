//! Definitions.

ghost use Rattle.std.specs.Prelude.{◌≡◌, Some, None, map, IfOk};
ghost use Rattle.c_define.specs.Numbers.{macros_of};
ghost use Rattle.c_define.specs.Expansion.{seen};
ghost use Rattle.c_lines.specs.Heads.{is_name};
ghost use Rattle.c_directives.specs.Reads.{Says};
ghost use Rattle.c_directives.specs.Directives.{with_token, tokens_of, written_token, written_of, has_hash, is_open, list_rule, is_macro_name, define_new, define_again, define_over, define_list, define_at, one_name, undefine, undefine_at};

use crate::stop::{Stop, breaks};
use c_define::{Definitions, Written};
use c_form::token_of;
use c_lines::{Rule, is_hash, is_paste};
use c_text::{Kind, Lexeme};
use c_token::CToken;
use jf_base::{List, Place};
use std::alloc::{AllocError, Global};

/// The tokens that preprocessing tokens are converted to, if each has one of the forms of the grammar.
pub fn tokens_of(alloc: Global, lexemes: &[Lexeme]) -> Result<Option<Vec<CToken>>, AllocError>
    ensures { IfOk result (λ r. tokens_of lexemes.now ≡ seen (λ v. v.items) r) }
{
    let mut tokens = Vec::new(alloc);
    let mut rest = lexemes;
    'lexemes: while let Some((lexeme, tail)) = rest.split_first() {
        let found = token_of(alloc, lexeme)?;
        match found {
            None => return Ok(None),
            Some(token) => {
                tokens.push(token)?;
                rest = tail;
            }
        }
    }
    Ok(Some(tokens))
}

fn written_token(alloc: Global, lexeme: &Lexeme) -> Result<Written, AllocError>
    ensures { IfOk result (λ w. w ≡ written_token lexeme.now) }
{
    let spelling = lexeme.spelling.as_slice().to_vec(alloc)?;
    Ok(Written {
        spelling: List::from_vec(spelling),
        after_blank: lexeme.after_blank,
    })
}

// How a replacement list is written.
fn written_of(alloc: Global, lexemes: &[Lexeme]) -> Result<Vec<Written>, AllocError>
    ensures { IfOk result (λ v. v.items ≡ written_of lexemes.now) }
{
    let mut written = Vec::new(alloc);
    for lexeme in lexemes {
        written.push(written_token(alloc, lexeme)?)?;
    }
    Ok(written)
}

#[tactic(auto, unfolding(crate::specs::Directives::has_hash))]
fn has_hash(lexemes: &[Lexeme]) -> bool
    ensures { result ≡ has_hash lexemes.now }
{
    let mut rest = lexemes;
    'lexemes: while let Some((lexeme, tail)) = rest.split_first() {
        if is_hash(lexeme) || is_paste(lexeme) {
            return true;
        }
        rest = tail;
    }
    false
}

#[tactic(auto, unfolding(crate::specs::Directives::is_open))]
fn is_open(lexeme: &Lexeme) -> bool
    ensures { result ≡ is_open lexeme.now }
{
    matches!(lexeme.kind, Kind::Mark) && lexeme.spelling.as_slice() == b"(".as_slice()
}

// What is wrong with how a replacement list begins.
#[tactic(auto, unfolding(crate::specs::Directives::list_rule))]
fn list_rule(list: &[Lexeme]) -> Option<Rule>
    ensures { result ≡ list_rule list.now }
{
    match list.split_first() {
        None => None,
        Some((first, _)) => {
            if first.after_blank {
                None
            } else if is_open(first) {
                Some(Rule::Hash)
            } else {
                Some(Rule::Form)
            }
        }
    }
}

fn is_name(kind: Kind) -> bool
    ensures { result ≡ is_name kind }
{
    matches!(kind, Kind::Name)
}

#[tactic(auto, unfolding(crate::specs::Directives::is_macro_name))]
fn is_macro_name(lexeme: &Lexeme) -> bool
    ensures { result ≡ is_macro_name lexeme.now }
{
    is_name(lexeme.kind) && lexeme.spelling.as_slice() != b"defined".as_slice()
}

// A name that is a macro, or is none.
fn define_over(
    alloc: Global,
    macros: &mut Definitions,
    place: Place,
    name: &[u8],
    list: &[Lexeme],
) -> Result<(), Stop>
    ensures { Says result (λ _. macros_of macros.new) (define_over (macros_of macros.old) place name.now list.now ((macros_of macros.old).of name.now)) }
{
    let written = written_of(alloc, list)?;
    match macros.is_same(name, &written) {
        Some(true) => Ok(()),
        Some(false) => Err(breaks(Rule::Redefined, place)),
        None => match tokens_of(alloc, list)? {
            None => Err(breaks(Rule::NoToken, place)),
            Some(body) => {
                macros.define(alloc, name, body, List::from_vec(written))?;
                Ok(())
            }
        },
    }
}

fn define_list(
    alloc: Global,
    macros: &mut Definitions,
    place: Place,
    name: &[u8],
    list: &[Lexeme],
) -> Result<(), Stop>
    ensures { Says result (λ _. macros_of macros.new) (define_list (macros_of macros.old) place name.now list.now (list_rule list.now)) }
{
    match list_rule(list) {
        Some(rule) => Err(breaks(rule, place)),
        None => {
            if has_hash(list) {
                Err(breaks(Rule::Hash, place))
            } else {
                define_over(alloc, macros, place, name, list)
            }
        }
    }
}

/// A `#define`.
#[tactic(auto, unfolding(crate::specs::Directives::define_at))]
pub fn define(
    alloc: Global,
    macros: &mut Definitions,
    place: Place,
    tail: &[Lexeme],
) -> Result<(), Stop>
    ensures { Says result (λ _. macros_of macros.new) (define_at (macros_of macros.old) place tail.now) }
{
    match tail.split_first() {
        None => Err(breaks(Rule::Form, place)),
        Some((name, list)) => {
            if is_macro_name(name) {
                define_list(alloc, macros, place, name.spelling.as_slice(), list)
            } else {
                Err(breaks(Rule::Form, place))
            }
        }
    }
}

/// The one name that stands behind a directive.
#[tactic(auto, unfolding(crate::specs::Directives::one_name))]
pub fn one_name(tail: &[Lexeme]) -> Option<&[u8]>
    ensures { one_name tail.now ≡ seen (λ x. x.now) result }
{
    match tail.split_first() {
        None => None,
        Some((name, rest)) => {
            if rest.is_empty() && is_name(name.kind) {
                Some(name.spelling.as_slice())
            } else {
                None
            }
        }
    }
}

/// An `#undef`.
#[tactic(auto, unfolding(crate::specs::Directives::undefine_at))]
pub fn undefine(macros: &mut Definitions, place: Place, tail: &[Lexeme]) -> Result<(), Stop>
    ensures { Says result (λ _. macros_of macros.new) (undefine_at (macros_of macros.old) place tail.now) }
{
    match one_name(tail) {
        None => Err(breaks(Rule::Form, place)),
        Some(name) => {
            if name == b"defined".as_slice() {
                Err(breaks(Rule::Form, place))
            } else {
                macros.undefine(name);
                Ok(())
            }
        }
    }
}
