//! Lines of text.

ghost use Rattle.c_lines.specs.Heads.{is_hash, is_paste};
ghost use Rattle.std.specs.Prelude.{◌≡◌, ◌||◌, ◌≤◌, length, OnOk, IfOk, IsTrue};
ghost use Rattle.c_directives.specs.Reads.{Says};
ghost use Rattle.c_form.specs.Forms.{token_of};
ghost use Rattle.c_directives.specs.Texts.{put_name, put_token, put_lexeme, text_at};
ghost use Rattle.c_directives.specs.Sorting.{work_of};

use crate::origin::{Origin, place_of};
use crate::stop::{Stop, breaks};
use c_define::Definitions;
use c_form::token_of;
use c_lines::{Rule, is_hash, is_paste};
use c_text::{Kind, Lexeme};
use c_token::CSpanned;
use jf_base::Place;
use std::alloc::Global;

/// The macros and the tokens so far.
#[derive(Drop)]
pub struct Pre {
    pub macros: Definitions,
    pub out: Vec<CSpanned>,
}

// Puts out what a name expands to.
fn put_name(
    alloc: Global,
    pre: &mut Pre,
    limit: usize,
    place: Place,
    name: &[u8],
) -> Result<(), Stop>
    requires { length pre.old.out.items ≤ limit }
    ensures room { OnOk result (length pre.new.out.items ≤ limit) }
    ensures says { Says result (λ _. work_of pre.new) (put_name limit place (work_of pre.old) name.now) }
{
    match pre.macros.expand(alloc, name, place, &mut pre.out, limit) {
        Err(_) => Err(Stop::Memory),
        Ok(true) => Ok(()),
        Ok(false) => Err(breaks(Rule::TooMany, place)),
    }
}

// Puts out the token that a preprocessing token is converted to.
fn put_token(
    alloc: Global,
    pre: &mut Pre,
    limit: usize,
    place: Place,
    lexeme: &Lexeme,
) -> Result<(), Stop>
    requires { length pre.old.out.items ≤ limit }
    ensures room { OnOk result (length pre.new.out.items ≤ limit) }
    ensures says { Says result (λ _. work_of pre.new) (put_token limit place (work_of pre.old) (token_of lexeme.now.kind lexeme.now.spelling)) }
{
    match token_of(alloc, lexeme) {
        Err(_) => Err(Stop::Memory),
        Ok(None) => Err(breaks(Rule::NoToken, place)),
        Ok(Some(token)) => {
            if pre.out.len() >= limit {
                return Err(breaks(Rule::TooMany, place));
            }
            pre.out.push(CSpanned { token, place })?;
            Ok(())
        }
    }
}

// `#` or `##`, also as digraphs.
fn is_hash_mark(lexeme: &Lexeme) -> bool
    ensures { result ≡ (is_hash lexeme.now || is_paste lexeme.now) }
{
    is_hash(lexeme) || is_paste(lexeme)
}

// A preprocessing token of a line of text.
fn put_lexeme(
    alloc: Global,
    pre: &mut Pre,
    limit: usize,
    origin: Origin,
    lexeme: &Lexeme,
) -> Result<(), Stop>
    requires { length pre.old.out.items ≤ limit }
    ensures room { OnOk result (length pre.new.out.items ≤ limit) }
    ensures says { Says result (λ _. work_of pre.new) (put_lexeme limit origin (work_of pre.old) lexeme.now) }
{
    let place = place_of(origin, lexeme.point);
    match lexeme.kind {
        Kind::ForeignByte => Err(breaks(Rule::ForeignByte, place)),
        Kind::OpenText => Err(breaks(Rule::OpenText, place)),
        Kind::Name => put_name(alloc, pre, limit, place, lexeme.spelling.as_slice()),
        _ => {
            if is_hash_mark(lexeme) {
                Err(breaks(Rule::Hash, place))
            } else {
                put_token(alloc, pre, limit, place, lexeme)
            }
        }
    }
}

/// Reads a line of text token by token.
pub fn text(
    alloc: Global,
    pre: &mut Pre,
    limit: usize,
    origin: Origin,
    line: &[Lexeme],
) -> Result<(), Stop>
    requires { length pre.old.out.items ≤ limit }
    ensures room { OnOk result (length pre.new.out.items ≤ limit) }
    ensures says { Says result (λ _. work_of pre.new) (text_at limit origin (work_of pre.old) line.now) }
{
    let mut rest = line;
    'lexemes: while let Some((lexeme, tail)) = rest.split_first() {
        match put_lexeme(alloc, pre, limit, origin, lexeme) {
            Err(stop) => return Err(stop),
            Ok(()) => rest = tail,
        }
    }
    Ok(())
}
