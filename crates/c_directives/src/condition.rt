//! Controlling expressions and names of headers.

ghost use Rattle.c_condition.specs.declared.number.Number.{Number};
ghost use Rattle.c_condition.specs.declared.token.Token.{Token};
ghost use Rattle.std.specs.Prelude.{pos, ◌≡◌, ◌≤◌, ◌++◌, map, length, Some, IfOk, IsSome, IsTrue, OnOk};
ghost use Rattle.c_define.specs.Numbers.{macros_of};
ghost use Rattle.c_define.specs.Expansion.{seen};
ghost use Rattle.c_lines.specs.Headers.{seen as shown};
ghost use Rattle.c_directives.specs.Reads.{Says};
ghost use Rattle.c_directives.specs.Conditions.{truth, given_list, free_step, operand_step, step, without_defined, most_tokens, Put, AllPut, operand_of, condition_value, decided, controls_with, resolved, controls_at, asked, spelled_tokens, form_of, header_with, header_at};

use crate::definition::tokens_of;
use crate::stop::{Stop, breaks};
use c_condition::{Number, Token, condition_value};
use c_define::{Definitions, copied_token};
use c_form::put_spelling;
use c_lines::{Delimiter, Rule, header_of, spelled};
use c_literal::{character_constant, integer_constant};
use c_text::Lexeme;
use c_token::{CSpanned, CToken, Mark};
use jf_base::{List, Place, Text};
use std::alloc::{AllocError, Global};

/// What may stand next: anything, what `defined` asks of, the name behind `defined (`, or the `)` behind that, where it is known whether the name is
/// a macro.
#[derive(Clone, Copy, Debug, PartialEq, Eq)]
pub enum Expected {
    Any,
    Operand,
    Name,
    Close(bool),
}

/// The most tokens that a directive has behind macro replacement, and that all files have.
pub const MOST_TOKENS: usize = 262_144;

/// A header that is asked for: a built-in one, or a file.
#[derive(Debug, Drop)]
pub enum Asked {
    BuiltIn(List<u8>),
    File(Text),
}

fn truth(alloc: Global, value: bool) -> Result<CToken, AllocError>
    ensures { IfOk result (λ t. t ≡ truth value) }
{
    let digit = if value {
        b"1".to_vec(alloc)?
    } else {
        b"0".to_vec(alloc)?
    };
    Ok(CToken::Number(List::from_vec(digit)))
}

// A token where anything may stand.
fn free_step(
    alloc: Global,
    token: &CToken,
) -> Result<Option<(Expected, Option<CToken>)>, AllocError>
    ensures { IfOk result (λ r. r ≡ free_step token.now) }
{
    match token {
        CToken::Id(name) => {
            if name.as_slice() == b"defined".as_slice() {
                return Ok(Some((Expected::Operand, None)));
            }
        }
        _ => {}
    }
    Ok(Some((Expected::Any, Some(copied_token(alloc, token)?))))
}

// A token behind `defined`.
fn operand_step(
    alloc: Global,
    macros: &Definitions,
    token: &CToken,
) -> Result<Option<(Expected, Option<CToken>)>, AllocError>
    ensures { IfOk result (λ r. r ≡ operand_step (macros_of macros.now) token.now) }
{
    match token {
        CToken::Id(name) => {
            let token = truth(alloc, macros.is_macro(name.as_slice()))?;
            Ok(Some((Expected::Any, Some(token))))
        }
        CToken::Mark(Mark::Open) => Ok(Some((Expected::Name, None))),
        _ => Ok(None),
    }
}

// What a token of an expression is taken for, and what may stand behind it.
#[tactic(auto, unfolding(crate::specs::Conditions::step))]
fn step(
    alloc: Global,
    macros: &Definitions,
    expected: Expected,
    token: &CToken,
) -> Result<Option<(Expected, Option<CToken>)>, AllocError>
    ensures { IfOk result (λ r. r ≡ step (macros_of macros.now) expected token.now) }
{
    match expected {
        Expected::Any => free_step(alloc, token),
        Expected::Operand => operand_step(alloc, macros, token),
        Expected::Name => match token {
            CToken::Id(name) => Ok(Some((Expected::Close(macros.is_macro(name.as_slice())), None))),
            _ => Ok(None),
        },
        Expected::Close(value) => match token {
            CToken::Mark(Mark::Close) => Ok(Some((Expected::Any, Some(truth(alloc, value)?)))),
            _ => Ok(None),
        },
    }
}

// Puts what a step gives behind other tokens.
fn put_given(out: &mut Vec<CToken>, given: Option<CToken>) -> Result<(), AllocError>
    ensures { OnOk result (out.new.items ≡ out.old.items ++ given_list given) }
{
    match given {
        None => {}
        Some(token) => out.push(token)?,
    }
    Ok(())
}

// The tokens with 1 or 0 in place of each `defined`.
fn without_defined(
    alloc: Global,
    macros: &Definitions,
    tokens: &[CToken],
) -> Result<Option<Vec<CToken>>, AllocError>
    ensures { IfOk result (λ r. without_defined (macros_of macros.now) Expected.Any tokens.now ≡ seen (λ v. v.items) r) }
{
    let mut out = Vec::new(alloc);
    let mut expected = Expected::Any;
    let mut rest = tokens;
    'tokens: while let Some((token, tail)) = rest.split_first() {
        let taken = step(alloc, macros, expected, token)?;
        match taken {
            None => return Ok(None),
            Some((next, given)) => {
                put_given(&mut out, given)?;
                expected = next;
                rest = tail;
            }
        }
    }
    match expected {
        Expected::Any => Ok(Some(out)),
        _ => Ok(None),
    }
}

// Puts out what a token expands to, or answers false where there is no room.
fn put_expanded(
    alloc: Global,
    macros: &mut Definitions,
    place: Place,
    token: &CToken,
    out: &mut Vec<CSpanned>,
) -> Result<bool, AllocError>
    requires { length out.old.items ≤ most_tokens }
    ensures same { IfOk result (λ fits. IsTrue fits → macros.new ≡ macros.old) }
    ensures tokens { IfOk result (λ fits. Put fits (macros_of macros.old) place token.now out.old.items out.new.items) }
{
    match token {
        CToken::Id(name) => macros.expand(alloc, name.as_slice(), place, out, MOST_TOKENS),
        other => {
            if out.len() >= MOST_TOKENS {
                return Ok(false);
            }
            let token = copied_token(alloc, other)?;
            out.push(CSpanned { token, place })?;
            Ok(true)
        }
    }
}

// What all tokens expand to; none where that is too much.
fn expand_all(
    alloc: Global,
    macros: &mut Definitions,
    place: Place,
    tokens: &[CToken],
) -> Result<Option<Vec<CSpanned>>, AllocError>
    ensures same { IfOk result (λ r. IsSome r → macros.new ≡ macros.old) }
    ensures tokens { IfOk result (λ r. AllPut r (macros_of macros.old) place tokens.now) }
{
    let mut out = Vec::new(alloc);
    let mut rest = tokens;
    'tokens: while let Some((token, tail)) = rest.split_first() {
        if !put_expanded(alloc, macros, place, token, &mut out)? {
            return Ok(None);
        }
        rest = tail;
    }
    Ok(Some(out))
}

fn byte_operand(byte: u8) -> Token
    ensures { result ≡ Token.Number (Number.Signed (pos byte)) }
{
    Token::Number(Number::Signed(byte as i64))
}

#[tactic(auto, unfolding(crate::specs::Conditions::operand_of))]
fn operand_of(token: &CToken) -> Token
    ensures { result ≡ operand_of token.now }
{
    match token {
        CToken::Id(_) => Token::Name,
        CToken::Number(spelling) => match integer_constant(spelling.as_slice()) {
            None => Token::Other,
            Some(constant) => Token::Number(Number::of_constant(constant)),
        },
        CToken::Text(_) => Token::Other,
        CToken::Byte(content) => match character_constant(content.as_slice()) {
            None => Token::Other,
            Some(byte) => byte_operand(byte),
        },
        CToken::Mark(mark) => Token::Mark(*mark),
    }
}

fn operands(alloc: Global, tokens: &[CSpanned]) -> Result<Vec<Token>, AllocError>
    ensures { IfOk result (λ v. v.items ≡ map operand_of (map (λ s. s.token) tokens.now)) }
{
    let mut operands = Vec::new(alloc);
    for spanned in tokens {
        operands.push(operand_of(&spanned.token))?;
    }
    Ok(operands)
}

fn value(tokens: &[Token]) -> Option<Number>
    ensures { result ≡ condition_value tokens.now }
{
    match condition_value(tokens) {
        None => None,
        Some(value) => Some(value),
    }
}

fn decided(place: Place, value: Option<Number>) -> Result<bool, Stop>
    ensures { Says result (λ b. b) (decided place value) }
{
    match value {
        None => Err(breaks(Rule::Form, place)),
        Some(value) => Ok(!value.is_zero()),
    }
}

fn controls_with(
    alloc: Global,
    macros: &mut Definitions,
    place: Place,
    tokens: &[CToken],
) -> Result<bool, Stop>
    ensures same { OnOk result (macros.new ≡ macros.old) }
    ensures says { Says result (λ b. b) (controls_with (macros_of macros.old) place (Some tokens.now)) }
{
    match expand_all(alloc, macros, place, tokens)? {
        None => Err(breaks(Rule::TooMany, place)),
        Some(expanded) => {
            let operands = operands(alloc, &expanded)?;
            decided(place, value(&operands))
        }
    }
}

fn resolved(
    alloc: Global,
    macros: &mut Definitions,
    place: Place,
    tokens: &[CToken],
) -> Result<bool, Stop>
    ensures same { OnOk result (macros.new ≡ macros.old) }
    ensures says { Says result (λ b. b) (resolved (macros_of macros.old) place (Some tokens.now)) }
{
    match without_defined(alloc, macros, tokens)? {
        None => Err(breaks(Rule::Form, place)),
        Some(tokens) => controls_with(alloc, macros, place, &tokens),
    }
}

/// Whether the group behind an `#if` or `#elif` is taken (ISO/IEC 9899:2011, 6.10.1).
#[tactic(auto, unfolding(crate::specs::Conditions::controls_at))]
pub fn controls(
    alloc: Global,
    macros: &mut Definitions,
    place: Place,
    tail: &[Lexeme],
) -> Result<bool, Stop>
    ensures same { OnOk result (macros.new ≡ macros.old) }
    ensures says { Says result (λ b. b) (controls_at (macros_of macros.old) place tail.now) }
{
    match tokens_of(alloc, tail)? {
        None => Err(breaks(Rule::Form, place)),
        Some(tokens) => resolved(alloc, macros, place, &tokens),
    }
}

fn spelled_tokens(alloc: Global, tokens: &[CSpanned]) -> Result<Vec<u8>, AllocError>
    ensures { IfOk result (λ v. v.items ≡ spelled_tokens (map (λ s. s.token) tokens.now)) }
{
    let mut out = Vec::new(alloc);
    let mut rest = tokens;
    'tokens: while let Some((spanned, tail)) = rest.split_first() {
        put_spelling(&mut out, &spanned.token)?;
        rest = tail;
    }
    Ok(out)
}

fn file_of(alloc: Global, place: Place, name: &[u8]) -> Result<Asked, Stop>
    ensures { Says result asked (form_of place (Some (Delimiter.Quote, name.now))) }
{
    match str::from_utf8(name) {
        Err(_) => Err(breaks(Rule::Form, place)),
        Ok(name) => Ok(Asked::File(Text::from_text(alloc, name)?)),
    }
}

fn form_of(alloc: Global, place: Place, name: Option<(Delimiter, &[u8])>) -> Result<Asked, Stop>
    ensures { Says result asked (form_of place (shown (λ x. (x.0, x.1.now)) name.entry)) }
{
    match name {
        None => Err(breaks(Rule::Form, place)),
        Some((Delimiter::Angle, name)) => {
            let name = name.to_vec(alloc)?;
            Ok(Asked::BuiltIn(List::from_vec(name)))
        }
        Some((Delimiter::Quote, name)) => file_of(alloc, place, name),
    }
}

fn header_with(
    alloc: Global,
    macros: &mut Definitions,
    place: Place,
    tokens: &[CToken],
) -> Result<Asked, Stop>
    ensures same { OnOk result (macros.new ≡ macros.old) }
    ensures says { Says result asked (header_with (macros_of macros.old) place (Some tokens.now)) }
{
    match expand_all(alloc, macros, place, tokens)? {
        None => Err(breaks(Rule::TooMany, place)),
        Some(expanded) => {
            let text = spelled_tokens(alloc, &expanded)?;
            form_of(alloc, place, header_of(&text))
        }
    }
}

/// The header that an `#include` names: as it is written, or behind macro replacement (ISO/IEC 9899:2011, 6.10.2).
#[tactic(auto, unfolding(crate::specs::Conditions::header_at))]
pub fn header(
    alloc: Global,
    macros: &mut Definitions,
    place: Place,
    tail: &[Lexeme],
) -> Result<Asked, Stop>
    ensures same { OnOk result (macros.new ≡ macros.old) }
    ensures says { Says result asked (header_at (macros_of macros.old) place tail.now) }
{
    let text = spelled(alloc, tail)?;
    match header_of(&text) {
        Some(name) => form_of(alloc, place, Some(name)),
        None => match tokens_of(alloc, tail)? {
            None => Err(breaks(Rule::Form, place)),
            Some(tokens) => header_with(alloc, macros, place, &tokens),
        },
    }
}
