//! The C text of a program.

ghost use Rattle.std.specs.Prelude.{◌≡◌, ◌≢◌, ℕ, ◌<◌, List as ListOf, [], ◌∷◌, ◌++◌, MatchOption, IfSome, IfOk, length, map};
ghost use Rattle.std.specs.List.{flat_map};
ghost use Rattle.first_form.specs.Lines.{text_lines};
ghost use Rattle.first_form.specs.Forms.{argument_text, put_text, include_line, opening_text, closing_text, IsArgument, ArePuts, IsCText};
ghost use Rattle.first_form.specs.Runs.{IsLongestRun, ArePutsBehind, put_before, put_line_before};
ghost use Rattle.first_form.specs.Readings.{IsNoCText};
ghost use Rattle.first_form.specs.declared.program.PutcharArgument.{PutcharArgument as Argument};

use crate::ends::{after, cut};
use crate::lines::{after_line, first_line, is_only_line};
use crate::program::PutcharArgument;
use crate::words::number_of;
use jf_base::{List, Memory};
use std::alloc::{AllocError, Global};

const MOST_PUTS: usize = 100;

fn argument_of(text: &[u8]) -> Option<PutcharArgument>
    ensures { MatchOption result ((argument : Argument) → IsArgument argument → text.now ≢ argument_text argument) (λ a. IsArgument a × (text.now ≡ argument_text a)) }
{
    if text == b"c".as_slice() {
        return Some(PutcharArgument::Parameter);
    }
    let number = number_of(text)?;
    Some(PutcharArgument::Number(number))
}

// What the first statement puts, and the text behind it.
fn first_put(text: &[u8]) -> Option<(PutcharArgument, &[u8])>
    ensures statement { MatchOption result ((argument : Argument) (rest : ListOf ℕ) → IsArgument argument → text.now ≢ put_text argument ++ rest) (λ x. IsArgument x.0 × (text.now ≡ put_text x.0 ++ x.1.now)) }
    ensures shorter { IfSome result (λ x. length x.1.now < length text.now) }
{
    let text = after(text, b"putchar(")?;
    let (argument, text) = cut(text, b')')?;
    let rest = after(text, b";")?;
    let argument = argument_of(argument)?;
    Some((argument, rest))
}

// What the statement that is the first line puts, and the text behind that line.
fn first_put_line(text: &[u8]) -> Option<(PutcharArgument, &[u8])>
    ensures lines { MatchOption result ((argument : Argument) (rest : ListOf (ListOf ℕ)) → IsArgument argument → text_lines text.now ≢ put_text argument ∷ rest) (λ x. IsArgument x.0 × (text_lines text.now ≡ put_text x.0 ∷ text_lines x.1.now)) }
    ensures shorter { IfSome result (λ x. length x.1.now < length text.now) }
{
    let (line, rest) = first_line(text)?;
    let (argument, behind) = first_put(line)?;
    if behind.is_empty() {
        Some((argument, rest))
    } else {
        None
    }
}

// The statements at the front of a text, and the text behind them.
fn read_puts(alloc: Global, text: &[u8]) -> Result<(Vec<PutcharArgument>, &[u8]), AllocError>
    ensures { IfOk result (λ x. IsLongestRun put_before IsArgument text.now x.0.items x.1.now) }
{
    let mut puts = Vec::new(alloc);
    let mut rest = text;
    while let Some((argument, behind)) = first_put(rest) {
        puts.push(argument)?;
        rest = behind;
    }
    Ok((puts, rest))
}

// The statements on the lines at the front of a text, and the text behind them.
fn read_put_lines(alloc: Global, text: &[u8]) -> Result<(Vec<PutcharArgument>, &[u8]), AllocError>
    ensures { IfOk result (λ x. IsLongestRun put_line_before IsArgument (text_lines text.now) x.0.items (text_lines x.1.now)) }
{
    let mut puts = Vec::new(alloc);
    let mut rest = text;
    while let Some((argument, behind)) = first_put_line(rest) {
        puts.push(argument)?;
        rest = behind;
    }
    Ok((puts, rest))
}

// What the statements put, where the text is statements and the end of the function.
fn puts_on_one_line(alloc: Global, text: &[u8]) -> Result<Option<Vec<PutcharArgument>>, Memory>
    ensures { IfOk result (λ r. MatchOption r
        ((puts : ListOf Argument) → ArePuts puts → text.now ≢ flat_map put_text puts ++ closing_text)
        (λ v. ArePuts v.items × (text.now ≡ flat_map put_text v.items ++ closing_text))) }
{
    let (puts, rest) = read_puts(alloc, text)?;
    if !puts.is_empty() && puts.len() <= MOST_PUTS && rest == b"}".as_slice() {
        Ok(Some(puts))
    } else {
        Ok(None)
    }
}

// What the statements put, where the lines are statements and the end of the function.
fn puts_on_lines(alloc: Global, text: &[u8]) -> Result<Option<Vec<PutcharArgument>>, Memory>
    ensures { IfOk result (λ r. MatchOption r
        ((puts : ListOf Argument) → ArePuts puts → text_lines text.now ≢ map put_text puts ++ (closing_text ∷ []))
        (λ v. ArePuts v.items × (text_lines text.now ≡ map put_text v.items ++ (closing_text ∷ [])))) }
{
    let (puts, rest) = read_put_lines(alloc, text)?;
    if !puts.is_empty() && puts.len() <= MOST_PUTS && is_only_line(rest, b"}") {
        Ok(Some(puts))
    } else {
        Ok(None)
    }
}

// What stands behind the brace on the line that opens the function, and the text behind that line.
fn function_start<'a>(text: &'a [u8], label: &[u8]) -> Option<(&'a [u8], &'a [u8])>
    ensures { MatchOption result
        ((body : ListOf ℕ) (rest : ListOf (ListOf ℕ)) → text_lines text.now ≢ include_line ∷ (opening_text label.now ++ body) ∷ rest)
        (λ x. text_lines text.now ≡ include_line ∷ (opening_text label.now ++ x.0.now) ∷ text_lines x.1.now) }
{
    let text = after_line(text, b"#include <stdio.h>")?;
    let (line, rest) = first_line(text)?;
    let behind_type = after(line, b"void ")?;
    let behind_label = after(behind_type, label)?;
    let body = after(behind_label, b"(int c){")?;
    Some((body, rest))
}

// What the statements put, where these stand behind the brace that opens the function.
fn function_puts(
    alloc: Global,
    body: &[u8],
    rest: &[u8],
) -> Result<Option<Vec<PutcharArgument>>, Memory>
    ensures { IfOk result (λ r. MatchOption r
        ((puts : ListOf Argument) → ArePuts puts → ArePutsBehind body.now (text_lines rest.now) puts → ⊥)
        (λ v. ArePuts v.items × ArePutsBehind body.now (text_lines rest.now) v.items)) }
{
    if body.is_empty() {
        return puts_on_lines(alloc, rest);
    }
    if first_line(rest).is_some() {
        return Ok(None);
    }
    puts_on_one_line(alloc, body)
}

/// Reads the bytes of a C file that is to define `label`. The answer is None exactly where they aren't a text of the form with this label,
/// and Err only where memory is wanting.
pub fn read_c(
    alloc: Global,
    bytes: &[u8],
    label: &[u8],
) -> Result<Option<List<PutcharArgument>>, Memory>
    ensures { IfOk result (λ r. MatchOption r (IsNoCText bytes.now label.now) (λ puts. IsCText bytes.now label.now puts)) }
{
    let Some((body, rest)) = function_start(bytes, label) else {
        return Ok(None);
    };
    let Some(puts) = function_puts(alloc, body, rest)? else {
        return Ok(None);
    };
    Ok(Some(List::from_vec(puts)))
}
