//! The Fortran text of a program.

ghost use Rattle.std.specs.Prelude.{◌≡◌, ◌≢◌, ℕ, ◌<◌, List as ListOf, [], ◌∷◌, ◌++◌, All, MatchOption, IfSome, IfOk, length, map};
ghost use Rattle.first_form.specs.Lines.{text_lines};
ghost use Rattle.first_form.specs.Words.{IsName, IsLabel, IsInt};
ghost use Rattle.first_form.specs.Forms.{program_lines, interface_lines, call_line, end_line, AreCalls, IsFortranText};
ghost use Rattle.first_form.specs.Runs.{IsLongestRun, call_before};
ghost use Rattle.first_form.specs.Readings.{IsNoFortranText};

use crate::ends::{after, between};
use crate::lines::{after_line, first_line, is_only_line};
use crate::words::{is_label, is_name, label_text, number_of};
use jf_base::{List, Memory, Text};
use std::alloc::{AllocError, Global};

const MOST_CALLS: usize = 100;

/// A Fortran text of the form: the label that it calls, and the number of each call.
#[derive(Drop, Debug)]
pub struct FortranForm {
    pub label: Text,
    pub calls: List<u32>,
}

// The name of the program, and the text behind the line that opens the interface.
#[tactic(auto, unfolding(crate::specs::Forms::program_lines))]
fn opening(text: &[u8]) -> Option<(&[u8], &[u8])>
    ensures { MatchOption result ((name : ListOf ℕ) (rest : ListOf (ListOf ℕ)) → text_lines text.now ≢ program_lines name ++ rest) (λ x. text_lines text.now ≡ program_lines x.0.now ++ text_lines x.1.now) }
{
    let (line, text) = first_line(text)?;
    let name = after(line, b"program ")?;
    let text = after_line(text, b"use iso_c_binding")?;
    let text = after_line(text, b"implicit none")?;
    let text = after_line(text, b"interface")?;
    Some((name, text))
}

// The label of the interface body, and the text behind the interface.
#[tactic(auto, unfolding(crate::specs::Forms::interface_lines))]
fn interface(text: &[u8]) -> Option<(&[u8], &[u8])>
    ensures { MatchOption result ((label : ListOf ℕ) (rest : ListOf (ListOf ℕ)) → text_lines text.now ≢ interface_lines label ++ rest) (λ x. text_lines text.now ≡ interface_lines x.0.now ++ text_lines x.1.now) }
{
    let (line, text) = first_line(text)?;
    let label = between(line, b"subroutine ", b"(c) bind(c)")?;
    let text = after_line(text, b"import")?;
    let text = after_line(text, b"integer(c_int), value :: c")?;
    let text = after_line(text, b"end subroutine")?;
    let text = after_line(text, b"end interface")?;
    Some((label, text))
}

#[tactic(auto, unfolding(crate::specs::Forms::call_line))]
fn call_number(line: &[u8], label: &[u8]) -> Option<u32>
    ensures { MatchOption result ((n : ℕ) → IsInt n → line.now ≢ call_line label.now n) (λ n. IsInt n × (line.now ≡ call_line label.now n)) }
{
    let rest = after(after(line, b"call ")?, label)?;
    let digits = between(rest, b"(", b"_c_int)")?;
    number_of(digits)
}

// The number of the call on the first line, and the text behind it.
fn first_call<'a>(text: &'a [u8], label: &[u8]) -> Option<(u32, &'a [u8])>
    ensures lines { MatchOption result ((n : ℕ) (rest : ListOf (ListOf ℕ)) → IsInt n → text_lines text.now ≢ call_line label.now n ∷ rest) (λ x. IsInt x.0 × (text_lines text.now ≡ call_line label.now x.0 ∷ text_lines x.1.now)) }
    ensures shorter { IfSome result (λ x. length x.1.now < length text.now) }
{
    let (line, rest) = first_line(text)?;
    let number = call_number(line, label)?;
    Some((number, rest))
}

// The calls at the front of a text, and the text behind them.
fn read_calls<'a>(
    alloc: Global,
    text: &'a [u8],
    label: &[u8],
) -> Result<(Vec<u32>, &'a [u8]), AllocError>
    ensures { IfOk result (λ x. IsLongestRun (call_before label.now) IsInt (text_lines text.now) x.0.items (text_lines x.1.now)) }
{
    let mut calls = Vec::new(alloc);
    let mut rest = text;
    while let Some((number, behind)) = first_call(rest, label) {
        calls.push(number)?;
        rest = behind;
    }
    Ok((calls, rest))
}

// The numbers of the calls, where the text is calls and the end of the program.
fn program_calls(alloc: Global, text: &[u8], label: &[u8]) -> Result<Option<Vec<u32>>, Memory>
    ensures { IfOk result (λ r. MatchOption r
        ((calls : ListOf ℕ) → AreCalls calls → text_lines text.now ≢ map (call_line label.now) calls ++ (end_line ∷ []))
        (λ v. AreCalls v.items × (text_lines text.now ≡ map (call_line label.now) v.items ++ (end_line ∷ [])))) }
{
    let (calls, rest) = read_calls(alloc, text, label)?;
    if !calls.is_empty() && calls.len() <= MOST_CALLS && is_only_line(rest, b"end program") {
        Ok(Some(calls))
    } else {
        Ok(None)
    }
}

/// Reads the bytes of a Fortran file. The answer is None exactly where they aren't a text of the form, and Err only where memory is wanting.
pub fn read_fortran(alloc: Global, bytes: &[u8]) -> Result<Option<FortranForm>, Memory>
    ensures { IfOk result (λ r. MatchOption r (IsNoFortranText bytes.now) (λ f. IsFortranText bytes.now f.label f.calls)) }
{
    let Some((name, text)) = opening(bytes) else {
        return Ok(None);
    };
    let Some((label, text)) = interface(text) else {
        return Ok(None);
    };
    if !is_name(name) || !is_label(name, label) {
        return Ok(None);
    }
    let Some(calls) = program_calls(alloc, text, label)? else {
        return Ok(None);
    };
    Ok(Some(FortranForm {
        label: label_text(alloc, label)?,
        calls: List::from_vec(calls),
    }))
}
