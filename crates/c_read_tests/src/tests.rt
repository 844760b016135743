//! Files of a few external declarations.

mod files;
mod limits;
mod parts;
mod refusals;
mod words;

use c_read::read_c;
use c_token::CSpanned;
use c_tree::{CUnit, External};
use jf_base::{Boxed, Refusal, Tag};
use std::alloc::{AllocError, Global};
use std::process::Abort;
use std::test::Fail;
use words::tokens_of;

/// The most tokens of a text in a test.
const MOST_TOKENS: usize = 100_000;

// What tokens are read as.
fn unit_of(alloc: Global, tokens: &[CSpanned]) -> Result<Boxed<CUnit>, Refusal> {
    if tokens.len() > MOST_TOKENS {
        return Err(Refusal::Memory);
    }
    Ok(Boxed::new(alloc, read_c(alloc, tokens)?)?)
}

// What a text is read as.
fn read(alloc: Global, text: &str) -> Result<Boxed<CUnit>, Refusal> {
    let tokens = tokens_of(alloc, text)?;
    unit_of(alloc, &tokens)
}

fn put(text: &mut String, word: &str) -> Result<(), AllocError> {
    if !text.is_empty() {
        text.push_str(", ")?;
    }
    text.push_str(word)?;
    Ok(())
}

fn put_external(alloc: Global, text: &mut String, external: &External) -> Result<(), AllocError> {
    match external {
        External::Declaration(_) => put(text, "declaration"),
        External::Function { tokens, .. } => {
            put(text, format!(in alloc; "function of {tokens}")?.as_str())
        }
    }
}

// The external declarations of a unit: a function's definition tells how many tokens it has.
fn externals_text(alloc: Global, unit: &CUnit) -> Result<String, AllocError> {
    let mut text = String::new(alloc);
    for external in unit.externals.as_slice() {
        put_external(alloc, &mut text, external)?;
    }
    Ok(text)
}

fn refusal_text(alloc: Global, refusal: Refusal) -> Result<String, AllocError> {
    match refusal {
        Refusal::Memory => Err(AllocError),
        Refusal::At {
            place,
            tag: Tag(number),
        } => {
            let (line, column) = (place.line, place.column);
            Ok(format!(in alloc; "{number} at {line}:{column}")?)
        }
    }
}

// What a text is read as: its external declarations, or the first broken rule and where.
fn told(alloc: Global, text: &str) -> Result<String, AllocError> {
    match read(alloc, text) {
        Ok(unit) => externals_text(alloc, unit.get()),
        Err(refusal) => refusal_text(alloc, refusal),
    }
}

// Each line has a text and, behind `=>`, what it is read as.
fn check(rt: &impl Abort, alloc: Global, lines: &str) -> Result<(), Fail> {
    for line in lines.lines() {
        match line.split_once(" => ") {
            None => assert!(rt; false, "{line}"),
            Some((text, wanted)) => {
                let found = told(alloc, text)?;
                assert_eq!(rt; found.as_str(), wanted, "of {text}");
            }
        }
    }
    Ok(())
}
