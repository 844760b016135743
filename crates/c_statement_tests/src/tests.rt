//! Statements of single texts. The capital letters T and U are names of types.

mod branches;
mod faults;
mod jumps;
mod limits;
mod loops;
mod names;
mod shown;
mod words;

use c_grammar::{Fault, Kind, ReadError, Token};
use c_scope::Scope;
use c_statement_read::read_statement;
use c_tree::Statement;
use jf_base::Boxed;
use shown::show;
use std::alloc::{AllocError, Global};
use std::process::Abort;
use std::test::Fail;
use words::tokens_of;

/// How deep what is read nests at most.
const DEPTH: u32 = 64;

// The names of types that each text begins with.
fn types(alloc: Global) -> Result<Scope, AllocError> {
    let mut scope = Scope::new(alloc);
    for letter in b"TU" {
        scope.bind(Some(u32::from(*letter)), true)?;
    }
    Ok(scope)
}

fn end_of(tokens: &[Token]) -> u32 {
    match u32::try_from(tokens.len()) {
        Ok(end) => end,
        Err(_) => u32::MAX,
    }
}

fn kind_word(kind: Kind) -> &'static str {
    match kind {
        Kind::Form => "form",
        Kind::Deep => "deep",
    }
}

// Which rule is broken, and how many of so many tokens stand before that place.
fn fault_text(alloc: Global, fault: Fault, length: usize) -> Result<String, AllocError> {
    let (word, before) = (kind_word(fault.kind), length.saturating_sub(fault.left));
    Ok(format!(in alloc; "{word} at {before}")?)
}

// The statement that stands first among tokens that reach to the end of a unit of so many, and how many tokens are left.
fn first_within(
    alloc: Global,
    end: u32,
    scope: &mut Scope,
    tokens: &[Token],
) -> Result<(Boxed<Statement>, usize), ReadError> {
    let (statement, rest) = read_statement(alloc, end, DEPTH, scope, tokens)?;
    Ok((Boxed::new(alloc, statement)?, rest.len()))
}

// The statement that stands first, and how many tokens are left.
fn first_of(
    alloc: Global,
    scope: &mut Scope,
    tokens: &[Token],
) -> Result<(Boxed<Statement>, usize), ReadError> {
    first_within(alloc, end_of(tokens), scope, tokens)
}

// Writes the words of the statement that stands first, and gives how many tokens are left.
fn show_first(
    alloc: Global,
    scope: &mut Scope,
    tokens: &[Token],
    text: &mut String,
) -> Result<usize, ReadError> {
    let (statement, left) = first_of(alloc, scope, tokens)?;
    show(text, statement.get())?;
    Ok(left)
}

// A text, and behind `..` how many tokens are left.
fn with_left(alloc: Global, text: String, left: usize) -> Result<String, AllocError> {
    let mut text = text;
    if left > 0 {
        text.push_str(format!(in alloc; " .. {left}")?.as_str())?;
    }
    Ok(text)
}

// What tokens are read as.
fn told_of(alloc: Global, tokens: &[Token]) -> Result<String, AllocError> {
    let mut scope = types(alloc)?;
    let mut shown = String::new(alloc);
    match show_first(alloc, &mut scope, tokens, &mut shown) {
        Ok(left) => with_left(alloc, shown, left),
        Err(ReadError::Memory) => Err(AllocError),
        Err(ReadError::Fault(fault)) => fault_text(alloc, fault, tokens.len()),
    }
}

// What a text is read as.
fn told(alloc: Global, text: &str) -> Result<String, AllocError> {
    let tokens = tokens_of(alloc, text)?;
    told_of(alloc, &tokens)
}

// Each line has a text and, behind `=>`, what it is read as.
fn check(rt: &impl Abort, alloc: Global, lines: &str) -> Result<(), Fail> {
    for line in lines.lines() {
        match line.split_once(" => ") {
            None => assert!(rt; false, "{line}"),
            Some((text, wanted)) => {
                let found = told(alloc, text)?;
                assert_eq!(rt; found.as_str(), wanted, "of {text}");
            }
        }
    }
    Ok(())
}
