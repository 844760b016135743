//! Trees and faults of single texts. The capital letters T, U and V are names of types.

mod chains;
mod declarators;
mod faults;
mod limits;
mod numbers;
mod operands;
mod scopes;
mod shown;
mod specifiers;
mod tokens;
mod words;

use c_expression_read::{
    read_assignment, read_constant, read_declarator, read_expression, read_nested_expression,
    read_specifiers, read_typed,
};
use c_grammar::{Allowed, Kind, ReadError, Token};
use c_scope::Scope;
use shown::{Part, Shown};
use std::alloc::{AllocError, Global};
use std::process::Abort;
use std::test::Fail;
use words::tokens_of;

/// How deep what is read nests at most, if a test doesn't say otherwise.
const DEPTH: u32 = 64;

/// What is read.
#[derive(Clone, Copy)]
enum Form {
    Expression,
    /// An expression one nesting down.
    Nested,
    Assignment,
    Constant,
    Specifiers,
    Declarator(Allowed),
    Typed(Allowed),
}

/// What is read, how deep it may nest, and whether the numbers of its nodes are told.
#[derive(Clone, Copy)]
struct Reading {
    form: Form,
    depth: u32,
    has_numbers: bool,
}

impl Reading {
    fn of(form: Form) -> Reading {
        Reading {
            form,
            depth: DEPTH,
            has_numbers: false,
        }
    }

    fn within(form: Form, depth: u32) -> Reading {
        Reading {
            form,
            depth,
            has_numbers: false,
        }
    }

    fn numbered(form: Form) -> Reading {
        Reading {
            form,
            depth: DEPTH,
            has_numbers: true,
        }
    }
}

// The names of types that each text begins with.
fn types(alloc: Global) -> Result<Scope, AllocError> {
    let mut scope = Scope::new(alloc);
    for letter in b"TUV" {
        scope.bind(Some(u32::from(*letter)), true)?;
    }
    Ok(scope)
}

fn end_of(tokens: &[Token]) -> u32 {
    match u32::try_from(tokens.len()) {
        Ok(end) => end,
        Err(_) => u32::MAX,
    }
}

fn show_expression(
    alloc: Global,
    reading: Reading,
    scope: &mut Scope,
    tokens: &[Token],
    shown: &mut Shown,
) -> Result<usize, ReadError> {
    let (end, depth) = (end_of(tokens), reading.depth);
    let (e, rest) = match reading.form {
        Form::Nested => read_nested_expression(alloc, end, depth, scope, tokens)?,
        Form::Assignment => read_assignment(alloc, end, depth, scope, tokens)?,
        Form::Constant => read_constant(alloc, end, depth, scope, tokens)?,
        _ => read_expression(alloc, end, depth, scope, tokens)?,
    };
    shown.show(alloc, Part::Expression(&e))?;
    Ok(rest.len())
}

fn show_specifiers(
    alloc: Global,
    depth: u32,
    scope: &mut Scope,
    tokens: &[Token],
    shown: &mut Shown,
) -> Result<usize, ReadError> {
    let (specifiers, rest) = read_specifiers(alloc, end_of(tokens), depth, scope, tokens)?;
    shown.show(alloc, Part::Specifiers(specifiers.as_slice()))?;
    Ok(rest.len())
}

fn show_declarator(
    alloc: Global,
    depth: u32,
    allowed: Allowed,
    scope: &mut Scope,
    tokens: &[Token],
    shown: &mut Shown,
) -> Result<usize, ReadError> {
    let (declarator, rest) = read_declarator(alloc, end_of(tokens), depth, allowed, scope, tokens)?;
    shown.show(alloc, Part::Declarator(&declarator))?;
    Ok(rest.len())
}

fn show_typed(
    alloc: Global,
    depth: u32,
    allowed: Allowed,
    scope: &mut Scope,
    tokens: &[Token],
    shown: &mut Shown,
) -> Result<usize, ReadError> {
    let (typed, rest) = read_typed(alloc, end_of(tokens), depth, allowed, scope, tokens)?;
    shown.show(alloc, Part::Typed(&typed))?;
    Ok(rest.len())
}

// Writes what stands first, and gives how many tokens are left.
fn show(
    alloc: Global,
    reading: Reading,
    scope: &mut Scope,
    tokens: &[Token],
    shown: &mut Shown,
) -> Result<usize, ReadError> {
    let depth = reading.depth;
    match reading.form {
        Form::Specifiers => show_specifiers(alloc, depth, scope, tokens, shown),
        Form::Declarator(allowed) => show_declarator(alloc, depth, allowed, scope, tokens, shown),
        Form::Typed(allowed) => show_typed(alloc, depth, allowed, scope, tokens, shown),
        _ => show_expression(alloc, reading, scope, tokens, shown),
    }
}

fn kind_word(kind: Kind) -> &'static str {
    match kind {
        Kind::Form => "form",
        Kind::Deep => "deep",
    }
}

// What a text is read as: its tree, and behind `..` how many tokens are left; or which rule is broken and how many tokens stand before that place.
fn told(
    alloc: Global,
    reading: Reading,
    scope: &mut Scope,
    text: &str,
) -> Result<String, AllocError> {
    let tokens = tokens_of(alloc, text)?;
    let mut shown = Shown::new(alloc, reading.has_numbers);
    match show(alloc, reading, scope, &tokens, &mut shown) {
        Ok(0) => {}
        Ok(left) => shown.word(format!(in alloc; ".. {left}")?.as_str())?,
        Err(ReadError::Memory) => return Err(AllocError),
        Err(ReadError::Fault(fault)) => {
            let (word, before) = (
                kind_word(fault.kind),
                tokens.len().saturating_sub(fault.left),
            );
            shown.word(format!(in alloc; "{word} at {before}")?.as_str())?;
        }
    }
    Ok(shown.text)
}

// Each line has a text and, behind `=>`, what it is read as.
fn check(rt: &impl Abort, alloc: Global, reading: Reading, lines: &str) -> Result<(), Fail> {
    for line in lines.lines() {
        match line.split_once(" => ") {
            None => assert!(rt; false, "{line}"),
            Some((text, wanted)) => {
                let mut scope = types(alloc)?;
                let found = told(alloc, reading, &mut scope, text)?;
                assert_eq!(rt; found.as_str(), wanted, "of {text}");
            }
        }
    }
    Ok(())
}
