//! Statements as words: each is followed by the one that is its body, or that stands last in it.

use c_tree::{BlockItem, Statement};
use std::alloc::AllocError;

/// The most words of a statement in a test.
const MOST_WORDS: u32 = 200;

/// What a statement is.
pub fn word_of(statement: &Statement) -> &'static str {
    match statement {
        Statement::Block { .. } => "block",
        Statement::Expression { value: None, .. } => "nothing",
        Statement::Expression { value: Some(_), .. } => "expression",
        Statement::If {
            otherwise: None,
            ..
        } => "if",
        Statement::If {
            otherwise: Some(_),
            ..
        } => "if-else",
        Statement::Switch { .. } => "switch",
        Statement::Case { .. } => "case",
        Statement::Default { .. } => "default",
        Statement::While { .. } => "while",
        Statement::DoWhile { .. } => "do",
        Statement::For { .. } => "for",
        Statement::Break { .. } => "break",
        Statement::Continue { .. } => "continue",
        Statement::Return { value: None, .. } => "return",
        Statement::Return { value: Some(_), .. } => "return-value",
    }
}

// The statement that stands behind the head of another.
fn body_of(statement: &Statement) -> Option<&Statement> {
    match statement {
        Statement::If { body, .. } => Some(body.get()),
        Statement::Switch { body, .. } => Some(body.get()),
        Statement::Case { body, .. } => Some(body.get()),
        Statement::Default { body, .. } => Some(body.get()),
        Statement::While { body, .. } => Some(body.get()),
        Statement::DoWhile { body, .. } => Some(body.get()),
        Statement::For { body, .. } => Some(body.get()),
        _ => None,
    }
}

// What stands last in a block.
fn last_of(statement: &Statement) -> Option<&BlockItem> {
    match statement {
        Statement::Block { items, .. } => items.as_slice().last(),
        _ => None,
    }
}

/// The statement behind `else`.
pub fn other_of(statement: &Statement) -> Option<&Statement> {
    match statement {
        Statement::If {
            otherwise: Some(other),
            ..
        } => Some(other.get()),
        _ => None,
    }
}

fn put(text: &mut String, word: &str) -> Result<(), AllocError> {
    if !text.is_empty() {
        text.push_str(" ")?;
    }
    text.push_str(word)?;
    Ok(())
}

// Writes a statement's word, and gives the one that is written next.
fn step<'a>(
    text: &mut String,
    statement: &'a Statement,
) -> Result<Option<&'a Statement>, AllocError> {
    put(text, word_of(statement))?;
    match last_of(statement) {
        None => Ok(body_of(statement)),
        Some(BlockItem::Statement(inside)) => Ok(Some(inside)),
        Some(BlockItem::Declaration(_)) => {
            put(text, "declaration")?;
            Ok(None)
        }
    }
}

/// Writes a statement.
pub fn show(text: &mut String, statement: &Statement) -> Result<(), AllocError> {
    let mut rest = Some(statement);
    for _ in 0..MOST_WORDS {
        match rest {
            None => return Ok(()),
            Some(next) => rest = step(text, next)?,
        }
    }
    Ok(())
}
