//! Statements of small texts.

use crate::{statement_at, too_deep};
use f_lex::{Spanned, lex};
use jf_base::Refusal;
use std::alloc::{AllocError, Global};
use std::test::Fail;

fn tokens(alloc: Global, text: &str) -> Result<Vec<Spanned>, AllocError> {
    match lex(alloc, 0, 0, text.as_bytes()) {
        Ok(tokens) => Ok(tokens),
        Err(Refusal::Memory) => Err(AllocError),
        Err(Refusal::At { .. }) => Ok(Vec::new(alloc)),
    }
}

#[test]
fn a_statement_goes_up_to_its_end(rt: HostRuntime) -> Result<(), Fail> {
    let tokens = tokens(rt.alloc(), "a = 1; b = 2")?;
    assert!(rt; tokens.len() == 8);
    let (first, end, behind) = statement_at(&tokens);
    assert!(rt; first.len() == 3);
    assert!(rt; end.map(|place| place.column) == Some(6));
    assert!(rt; behind.len() == 4);
    Ok(())
}

#[test]
fn a_statement_may_have_no_end(rt: HostRuntime) -> Result<(), Fail> {
    let mut tokens = tokens(rt.alloc(), "a = 1")?;
    tokens.pop();
    assert!(rt; tokens.len() == 3);
    let (first, end, behind) = statement_at(&tokens);
    assert!(rt; first.len() == 3);
    assert!(rt; end.is_none());
    assert!(rt; behind.is_empty());
    Ok(())
}

#[test]
fn parentheses_nest_64_deep(rt: HostRuntime) -> Result<(), Fail> {
    let mut text = String::new(rt.alloc());
    for _ in 0..64 {
        text.push('(')?;
    }
    let open = tokens(rt.alloc(), text.as_str())?;
    assert!(rt; too_deep(0, &open).is_none());
    assert!(rt; too_deep(1, &open).map(|place| place.column) == Some(64));
    text.push('[')?;
    let open = tokens(rt.alloc(), text.as_str())?;
    assert!(rt; too_deep(0, &open).map(|place| place.column) == Some(65));
    Ok(())
}

#[test]
fn parentheses_that_close_are_not_counted(rt: HostRuntime) -> Result<(), Fail> {
    let tokens = tokens(rt.alloc(), ")) ((1)) [2] (3)")?;
    assert!(rt; too_deep(62, &tokens).is_none());
    assert!(rt; too_deep(63, &tokens).map(|place| place.column) == Some(5));
    Ok(())
}
