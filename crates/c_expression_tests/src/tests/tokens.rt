//! Single tokens that stand first.

use super::words::tokens_of;
use c_expression_read::{
    braced, broken, closed, colon, comma_at, deep, ended, ends_braces, last_comma,
};
use c_grammar::{Fault, Kind, ReadError, Token};
use std::test::Fail;

fn is_fault(error: &ReadError, kind: Kind, left: usize) -> bool {
    match error {
        ReadError::Memory => false,
        ReadError::Fault(fault) => *fault == Fault { kind, left },
    }
}

// Whether one token is left behind the first.
fn is_one_left(found: Result<&[Token], ReadError>) -> bool {
    match found {
        Ok(rest) => rest.len() == 1,
        Err(_) => false,
    }
}

fn is_broken(found: Result<&[Token], ReadError>, left: usize) -> bool {
    match found {
        Ok(_) => false,
        Err(error) => is_fault(&error, Kind::Form, left),
    }
}

#[test]
fn each_closing_token_is_taken(rt: HostRuntime) -> Result<(), Fail> {
    let alloc = rt.alloc();
    assert!(rt; is_one_left(closed(&tokens_of(alloc, ") a")?)));
    assert!(rt; is_one_left(braced(&tokens_of(alloc, "} a")?)));
    assert!(rt; is_one_left(ended(&tokens_of(alloc, "; a")?)));
    assert!(rt; is_one_left(colon(&tokens_of(alloc, ": a")?)));
    Ok(())
}

#[test]
fn another_token_is_a_fault(rt: HostRuntime) -> Result<(), Fail> {
    let tokens = tokens_of(rt.alloc(), "a ) } ; :")?;
    assert!(rt; is_broken(closed(&tokens), 5));
    assert!(rt; is_broken(braced(&tokens), 5));
    assert!(rt; is_broken(ended(&tokens), 5));
    assert!(rt; is_broken(colon(&tokens), 5));
    assert!(rt; is_broken(closed(&[]), 0));
    Ok(())
}

#[test]
fn faults_stand_before_the_tokens_that_are_left(rt: HostRuntime) -> Result<(), Fail> {
    let tokens = tokens_of(rt.alloc(), "a b c")?;
    assert!(rt; is_fault(&broken(&tokens), Kind::Form, 3));
    assert!(rt; is_fault(&deep(&tokens), Kind::Deep, 3));
    Ok(())
}

#[test]
fn commas_and_ends(rt: HostRuntime) -> Result<(), Fail> {
    let alloc = rt.alloc();
    let (comma, name) = (tokens_of(alloc, ", a")?, tokens_of(alloc, "a ,")?);
    assert!(rt; matches!(comma_at(&comma), Some([Token::Name(_)])));
    assert!(rt; comma_at(&name).is_none());
    assert!(rt; matches!(last_comma(&comma), (true, [Token::Name(_)])));
    assert!(rt; matches!(last_comma(&name), (false, [Token::Name(_), Token::Comma])));
    assert!(rt; ends_braces(&[]));
    assert!(rt; ends_braces(&tokens_of(alloc, "} a")?));
    assert!(rt; !ends_braces(&name));
    Ok(())
}
