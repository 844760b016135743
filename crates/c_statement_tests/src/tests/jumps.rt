//! Jumps, expressions and blocks, and the numbers of statements.

use super::words::tokens_of;
use super::{check, first_within, types};
use c_grammar::{ReadError, Token};
use c_scope::Scope;
use c_tree::Statement;
use std::alloc::{AllocError, Global};
use std::test::Fail;

const JUMPS: &str = "break ; => break
continue ; a => continue .. 1
return ; => return
return a ; => return-value
return a , b ; c => return-value .. 1
return ( a ) ; => return-value";

const OTHERS: &str = "; => nothing
; ; => nothing .. 1
a ; => expression
a = b , c ; => expression
{ } => block
{ ; } => block nothing
{ a ; b ; { c ; } } d => block block expression .. 1
{ int a ; } => block declaration
{ int a ; b ; int c ; } => block declaration
{ int a ; b ; } => block expression";

#[test]
fn jumps_end_at_a_semicolon(rt: HostRuntime) -> Result<(), Fail> {
    check(&rt, rt.alloc(), JUMPS)
}

#[test]
fn expressions_and_blocks(rt: HostRuntime) -> Result<(), Fail> {
    check(&rt, rt.alloc(), OTHERS)
}

fn number_in(statement: &Statement) -> u32 {
    match statement {
        Statement::Return { at, .. } => *at,
        Statement::Block { at, .. } => *at,
        Statement::For { at, .. } => *at,
        Statement::Expression { at, .. } => *at,
        _ => 0,
    }
}

// The number of the statement that stands first among tokens that reach to the end of a unit of 100.
fn number_of_first(alloc: Global, scope: &mut Scope, tokens: &[Token]) -> Result<u32, ReadError> {
    let (statement, _) = first_within(alloc, 100, scope, tokens)?;
    Ok(number_in(statement.get()))
}

fn number_of(alloc: Global, text: &str) -> Result<Option<u32>, AllocError> {
    let tokens = tokens_of(alloc, text)?;
    let mut scope = types(alloc)?;
    match number_of_first(alloc, &mut scope, &tokens) {
        Ok(at) => Ok(Some(at)),
        Err(ReadError::Memory) => Err(AllocError),
        Err(ReadError::Fault(_)) => Ok(None),
    }
}

#[test]
fn a_statement_has_the_number_of_its_first_token(rt: HostRuntime) -> Result<(), Fail> {
    let alloc = rt.alloc();
    assert!(rt; number_of(alloc, "return a ; b")? == Some(96));
    assert!(rt; number_of(alloc, "{ a ; }")? == Some(96));
    assert!(rt; number_of(alloc, "for ( ; ; ) ;")? == Some(94));
    assert!(rt; number_of(alloc, "a ;")? == Some(98));
    assert!(rt; number_of(alloc, "a")? == None);
    Ok(())
}
