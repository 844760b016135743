//! Choices, and labels inside of them.

use super::shown::{other_of, word_of};
use super::words::tokens_of;
use super::{check, first_of, types};
use c_grammar::{ReadError, Token};
use c_scope::Scope;
use c_tree::Statement;
use std::alloc::{AllocError, Global};
use std::test::Fail;

const IFS: &str = "if ( a ) b ; => if expression
if ( a ) b ; else c ; => if-else expression
if ( a ) if ( b ) c ; else d ; => if if-else expression
if ( a ) { if ( b ) c ; } else d ; => if-else block if expression
if ( a ) if ( b ) c ; else d ; else e ; => if-else if-else expression
if ( a ) while ( b ) if ( c ) d ; else e ; => if while if-else expression
if ( a ) do if ( b ) c ; while ( d ) ; else e ; => if-else do if expression
if ( a ) case 1 : if ( b ) c ; else d ; => if case if-else expression
if ( a ) ; else ; else ; => if-else nothing .. 2
if ( a , b ) ; c => if nothing .. 1";

const SWITCHES: &str =
    "switch ( a ) { case 1 : b ; case 2 : c ; break ; default : d ; } => switch block default expression
switch ( a ) { case 0 : do { b ; case 1 : c ; } while ( d ) ; } => switch block case do block case expression
switch ( a ) case 1 : case 2 : default : b ; => switch case case default expression
switch ( a ) { b ; } => switch block expression
switch ( a ) { } => switch block
case a ? b : c : d ; => case expression
default : { } => default block
{ case 1 : ; int a ; } => block declaration";

#[test]
fn an_else_belongs_to_the_nearest_if(rt: HostRuntime) -> Result<(), Fail> {
    check(&rt, rt.alloc(), IFS)
}

#[test]
fn labels_stand_anywhere_in_a_switch(rt: HostRuntime) -> Result<(), Fail> {
    check(&rt, rt.alloc(), SWITCHES)
}

fn word_behind_else(statement: &Statement) -> &'static str {
    match other_of(statement) {
        None => "no else",
        Some(other) => word_of(other),
    }
}

fn other_of_first(
    alloc: Global,
    scope: &mut Scope,
    tokens: &[Token],
) -> Result<&'static str, ReadError> {
    let (statement, _) = first_of(alloc, scope, tokens)?;
    Ok(word_behind_else(statement.get()))
}

// What stands behind the `else` of a text's statement.
fn other_word(alloc: Global, text: &str) -> Result<&'static str, AllocError> {
    let tokens = tokens_of(alloc, text)?;
    let mut scope = types(alloc)?;
    match other_of_first(alloc, &mut scope, &tokens) {
        Ok(word) => Ok(word),
        Err(ReadError::Memory) => Err(AllocError),
        Err(ReadError::Fault(_)) => Ok("fault"),
    }
}

#[test]
fn what_stands_behind_an_else(rt: HostRuntime) -> Result<(), Fail> {
    let alloc = rt.alloc();
    assert_eq!(rt; other_word(alloc, "if ( a ) b ; else return ;")?, "return");
    assert_eq!(rt;
        other_word(alloc, "if ( a ) b ; else if ( c ) d ; else e ;")?,
        "if-else"
    );
    assert_eq!(rt;
        other_word(alloc, "if ( a ) if ( b ) c ; else d ;")?,
        "no else"
    );
    Ok(())
}
