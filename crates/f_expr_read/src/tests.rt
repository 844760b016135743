//! Trees of single texts.

use crate::{ReadError, read_expression, read_reference, read_type};
use f_lex::{Mark, Spanned, Token, lex};
use f_tree::{Expression, Level, TypeSpec};
use jf_base::Refusal;
use std::alloc::{AllocError, Global};
use std::test::Fail;

// The tokens of a text, or none.
fn lexed(alloc: Global, text: &str) -> Result<Vec<Spanned>, AllocError> {
    match lex(alloc, 0, 0, text.as_bytes()) {
        Ok(tokens) => Ok(tokens),
        Err(Refusal::Memory) => Err(AllocError),
        Err(Refusal::At { .. }) => Ok(Vec::new(alloc)),
    }
}

// The level of a chain, whether it has a sign, how many links it has, and how many tokens stand behind it.
fn chain_of(alloc: Global, text: &str) -> Result<Option<(Level, bool, usize, usize)>, AllocError> {
    let tokens = lexed(alloc, text)?;
    match read_expression(alloc, &tokens) {
        Err(ReadError::Memory) => Err(AllocError),
        Err(ReadError::Form) => Ok(None),
        Ok((e, rest)) => match &e {
            Expression::Chain {
                level,
                sign,
                links,
                ..
            } => Ok(Some((*level, sign.is_some(), links.len(), rest.len()))),
            _ => Ok(None),
        },
    }
}

#[test]
fn operators_bind_by_their_levels(rt: HostRuntime) -> Result<(), Fail> {
    let table = [
        ("a ** b ** c", Level::Power, false, 2, 1),
        ("a * b ** c / d", Level::Product, false, 2, 1),
        ("-a ** b + c", Level::Sum, true, 1, 1),
        ("a // b // c", Level::Concatenation, false, 2, 1),
        ("a + 1 == b == c", Level::Comparison, false, 1, 3),
        (".not. a == b", Level::Negation, true, 0, 1),
        ("a .and. .not. b .and. c", Level::Conjunction, false, 2, 1),
        ("a .and. b .or. c, d", Level::Disjunction, false, 1, 3),
        (".true. .eqv. a .neqv. b", Level::Equivalence, false, 2, 1),
    ];
    for (text, level, has_sign, links, rest) in table {
        assert!(rt;
            chain_of(rt.alloc(), text)? == Some((level, has_sign, links, rest)),
            "of {text:?}"
        );
    }
    Ok(())
}

// How many tokens stand behind the expression, or none where there is none.
fn behind(alloc: Global, text: &str) -> Result<Option<usize>, AllocError> {
    let tokens = lexed(alloc, text)?;
    match read_expression(alloc, &tokens) {
        Err(ReadError::Memory) => Err(AllocError),
        Err(ReadError::Form) => Ok(None),
        Ok((_, rest)) => Ok(Some(rest.len())),
    }
}

#[test]
fn primaries_are_told_from_what_is_none(rt: HostRuntime) -> Result<(), Fail> {
    let table = [
        ("1_8", Some(1)),
        ("(a)", Some(1)),
        ("f()", Some(1)),
        ("f(x, k = 1, :, 1:, :2:3, 1::2)", Some(1)),
        ("c(1)(2:3)%d(:)", Some(1)),
        ("[1, 2]", Some(1)),
        ("[integer ::]", Some(1)),
        ("[integer(kind = 8) :: integer, 2]", Some(1)),
        ("[integer(3)]", Some(1)),
        ("[]", None),
        ("[k = 1]", None),
        ("* a", None),
        ("(a", None),
        ("a(1:2", None),
        ("a * -b", None),
    ];
    for (text, wanted) in table {
        assert!(rt; behind(rt.alloc(), text)? == wanted, "of {text:?}");
    }
    Ok(())
}

#[test]
fn a_reference_ends_before_the_equals_sign(rt: HostRuntime) -> Result<(), Fail> {
    let tokens = lexed(rt.alloc(), "a%b(1:2)(3:)%c = 1")?;
    match read_reference(rt.alloc(), &tokens) {
        Err(_) => assert!(rt; false),
        Ok((r, rest)) => {
            assert!(rt; r.others.len() == 2);
            match rest.first() {
                None => assert!(rt; false),
                Some(next) => assert!(rt; next.token == Token::Mark(Mark::Assign)),
            }
        }
    }
    Ok(())
}

// How many parameters a type CHARACTER has, or none for another.
fn parameters_of(alloc: Global, text: &str) -> Result<Option<usize>, AllocError> {
    let tokens = lexed(alloc, text)?;
    match read_type(alloc, &tokens) {
        Err(ReadError::Memory) => Err(AllocError),
        Err(ReadError::Form) => Ok(None),
        Ok((TypeSpec::Character { parameters, .. }, _)) => Ok(match &parameters {
            None => Some(0),
            Some(all) => Some(all.len()),
        }),
        Ok(_) => Ok(None),
    }
}

#[test]
fn types_are_told_by_their_words(rt: HostRuntime) -> Result<(), Fail> {
    assert!(rt; parameters_of(rt.alloc(), "character :: c")? == Some(0));
    assert!(rt; parameters_of(rt.alloc(), "character(*, kind = 1) :: c")? == Some(2));
    assert!(rt; parameters_of(rt.alloc(), "character(len = 3, 1) :: c")? == Some(2));
    assert!(rt; parameters_of(rt.alloc(), "character() :: c")? == None);
    assert!(rt; parameters_of(rt.alloc(), "real :: c")? == None);
    Ok(())
}
