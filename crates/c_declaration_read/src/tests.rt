//! Declarations as lists of tokens, of which each is spelled by one byte.

use crate::read_declaration;
use c_grammar::{Fault, Kind, ReadError, Token};
use c_scope::Scope;
use c_tree::{ConstantType, SpecifierWord};
use std::alloc::{AllocError, Global};
use std::test::Fail;

// `i` is `int`, `t` is `typedef`, `e` is `enum`, a digit is a constant, another letter is a name, and what is left is `;`.
fn token_of(byte: u8) -> Token {
    match byte {
        b'i' => Token::Word(SpecifierWord::Int),
        b't' => Token::Word(SpecifierWord::Typedef),
        b'e' => Token::Enum,
        b'0'..=b'9' => Token::Number((byte - b'0') as u64, ConstantType::Int),
        b'a'..=b'z' | b'A'..=b'Z' => Token::Name(byte as u32),
        b'{' => Token::BraceOpen,
        b'}' => Token::BraceClose,
        b'(' => Token::Open,
        b')' => Token::Close,
        b'*' => Token::Star,
        b'+' => Token::Plus,
        b'=' => Token::Equals,
        b',' => Token::Comma,
        _ => Token::Semi,
    }
}

fn tokens_of(alloc: Global, text: &[u8]) -> Result<Vec<Token>, AllocError> {
    let mut tokens = Vec::new(alloc);
    for byte in text {
        tokens.push(token_of(*byte))?;
    }
    Ok(tokens)
}

// How many tokens stand behind the declaration, or what is wrong.
fn behind(
    alloc: Global,
    scope: &mut Scope,
    text: &[u8],
) -> Result<Result<usize, Fault>, AllocError> {
    let tokens = tokens_of(alloc, text)?;
    match read_declaration(alloc, 0, 64, scope, &tokens) {
        Ok((_declaration, rest)) => Ok(Ok(rest.len())),
        Err(ReadError::Fault(fault)) => Ok(Err(fault)),
        Err(ReadError::Memory) => Err(AllocError),
    }
}

fn alone(alloc: Global, text: &[u8]) -> Result<Result<usize, Fault>, AllocError> {
    behind(alloc, &mut Scope::new(alloc), text)
}

#[test]
fn each_form_is_read_to_its_end(rt: HostRuntime) -> Result<(), Fail> {
    for text in [
        b"i;x".as_slice(),
        b"ia;x",
        b"ia,*b;x",
        b"ia=1,b=a+2;x",
        b"ia={1};x",
        b"ia={1,2,};x",
        b"ia={{1,2},{3},4};x",
        b"i(*a)(i,ib)=0;x",
        b"e{a,b=2,}c;x",
    ] {
        assert!(rt; alone(rt.alloc(), text)? == Ok(1), "of {text:?}");
    }
    Ok(())
}

#[test]
fn the_first_token_that_does_not_fit_is_told(rt: HostRuntime) -> Result<(), Fail> {
    for (text, left) in [
        (b"ia=;".as_slice(), 1),
        (b"ia={};", 2),
        (b"ia={1,,2};", 4),
        (b"ia={1;2};", 4),
        (b"ia={1,2;", 1),
        (b"i=1;", 3),
        (b"ia,;", 1),
        (b"ia)", 1),
        (b"ia", 0),
        (b"a;", 2),
    ] {
        let kind = Kind::Form;
        assert!(rt;
            alone(rt.alloc(), text)? == Err(Fault { kind, left }),
            "of {text:?}"
        );
    }
    Ok(())
}

// `int a = {{..{1}..}};` with so many braces.
fn braced(alloc: Global, braces: usize) -> Result<Result<usize, Fault>, AllocError> {
    let mut text = Vec::new(alloc);
    text.extend_from_slice(b"ia=")?;
    for _ in 0..braces {
        text.push(b'{')?;
    }
    text.push(b'1')?;
    for _ in 0..braces {
        text.push(b'}')?;
    }
    text.push(b';')?;
    alone(alloc, &text)
}

#[test]
fn initial_values_nest_at_most_64_deep(rt: HostRuntime) -> Result<(), Fail> {
    let (kind, left) = (Kind::Deep, 67);
    assert!(rt; braced(rt.alloc(), 64)? == Ok(0));
    assert!(rt; braced(rt.alloc(), 65)? == Err(Fault { kind, left }));
    Ok(())
}

#[test]
fn a_name_is_declared_before_its_initial_value(rt: HostRuntime) -> Result<(), Fail> {
    let alloc = rt.alloc();
    let mut scope = Scope::new(alloc);
    let kind = Kind::Form;
    assert!(rt; behind(alloc, &mut scope, b"tiT;")? == Ok(0));
    assert!(rt; scope.is_type(b'T' as u32));
    assert!(rt; behind(alloc, &mut scope, b"Ta=T;")? == Err(Fault { kind, left: 2 }));
    assert!(rt; behind(alloc, &mut scope, b"iT=T,b=T;")? == Ok(0));
    assert!(rt; !scope.is_type(b'T' as u32));
    Ok(())
}

#[test]
fn an_enumerator_and_a_later_declarator_hide_a_name_of_a_type(rt: HostRuntime) -> Result<(), Fail> {
    let alloc = rt.alloc();
    let mut scope = Scope::new(alloc);
    assert!(rt; behind(alloc, &mut scope, b"tiT,U;")? == Ok(0));
    assert!(rt; behind(alloc, &mut scope, b"e{T}a=T;")? == Ok(0));
    assert!(rt; behind(alloc, &mut scope, b"ib,U=b+U;")? == Ok(0));
    assert!(rt; !scope.is_type(b'T' as u32) && !scope.is_type(b'U' as u32));
    Ok(())
}
