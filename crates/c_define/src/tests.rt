use crate::{Definitions, Written};
use c_token::{CSpanned, CToken, Mark};
use jf_base::{List, Place};
use std::alloc::{AllocError, Global};
use std::test::Fail;

const PLACE: Place = Place {
    file: 2,
    line: 3,
    column: 5,
};

fn id(alloc: Global, name: &[u8]) -> Result<CToken, AllocError> {
    Ok(CToken::Id(List::from_vec(name.to_vec(alloc)?)))
}

fn written(alloc: Global, spelling: &[u8]) -> Result<Vec<Written>, AllocError> {
    let mut list = Vec::new(alloc);
    list.push(Written {
        spelling: List::from_vec(spelling.to_vec(alloc)?),
        after_blank: true,
    })?;
    Ok(list)
}

fn body(alloc: Global, first: CToken, second: CToken) -> Result<Vec<CToken>, AllocError> {
    let mut list = Vec::new(alloc);
    list.push(first)?;
    list.push(second)?;
    Ok(list)
}

// The names and commas that a name expands to, or `-` where they are more than three tokens.
fn expanded(alloc: Global, macros: &mut Definitions, name: &[u8]) -> Result<String, AllocError> {
    let mut tokens: Vec<CSpanned> = Vec::new(alloc);
    let mut out = String::new(alloc);
    if !macros.expand(alloc, name, PLACE, &mut tokens, 3)? {
        out.push('-')?;
        return Ok(out);
    }
    for spanned in tokens.as_slice() {
        match &spanned.token {
            CToken::Id(name) => {
                for byte in name.as_slice() {
                    out.push(*byte as char)?;
                }
            }
            _ => out.push(',')?,
        }
    }
    Ok(out)
}

// A macro more, where its name is none yet.
fn add(
    alloc: Global,
    macros: &mut Definitions,
    name: &[u8],
    tokens: Vec<CToken>,
    spelling: &[u8],
) -> Result<(), AllocError> {
    if macros.is_macro(name) {
        return Ok(());
    }
    let list = written(alloc, spelling)?;
    macros.define(alloc, name, tokens, List::from_vec(list))?;
    Ok(())
}

// `A` is `B ,`.
fn one_macro(alloc: Global) -> Result<Definitions, AllocError> {
    let mut macros = Definitions::new(alloc);
    let tokens = body(alloc, id(alloc, b"B")?, CToken::Mark(Mark::Comma))?;
    add(alloc, &mut macros, b"A", tokens, b"B")?;
    Ok(macros)
}

// And `B` is `A A`.
fn two_macros(alloc: Global) -> Result<Definitions, AllocError> {
    let mut macros = one_macro(alloc)?;
    let tokens = body(alloc, id(alloc, b"A")?, id(alloc, b"A")?)?;
    add(alloc, &mut macros, b"B", tokens, b"A")?;
    Ok(macros)
}

// So many tokens has `B`, or none where they are more than the limit.
fn count(alloc: Global, limit: usize) -> Result<Option<usize>, AllocError> {
    let mut macros = two_macros(alloc)?;
    let mut tokens: Vec<CSpanned> = Vec::new(alloc);
    if macros.expand(alloc, b"B", PLACE, &mut tokens, limit)? {
        Ok(Some(tokens.len()))
    } else {
        Ok(None)
    }
}

// Whether `A` was written so.
fn is_written(alloc: Global, spelling: &[u8]) -> Result<Option<bool>, AllocError> {
    let macros = one_macro(alloc)?;
    let list = written(alloc, spelling)?;
    Ok(macros.is_same(b"A", &list))
}

#[test]
fn a_name_expands(rt: HostRuntime) -> Result<(), Fail> {
    let mut macros = one_macro(rt.alloc())?;
    assert_eq!(rt; expanded(rt.alloc(), &mut macros, b"A")?.as_str(), "B,");
    Ok(())
}

#[test]
fn a_name_stays_inside_its_own_expansion(rt: HostRuntime) -> Result<(), Fail> {
    let mut macros = two_macros(rt.alloc())?;
    assert_eq!(rt; expanded(rt.alloc(), &mut macros, b"A")?.as_str(), "AA,");
    Ok(())
}

#[test]
fn a_name_that_is_no_macro_stays(rt: HostRuntime) -> Result<(), Fail> {
    let mut macros = two_macros(rt.alloc())?;
    macros.undefine(b"A");
    assert_eq!(rt; expanded(rt.alloc(), &mut macros, b"B")?.as_str(), "AA");
    Ok(())
}

#[test]
fn what_is_too_long_is_told(rt: HostRuntime) -> Result<(), Fail> {
    assert_eq!(rt; count(rt.alloc(), 4)?, Some(4));
    assert_eq!(rt; count(rt.alloc(), 3)?, None);
    Ok(())
}

#[test]
fn replacement_lists_are_compared(rt: HostRuntime) -> Result<(), Fail> {
    assert_eq!(rt; is_written(rt.alloc(), b"B")?, Some(true));
    assert_eq!(rt; is_written(rt.alloc(), b"C")?, Some(false));
    Ok(())
}
