//! Parts of declarations, read and written again: the tokens stay the same.

use crate::{Parse, listed};
use f_expr_read::ReadError;
use f_lex::{Spanned, lex};
use f_tree::{
    Attribute, AttributeForm, Dimension, Entity, Initial, Intent, Lexemes, Only, PointerAttribute,
    ProcedurePointer, Rename, Spell, TypeAttribute, put_listed, text_of,
};
use jf_base::{List, Refusal};
use std::alloc::{AllocError, Global};
use std::test::Fail;

// The tokens of a line without the end of its statement, or none.
fn line(alloc: Global, text: &[u8]) -> Result<Vec<Spanned>, AllocError> {
    match lex(alloc, 0, 0, text) {
        Ok(mut tokens) => {
            tokens.pop();
            Ok(tokens)
        }
        Err(Refusal::Memory) => Err(AllocError),
        Err(Refusal::At { .. }) => Ok(Vec::new(alloc)),
    }
}

// Trees with commas between them, where they are all of a line.
fn read<T: Parse>(alloc: Global, text: &str) -> Result<Option<List<T>>, AllocError> {
    let tokens = line(alloc, text.as_bytes())?;
    match listed::<T>(alloc, &tokens) {
        Ok((items, rest)) => Ok(if rest.is_empty() { Some(items) } else { None }),
        Err(ReadError::Form) => Ok(None),
        Err(ReadError::Memory) => Err(AllocError),
    }
}

fn same(first: &[Spanned], second: &[Spanned]) -> bool {
    if first.len() != second.len() {
        return false;
    }
    for (a, b) in first.iter().zip(second.iter()) {
        if a.token != b.token {
            return false;
        }
    }
    true
}

// Whether a line of such trees is read, and written with the same tokens.
fn is_kept<T: Parse + Spell>(alloc: Global, text: &str) -> Result<bool, AllocError> {
    match read::<T>(alloc, text)? {
        None => Ok(false),
        Some(items) => {
            let mut out = Lexemes::new(alloc);
            put_listed(&mut out, items.as_slice())?;
            let written = text_of(alloc, &out.into_vec())?;
            let before = line(alloc, text.as_bytes())?;
            let after = line(alloc, &written)?;
            Ok(same(&before, &after))
        }
    }
}

#[test]
fn dimensions_are_kept(rt: HostRuntime) -> Result<(), Fail> {
    let kept = is_kept::<Dimension>(rt.alloc(), "n, 0:n+1, :, 2:, *, 2:*, 2**3:, ..")?;
    assert!(rt; kept);
    for text in ["1:2:3", "n,", "2:,:3", "* 2"] {
        let kept = is_kept::<Dimension>(rt.alloc(), text)?;
        assert!(rt; !kept, "of {text:?}");
    }
    Ok(())
}

#[test]
fn attributes_are_kept(rt: HostRuntime) -> Result<(), Fail> {
    for text in [
        "parameter, dimension(0:3, n), allocatable, pointer, target, optional",
        "value, contiguous, save, public, private",
        "bind(c), bind(c, name = 'put'), bind(c, name = k_'')",
        "intent(in), intent(out), intent(inout), intent(in out)",
    ] {
        let kept = is_kept::<Attribute>(rt.alloc(), text)?;
        assert!(rt; kept, "of {text:?}");
    }
    for text in [
        "external",
        "dimension",
        "dimension()",
        "bind(d)",
        "bind(c, 'x')",
        "intent(c)",
    ] {
        let kept = is_kept::<Attribute>(rt.alloc(), text)?;
        assert!(rt; !kept, "of {text:?}");
    }
    Ok(())
}

#[test]
fn an_attribute_is_no_other(rt: HostRuntime) -> Result<(), Fail> {
    let read = read::<Attribute>(rt.alloc(), "intent(in out), save")?;
    let forms = match &read {
        Some(all) => match all.as_slice() {
            [first, second] => (
                matches!(&first.form, AttributeForm::Intent(Intent::InOutTwoWords)),
                matches!(&second.form, AttributeForm::Save),
            ),
            _ => (false, false),
        },
        None => (false, false),
    };
    assert!(rt; forms == (true, true));
    Ok(())
}

#[test]
fn entities_are_kept(rt: HostRuntime) -> Result<(), Fail> {
    let text = "a, b(3), integer = 2*k, p => null(), real(:) = [1, 2], save";
    let kept = is_kept::<Entity>(rt.alloc(), text)?;
    assert!(rt; kept);
    for text in ["3", "a =", "p => q", "p => null", "b()"] {
        let kept = is_kept::<Entity>(rt.alloc(), text)?;
        assert!(rt; !kept, "of {text:?}");
    }
    Ok(())
}

#[test]
fn an_initial_value_is_told_from_null(rt: HostRuntime) -> Result<(), Fail> {
    let read = read::<Entity>(rt.alloc(), "null = null(), p => null()")?;
    let forms = match &read {
        Some(all) => match all.as_slice() {
            [first, second] => (
                matches!(&first.initial, Some(Initial::Value(_))),
                matches!(&second.initial, Some(Initial::Null { .. })),
            ),
            _ => (false, false),
        },
        None => (false, false),
    };
    assert!(rt; forms == (true, true));
    Ok(())
}

#[test]
fn names_of_modules_are_kept(rt: HostRuntime) -> Result<(), Fail> {
    let kept = is_kept::<Rename>(rt.alloc(), "a => b, only => use")?;
    assert!(rt; kept);
    let kept = is_kept::<Only>(rt.alloc(), "a, b => c, only")?;
    assert!(rt; kept);
    let kept = is_kept::<Rename>(rt.alloc(), "a => b, c")?;
    assert!(rt; !kept);
    Ok(())
}

#[test]
fn attributes_of_types_and_pointers_are_kept(rt: HostRuntime) -> Result<(), Fail> {
    let kept = is_kept::<TypeAttribute>(rt.alloc(), "bind(c), public, private")?;
    assert!(rt; kept);
    let kept = is_kept::<PointerAttribute>(rt.alloc(), "save, public, private")?;
    assert!(rt; kept);
    let kept = is_kept::<ProcedurePointer>(rt.alloc(), "p, q => null(), pointer")?;
    assert!(rt; kept);
    let kept = is_kept::<PointerAttribute>(rt.alloc(), "pointer")?;
    assert!(rt; !kept);
    Ok(())
}
