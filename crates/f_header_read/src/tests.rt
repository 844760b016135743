//! Heads and ends of units and procedures.

use crate::{end, head_behind, joined_by};
use f_declared::{Declared, Ended};
use f_expr_read::{ReadError, name_at, read_type};
use f_lex::{Spanned, lex};
use f_tree::{Head, Prefix, ProcedureKind};
use jf_base::{Place, Refusal};
use std::alloc::{AllocError, Global};
use std::test::Fail;

const PLACE: Place = Place {
    file: 0,
    line: 1,
    column: 1,
};

// The tokens of a line without the end of its statement, or none.
fn line(alloc: Global, text: &str) -> Result<Vec<Spanned>, AllocError> {
    match lex(alloc, 0, 0, text.as_bytes()) {
        Ok(mut tokens) => {
            tokens.pop();
            Ok(tokens)
        }
        Err(Refusal::Memory) => Err(AllocError),
        Err(Refusal::At { .. }) => Ok(Vec::new(alloc)),
    }
}

fn there(read: Result<Declared, ReadError>) -> Result<Option<Declared>, AllocError> {
    match read {
        Ok(statement) => Ok(Some(statement)),
        Err(ReadError::Form) => Ok(None),
        Err(ReadError::Memory) => Err(AllocError),
    }
}

// What an END statement ends, and whether a name stands behind its words, from the text behind END.
fn ended(alloc: Global, text: &str) -> Result<Option<(Ended, bool)>, AllocError> {
    let tokens = line(alloc, text)?;
    match there(end(alloc, PLACE, &tokens))? {
        Some(Declared::EndOf { what, name, .. }) => Ok(Some((what, name.is_some()))),
        _ => Ok(None),
    }
}

#[test]
fn end_says_what_ends(rt: HostRuntime) -> Result<(), Fail> {
    let read = ended(rt.alloc(), "program p")?;
    assert!(rt; read == Some((Ended::Program, true)));
    let read = ended(rt.alloc(), "function")?;
    assert!(rt; read == Some((Ended::Function, false)));
    let read = ended(rt.alloc(), "type end")?;
    assert!(rt; read == Some((Ended::Type, true)));
    let read = ended(rt.alloc(), "interface")?;
    assert!(rt; read == Some((Ended::Interface, false)));
    for text in ["interface put", "program p q", "do", "= 3"] {
        let read = ended(rt.alloc(), text)?;
        assert!(rt; read == None, "of {text:?}");
    }
    Ok(())
}

#[test]
fn end_may_be_joined_to_its_word(rt: HostRuntime) -> Result<(), Fail> {
    let tokens = line(rt.alloc(), "endsubroutine s")?;
    let read = match name_at(&tokens) {
        Some((word, place, rest)) => there(joined_by(rt.alloc(), place, word, rest))?,
        None => None,
    };
    let is_right = match &read {
        Some(
            Declared::EndOf {
                what,
                is_one_word,
                name,
                ..
            },
        ) => *what == Ended::Subroutine && *is_one_word && name.is_some(),
        _ => false,
    };
    assert!(rt; is_right);
    Ok(())
}

// The head that begins with a type.
fn head(alloc: Global, text: &str) -> Result<Option<Head>, AllocError> {
    let tokens = line(alloc, text)?;
    let (declared, rest) = match read_type(alloc, &tokens) {
        Ok(read) => read,
        Err(ReadError::Form) => return Ok(None),
        Err(ReadError::Memory) => return Err(AllocError),
    };
    match there(head_behind(alloc, Prefix::Type(declared), rest))? {
        Some(Declared::Head(head)) => Ok(Some(head)),
        _ => Ok(None),
    }
}

#[test]
fn a_head_has_its_parts(rt: HostRuntime) -> Result<(), Fail> {
    let head = head(
        rt.alloc(),
        "integer(4) recursive function result(a, b) bind(c, name = 'r') result(bind)",
    )?;
    let counted = match &head {
        Some(head) => (
            head.kind == ProcedureKind::Function,
            head.prefixes.len(),
            head.dummies.is_some(),
            head.suffixes.len(),
        ),
        None => (false, 0, false, 0),
    };
    assert!(rt; counted == (true, 2, true, 2));
    Ok(())
}

#[test]
fn a_function_has_its_parentheses(rt: HostRuntime) -> Result<(), Fail> {
    let none = head(rt.alloc(), "integer function f")?;
    assert!(rt; none.is_none());
    let none = head(rt.alloc(), "integer function f() result")?;
    assert!(rt; none.is_none());
    let none = head(rt.alloc(), "integer recursive")?;
    assert!(rt; none.is_none());
    let some = head(rt.alloc(), "integer subroutine s")?;
    assert!(rt; some.is_some());
    Ok(())
}
