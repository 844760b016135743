//! Action statements of single lines.

use crate::read_action;
use f_expr_read::ReadError;
use f_lex::{Spanned, lex};
use f_tree::Action;
use jf_base::Refusal;
use std::alloc::{AllocError, Global};
use std::test::Fail;

// The tokens of a line without the end of its statement, or none.
fn statement(alloc: Global, text: &str) -> Result<Vec<Spanned>, AllocError> {
    match lex(alloc, 0, 0, text.as_bytes()) {
        Ok(mut tokens) => {
            tokens.pop();
            Ok(tokens)
        }
        Err(Refusal::Memory) => Err(AllocError),
        Err(Refusal::At { .. }) => Ok(Vec::new(alloc)),
    }
}

fn read(alloc: Global, text: &str) -> Result<Option<Action>, AllocError> {
    let tokens = statement(alloc, text)?;
    match read_action(alloc, &tokens) {
        Ok(action) => Ok(Some(action)),
        Err(ReadError::Form) => Ok(None),
        Err(ReadError::Memory) => Err(AllocError),
    }
}

#[test]
fn a_word_before_an_equals_sign_is_a_variable(rt: HostRuntime) -> Result<(), Fail> {
    for text in ["call = 1", "stop(2) = 1", "print%read = exit"] {
        let action = read(rt.alloc(), text)?;
        assert!(rt;
            matches!(&action, Some(Action::Assign { .. })),
            "of {text:?}"
        );
    }
    Ok(())
}

#[test]
fn an_arrow_associates_a_pointer(rt: HostRuntime) -> Result<(), Fail> {
    let action = read(rt.alloc(), "p => null()")?;
    assert!(rt; matches!(&action, Some(Action::Associate { .. })));
    Ok(())
}

#[test]
fn objects_end_at_their_status(rt: HostRuntime) -> Result<(), Fail> {
    let action = read(rt.alloc(), "allocate (a(3), b, stat = i)")?;
    let counted = match &action {
        Some(
            Action::Allocate {
                objects,
                status,
                ..
            },
        ) => (objects.len(), status.is_some()),
        _ => (0, false),
    };
    assert!(rt; counted == (2, true));
    Ok(())
}

#[test]
fn a_call_has_nothing_behind_its_arguments(rt: HostRuntime) -> Result<(), Fail> {
    let action = read(rt.alloc(), "call put(65_c_int, n)")?;
    let arguments = match &action {
        Some(
            Action::Call {
                arguments: Some(all),
                ..
            },
        ) => all.len(),
        _ => 0,
    };
    assert!(rt; arguments == 2);
    for text in ["call put(1)(2:3)", "call put%x", "call put(1) 2", "call"] {
        let none = read(rt.alloc(), text)?;
        assert!(rt; none.is_none(), "of {text:?}");
    }
    Ok(())
}

#[test]
fn items_of_print_and_read_are_counted(rt: HostRuntime) -> Result<(), Fail> {
    let action = read(rt.alloc(), "print *, 'a', 1 + 2, x")?;
    let printed = match &action {
        Some(Action::Print { items, .. }) => items.len(),
        _ => 0,
    };
    assert!(rt; printed == 3);
    let action = read(rt.alloc(), "read (*, *, iostat = k) i, j")?;
    let taken = match &action {
        Some(
            Action::ReadUnit {
                status,
                targets,
                ..
            },
        ) => (targets.len(), status.is_some()),
        _ => (0, false),
    };
    assert!(rt; taken == (2, true));
    Ok(())
}

#[test]
fn stop_codes(rt: HostRuntime) -> Result<(), Fail> {
    let action = read(rt.alloc(), "error stop 3")?;
    let stopped = match &action {
        Some(Action::Stop { is_error, code, .. }) => (*is_error, code.is_some()),
        _ => (false, false),
    };
    assert!(rt; stopped == (true, true));
    let action = read(rt.alloc(), "stop")?;
    let stopped = match &action {
        Some(Action::Stop { is_error, code, .. }) => (*is_error, code.is_some()),
        _ => (true, true),
    };
    assert!(rt; stopped == (false, false));
    Ok(())
}
