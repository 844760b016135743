//! Files of a few statements. A line break in a text and a semicolon mean the same, so most files are one line.

use crate::read_statements;
use f_lex::{Spanned, lex};
use f_line_read::Line;
use f_statement_read::Statement;
use f_tree::Action;
use jf_base::{Refusal, Tag};
use std::alloc::{AllocError, Global};
use std::test::Fail;

fn tokens(alloc: Global, text: &str) -> Result<Vec<Spanned>, AllocError> {
    match lex(alloc, 0, 0, text.as_bytes()) {
        Ok(tokens) => Ok(tokens),
        Err(Refusal::Memory) => Err(AllocError),
        Err(Refusal::At { .. }) => Ok(Vec::new(alloc)),
    }
}

// The number of the rule that is broken first, and its column; or how many statements there are.
fn read(alloc: Global, text: &str) -> Result<Result<usize, (u16, u32)>, AllocError> {
    let tokens = tokens(alloc, text)?;
    match read_statements(alloc, &tokens) {
        Ok(statements) => Ok(Ok(statements.len())),
        Err(Refusal::Memory) => Err(AllocError),
        Err(
            Refusal::At {
                place,
                tag: Tag(number),
            },
        ) => Ok(Err((number, place.column))),
    }
}

#[test]
fn units_are_files(rt: HostRuntime) -> Result<(), Fail> {
    assert!(rt;
        read(
            rt.alloc(),
            "program p; implicit none; integer :: i; i = 1; end program p"
        )? == Ok(5)
    );
    assert!(rt;
        read(
            rt.alloc(),
            "module m; contains; subroutine s; end; end module; function f(); end"
        )? == Ok(7)
    );
    assert!(rt; read(rt.alloc(), "")? == Ok(0));
    Ok(())
}

#[test]
fn a_misplaced_statement_is_told_by_its_first_token(rt: HostRuntime) -> Result<(), Fail> {
    assert!(rt;
        read(rt.alloc(), "program p; implicit none; use m; end program")? == Err((202, 27))
    );
    assert!(rt;
        read(
            rt.alloc(),
            "program p; if (a) then; else; else; end if; end"
        )? == Err((202, 31))
    );
    assert!(rt; read(rt.alloc(), "program p; end program q")? == Err((202, 12)));
    assert!(rt; read(rt.alloc(), "program p; do; end if; end do; end")? == Err((202, 16)));
    Ok(())
}

#[test]
fn a_unit_without_its_end_is_told_by_its_first_token(rt: HostRuntime) -> Result<(), Fail> {
    assert!(rt; read(rt.alloc(), "subroutine s; end; program p; do; i = 1")? == Err((202, 20)));
    Ok(())
}

#[test]
fn the_first_fault_is_told(rt: HostRuntime) -> Result<(), Fail> {
    assert!(rt; read(rt.alloc(), "program p; i = ; use m; end")? == Err((201, 12)));
    assert!(rt; read(rt.alloc(), "program p; do; use m; i = ; end")? == Err((202, 16)));
    Ok(())
}

#[test]
fn a_statement_has_its_end(rt: HostRuntime) -> Result<(), Fail> {
    let mut tokens = tokens(rt.alloc(), "program p; end")?;
    tokens.pop();
    let column = match read_statements(rt.alloc(), &tokens) {
        Err(
            Refusal::At {
                place,
                tag: Tag(201),
            },
        ) => place.column,
        _ => 0,
    };
    assert!(rt; column == 12);
    Ok(())
}

#[test]
fn no_keyword_is_reserved(rt: HostRuntime) -> Result<(), Fail> {
    let tokens = tokens(rt.alloc(), "program p; if (x) = 3; do = 1; end program")?;
    let statements = match read_statements(rt.alloc(), &tokens) {
        Ok(statements) => statements,
        Err(_) => Vec::new(rt.alloc()),
    };
    assert!(rt; statements.len() == 4);
    for statement in statements.split_at(1).1.split_at(2).0 {
        assert!(rt;
            matches!(
                statement,
                Statement::Executable(Line::Action(Action::Assign { .. }))
            )
        );
    }
    Ok(())
}

// A program of so many constructs, one in the other, and so many parentheses in the innermost.
fn nested(alloc: Global, constructs: u32, parentheses: u32) -> Result<String, AllocError> {
    let mut text = String::new(alloc);
    text.push_str("program p;")?;
    for _ in 0..constructs {
        text.push_str("do;")?;
    }
    text.push_str("print *,")?;
    for _ in 0..parentheses {
        text.push('(')?;
    }
    text.push('1')?;
    for _ in 0..parentheses {
        text.push(')')?;
    }
    for _ in 0..constructs {
        text.push_str(";end do")?;
    }
    text.push_str(";end")?;
    Ok(text)
}

#[test]
fn constructs_nest_64_deep(rt: HostRuntime) -> Result<(), Fail> {
    let text = nested(rt.alloc(), 64, 0)?;
    assert!(rt; read(rt.alloc(), text.as_str())? == Ok(131));
    let text = nested(rt.alloc(), 65, 0)?;
    assert!(rt; read(rt.alloc(), text.as_str())? == Err((203, 203)));
    Ok(())
}

#[test]
fn parentheses_are_counted_with_constructs(rt: HostRuntime) -> Result<(), Fail> {
    let text = nested(rt.alloc(), 0, 64)?;
    assert!(rt; read(rt.alloc(), text.as_str())? == Ok(3));
    let text = nested(rt.alloc(), 0, 65)?;
    assert!(rt; read(rt.alloc(), text.as_str())? == Err((203, 83)));
    let text = nested(rt.alloc(), 62, 3)?;
    assert!(rt; read(rt.alloc(), text.as_str())? == Err((203, 207)));
    Ok(())
}
