//! Statements of single lines.

use crate::{Statement, read_statement};
use f_declared::Declared;
use f_expr_read::ReadError;
use f_lex::{Spanned, lex};
use f_line_read::Line;
use f_tree::Action;
use jf_base::Refusal;
use std::alloc::{AllocError, Global};
use std::test::Fail;

// The tokens of a line without the end of its statement, or none.
fn statement(alloc: Global, text: &str) -> Result<Vec<Spanned>, AllocError> {
    match lex(alloc, 0, 0, text.as_bytes()) {
        Ok(mut tokens) => {
            tokens.pop();
            Ok(tokens)
        }
        Err(Refusal::Memory) => Err(AllocError),
        Err(Refusal::At { .. }) => Ok(Vec::new(alloc)),
    }
}

fn read(alloc: Global, text: &str) -> Result<Option<Statement>, AllocError> {
    let tokens = statement(alloc, text)?;
    match read_statement(alloc, &tokens) {
        Ok(statement) => Ok(Some(statement)),
        Err(ReadError::Form) => Ok(None),
        Err(ReadError::Memory) => Err(AllocError),
    }
}

#[test]
fn no_keyword_is_reserved(rt: HostRuntime) -> Result<(), Fail> {
    for text in [
        "if (x) = 3",
        "do = 1",
        "use = 2",
        "integer(1) = 4",
        "end = 5",
    ] {
        let statement = read(rt.alloc(), text)?;
        assert!(rt;
            matches!(
                &statement,
                Some(Statement::Executable(Line::Action(Action::Assign { .. })))
            ),
            "of {text:?}"
        );
    }
    Ok(())
}

#[test]
fn a_word_begins_a_declaration(rt: HostRuntime) -> Result<(), Fail> {
    let statement = read(rt.alloc(), "use m, only: a => b")?;
    assert!(rt; matches!(&statement, Some(Statement::Declaring(Declared::Use(_)))));
    let statement = read(rt.alloc(), "end")?;
    assert!(rt; matches!(&statement, Some(Statement::Declaring(Declared::End { .. }))));
    let statement = read(rt.alloc(), "end do")?;
    assert!(rt; matches!(&statement, Some(Statement::Executable(Line::End { .. }))));
    let none = read(rt.alloc(), "use 3")?;
    assert!(rt; none.is_none());
    Ok(())
}
