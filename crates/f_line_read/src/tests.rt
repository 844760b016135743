//! Single statements of executable parts.

use crate::{Construct, Line, read_line};
use f_expr_read::ReadError;
use f_lex::{Spanned, lex};
use f_tree::{Action, CaseChoice, LoopControl};
use jf_base::Refusal;
use std::alloc::{AllocError, Global};
use std::test::Fail;

// The tokens of a line without the end of its statement, or none.
fn statement(alloc: Global, text: &str) -> Result<Vec<Spanned>, AllocError> {
    match lex(alloc, 0, 0, text.as_bytes()) {
        Ok(mut tokens) => {
            tokens.pop();
            Ok(tokens)
        }
        Err(Refusal::Memory) => Err(AllocError),
        Err(Refusal::At { .. }) => Ok(Vec::new(alloc)),
    }
}

fn read(alloc: Global, text: &str) -> Result<Option<Line>, AllocError> {
    let tokens = statement(alloc, text)?;
    match read_line(alloc, &tokens) {
        Ok(line) => Ok(Some(line)),
        Err(ReadError::Form) => Ok(None),
        Err(ReadError::Memory) => Err(AllocError),
    }
}

#[test]
fn no_word_of_a_construct_is_reserved(rt: HostRuntime) -> Result<(), Fail> {
    for text in [
        "if (x) = 3",
        "do = 1",
        "else%if = 2",
        "case(1) = 2",
        "enddo = 4",
    ] {
        let line = read(rt.alloc(), text)?;
        assert!(rt;
            matches!(&line, Some(Line::Action(Action::Assign { .. }))),
            "of {text:?}"
        );
    }
    Ok(())
}

#[test]
fn if_goes_on_with_a_statement_or_then(rt: HostRuntime) -> Result<(), Fail> {
    let line = read(rt.alloc(), "if (a == b) exit")?;
    assert!(rt; matches!(&line, Some(Line::IfAction { .. })));
    let line = read(rt.alloc(), "if (a == b) then")?;
    assert!(rt; matches!(&line, Some(Line::IfThen { .. })));
    let line = read(rt.alloc(), "if (a == b) then = 3")?;
    assert!(rt; matches!(&line, Some(Line::IfAction { .. })));
    let none = read(rt.alloc(), "if (a) if (b) exit")?;
    assert!(rt; none.is_none());
    Ok(())
}

#[test]
fn a_loop_has_its_control(rt: HostRuntime) -> Result<(), Fail> {
    let line = read(rt.alloc(), "do, i = 1, 10, 2")?;
    let counted = match &line {
        Some(
            Line::Do {
                control: LoopControl::Count {
                    has_comma,
                    step,
                    ..
                },
                ..
            },
        ) => (*has_comma, step.is_some()),
        _ => (false, false),
    };
    assert!(rt; counted == (true, true));
    let line = read(rt.alloc(), "do while (i < 3)")?;
    let is_while = matches!(
        &line,
        Some(Line::Do {
            control: LoopControl::While { .. },
            ..
        })
    );
    assert!(rt; is_while);
    let line = read(rt.alloc(), "do")?;
    let is_endless = matches!(
        &line,
        Some(Line::Do {
            control: LoopControl::Endless,
            ..
        })
    );
    assert!(rt; is_endless);
    Ok(())
}

#[test]
fn a_case_has_its_ranges(rt: HostRuntime) -> Result<(), Fail> {
    let line = read(rt.alloc(), "case (1, 3:4, 7:, :0)")?;
    let ranges = match &line {
        Some(
            Line::Case {
                choice: CaseChoice::Ranges(all),
                ..
            },
        ) => all.len(),
        _ => 0,
    };
    assert!(rt; ranges == 4);
    let none = read(rt.alloc(), "case ()")?;
    assert!(rt; none.is_none());
    Ok(())
}

#[test]
fn an_end_has_its_words(rt: HostRuntime) -> Result<(), Fail> {
    let line = read(rt.alloc(), "end select")?;
    let ended = match &line {
        Some(
            Line::End {
                construct,
                is_one_word,
                ..
            },
        ) => (*construct == Construct::Select, *is_one_word),
        _ => (false, true),
    };
    assert!(rt; ended == (true, false));
    for text in ["end", "end if x", "endselect 1"] {
        let none = read(rt.alloc(), text)?;
        assert!(rt; none.is_none(), "of {text:?}");
    }
    Ok(())
}
