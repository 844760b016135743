use super::rows::OF_TEXTS;
use super::{is_text, says, text};
use crate::{Did, FIntrinsic, FOp, FValue, binary, intrinsic};
use std::alloc::Global;
use std::process::Abort;
use std::test::Fail;

/// An operation on texts, by its name in the table.
fn of_texts(alloc: Global, name: &str, s: &str, t: &str) -> Result<Option<Did<FValue>>, Fail> {
    let (a, b) = (text(alloc, s)?, text(alloc, t)?);
    Ok(match name {
        "==" => Some(binary(alloc, FOp::Equal, &a, &b)),
        "/=" => Some(binary(alloc, FOp::Unequal, &a, &b)),
        "<" => Some(binary(alloc, FOp::Less, &a, &b)),
        "<=" => Some(binary(alloc, FOp::LessEqual, &a, &b)),
        ">" => Some(binary(alloc, FOp::Greater, &a, &b)),
        ">=" => Some(binary(alloc, FOp::GreaterEqual, &a, &b)),
        "len_trim" => Some(intrinsic(alloc, FIntrinsic::LenTrim, &[a])),
        _ => None,
    })
}

/// Whether a row holds: a name, two texts and the answer.
fn holds(alloc: Global, row: &str) -> Result<bool, Fail> {
    let mut words = row.split('|');
    let (Some(name), Some(s), Some(t), Some(want)) = (
        words.next(),
        words.next(),
        words.next(),
        words.next(),
    ) else {
        return Ok(false);
    };
    Ok(match of_texts(alloc, name, s, t)? {
        Some(answer) => says(&answer, want),
        None => false,
    })
}

#[test]
fn comparisons_and_lengths(rt: HostRuntime) -> Result<(), Fail> {
    for row in OF_TEXTS.lines() {
        assert!(rt; holds(rt.alloc(), row)?, "{row}");
    }
    Ok(())
}

#[test]
fn texts_are_joined(rt: HostRuntime) -> Result<(), Fail> {
    let alloc = rt.alloc();
    let (a, b) = (text(alloc, "Ab ")?, text(alloc, "c")?);
    assert!(rt; is_text(&binary(alloc, FOp::Concat, &a, &b), b"Ab c"));
    Ok(())
}
