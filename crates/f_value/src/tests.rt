mod numbers;
mod rows;
mod texts;

ghost use Rattle.std.specs.Prelude.{◌≡◌, IfOk};

use crate::{Did, FIntrinsic, FOp, FValue, binary, intrinsic, unary};
use jf_base::List;
use std::alloc::Global;
use std::process::Abort;
use std::test::Fail;

fn int(value: i128, kind: u8) -> FValue
    ensures { result ≡ FValue.Int value kind }
{
    FValue::Int { value, kind }
}

fn truth(value: bool) -> FValue
    ensures { result ≡ FValue.Logical value 4 }
{
    FValue::Logical { value, kind: 4 }
}

fn text(alloc: Global, s: &str) -> Result<FValue, Fail>
    ensures { IfOk result (λ v. v ≡ FValue.Text s.now) }
{
    let bytes = Vec::from_slice(alloc, s.as_bytes())?;
    Ok(FValue::Text(List::from_vec(bytes)))
}

/// Whether a number is the one that a row of a table writes.
fn is_written(value: i128, word: &str) -> bool {
    match word.parse::<i64>() {
        Ok(number) => value == i128::from(number),
        Err(_) => false,
    }
}

/// Whether an answer is what a row of a table writes: a number, 1 or 0 for a truth value, or the word of a violation.
fn says(answer: &Did<FValue>, word: &str) -> bool {
    match answer {
        Did::Done(FValue::Int { value, .. }) => is_written(*value, word),
        Did::Done(FValue::Logical { value, .. }) => is_written(if *value { 1 } else { 0 }, word),
        Did::Done(FValue::Text(_)) | Did::Memory => false,
        Did::Violation(tag) => match tag.0 {
            908 => word == "kind",
            909 => word == "zero",
            910 => word == "shift",
            916 => word == "lengths",
            927 => word == "byte",
            _ => false,
        },
    }
}

/// Whether an answer is a text of these bytes.
fn is_text(answer: &Did<FValue>, bytes: &[u8]) -> bool {
    match answer {
        Did::Done(FValue::Text(found)) => found.as_slice() == bytes,
        _ => false,
    }
}

#[test]
fn truth_values(rt: HostRuntime) {
    let alloc = rt.alloc();
    for (a, b, and, or, eqv, neqv) in [
        (false, false, "0", "0", "1", "0"),
        (false, true, "0", "1", "0", "1"),
        (true, false, "0", "1", "0", "1"),
        (true, true, "1", "1", "1", "0"),
    ] {
        assert!(rt; says(&binary(alloc, FOp::And, &truth(a), &truth(b)), and));
        assert!(rt; says(&binary(alloc, FOp::Or, &truth(a), &truth(b)), or));
        assert!(rt; says(&binary(alloc, FOp::Eqv, &truth(a), &truth(b)), eqv));
        assert!(rt; says(&binary(alloc, FOp::Neqv, &truth(a), &truth(b)), neqv));
    }
    assert!(rt; says(&unary(FOp::Not, &truth(true)), "0"));
    assert!(rt; says(&unary(FOp::Add, &int(-7, 2)), "-7"));
}

#[test]
fn numbers_are_characters(rt: HostRuntime) -> Result<(), Fail> {
    let alloc = rt.alloc();
    assert!(rt; is_text(&intrinsic(alloc, FIntrinsic::Char, &[int(65, 4)]), b"A"));
    assert!(rt; is_text(&intrinsic(alloc, FIntrinsic::Achar, &[int(255, 2)]), &[255]));
    assert!(rt; is_text(&intrinsic(alloc, FIntrinsic::Char, &[int(0, 1)]), &[0]));
    assert!(rt; says(&intrinsic(alloc, FIntrinsic::Char, &[int(256, 4)]), "byte"));
    assert!(rt; says(&intrinsic(alloc, FIntrinsic::Achar, &[int(-1, 4)]), "byte"));
    assert!(rt;
        says(
            &intrinsic(alloc, FIntrinsic::Int, &[int(2147483648, 8)]),
            "kind"
        )
    );
    let letter = text(alloc, "a")?;
    assert!(rt; says(&intrinsic(alloc, FIntrinsic::Ichar, &[letter]), "97"));
    let mark = text(alloc, "~")?;
    assert!(rt; says(&intrinsic(alloc, FIntrinsic::Iachar, &[mark]), "126"));
    Ok(())
}

#[test]
fn one_of_two_is_chosen(rt: HostRuntime) -> Result<(), Fail> {
    let alloc = rt.alloc();
    assert!(rt;
        says(
            &intrinsic(
                alloc,
                FIntrinsic::Merge,
                &[int(3, 1), int(5, 1), truth(true)]
            ),
            "3"
        )
    );
    assert!(rt;
        says(
            &intrinsic(
                alloc,
                FIntrinsic::Merge,
                &[truth(true), truth(false), truth(false)]
            ),
            "0"
        )
    );
    let (one, other) = (text(alloc, "ab")?, text(alloc, "cd")?);
    assert!(rt;
        is_text(
            &intrinsic(alloc, FIntrinsic::Merge, &[one, other, truth(false)]),
            b"cd"
        )
    );
    let (short, long) = (text(alloc, "ab")?, text(alloc, "abc")?);
    assert!(rt;
        says(
            &intrinsic(alloc, FIntrinsic::Merge, &[short, long, truth(true)]),
            "lengths"
        )
    );
    Ok(())
}

#[test]
fn the_greatest_and_the_least_of_many(rt: HostRuntime) {
    let alloc = rt.alloc();
    assert!(rt;
        says(
            &intrinsic(alloc, FIntrinsic::Max, &[int(2, 4), int(-9, 4), int(7, 4)]),
            "7"
        )
    );
    assert!(rt;
        says(
            &intrinsic(alloc, FIntrinsic::Min, &[int(2, 4), int(-9, 4), int(7, 4)]),
            "-9"
        )
    );
}
