//! Expressions that control groups.

use super::alone;
use std::alloc::{AllocError, Global};
use std::test::Fail;

// `1` where the expression isn't 0, and `0` where it is; or the broken rule.
fn group_of(alloc: Global, expression: &[u8]) -> Result<Vec<u8>, AllocError> {
    let mut text = Vec::new(alloc);
    text.extend_from_slice(b"#define A 2\n#define B\n#if ")?;
    text.extend_from_slice(expression)?;
    text.extend_from_slice(b"\n1\n#else\n0\n#endif\n")?;
    alone(alloc, &text)
}

#[test]
fn arithmetic_has_its_values(rt: HostRuntime) -> Result<(), Fail> {
    for expression in [
        b"6 * 7 == 42".as_slice(),
        b"-7 / 2 == -3",
        b"-7 % 2 == -1",
        b"2 + 3 == 5",
        b"2 - 3 == -1",
        b"1 << 4 == 16",
        b"-9 >> 1 == -5",
        b"(6 & 3) == 2",
        b"(6 ^ 3) == 5",
        b"(6 | 3) == 7",
        b"~0 == -1",
        b"+5 == 5",
        b"- -5 == 5",
    ] {
        assert_eq!(rt;
            group_of(rt.alloc(), expression)?.as_slice(),
            b"1 ".as_slice()
        );
    }
    Ok(())
}

#[test]
fn comparisons_that_hold(rt: HostRuntime) -> Result<(), Fail> {
    for expression in [
        b"1 < 2".as_slice(),
        b"2 > 1",
        b"2 <= 2",
        b"2 >= 2",
        b"2 == 2",
        b"1 != 2",
        b"!0",
        b"1 && 2",
        b"0 || 2",
        b"1 || 1 / 0",
        b"1 ? 2 : 1 / 0",
        b"0 ? 1 / 0 : 3",
        b"-1 > 0u",
    ] {
        assert_eq!(rt;
            group_of(rt.alloc(), expression)?.as_slice(),
            b"1 ".as_slice()
        );
    }
    Ok(())
}

#[test]
fn comparisons_that_do_not_hold(rt: HostRuntime) -> Result<(), Fail> {
    for expression in [
        b"2 < 2".as_slice(),
        b"2 > 2",
        b"3 <= 2",
        b"1 >= 2",
        b"1 == 2",
        b"2 != 2",
        b"!7",
        b"1 && 0",
        b"0 && 1 / 0",
        b"0 || 0",
        b"1 ? 0 : 1",
        b"-1 < 0u",
        b"x",
        b"else",
        b"0x0",
    ] {
        assert_eq!(rt;
            group_of(rt.alloc(), expression)?.as_slice(),
            b"0 ".as_slice()
        );
    }
    Ok(())
}

#[test]
fn operators_bind_and_group(rt: HostRuntime) -> Result<(), Fail> {
    for expression in [
        b"1 + 2 * 3 == 7".as_slice(),
        b"9 - 4 - 3 == 2",
        b"8 / 4 / 2 == 1",
        b"1 << 2 + 1 == 8",
        b"1 < 2 == 1",
        b"!(6 & 3 == 3)",
        b"(1 ^ 3 & 2) == 3",
        b"(4 | 1 ^ 1) == 4",
        b"1 || 0 && 0",
        b"(0 ? 1 : 0 ? 2 : 3) == 3",
        b"-1 - -1 == 0",
        b"!0 + 1 == 2",
        b"(1 ? 2 : (3, 4)) == 2",
    ] {
        assert_eq!(rt;
            group_of(rt.alloc(), expression)?.as_slice(),
            b"1 ".as_slice()
        );
    }
    Ok(())
}

#[test]
fn defined_asks_for_macros(rt: HostRuntime) -> Result<(), Fail> {
    for expression in [
        b"defined A".as_slice(),
        b"defined(A)",
        b"defined ( B ) && defined B",
        b"!defined C && !defined(C)",
        b"defined A + defined(B) == 2",
        b"A == 2 && defined A == 1",
        b"defined C == 0",
        b"-defined A < 0",
    ] {
        assert_eq!(rt;
            group_of(rt.alloc(), expression)?.as_slice(),
            b"1 ".as_slice()
        );
    }
    for expression in [
        b"defined".as_slice(),
        b"defined 1",
        b"defined (A",
        b"defined (1)",
        b"defined ()",
        b"defined (A B)",
        b"(defined) A",
    ] {
        assert_eq!(rt;
            group_of(rt.alloc(), expression)?.as_slice(),
            b"3:1: 503".as_slice()
        );
    }
    Ok(())
}

#[test]
fn characters_are_numbers(rt: HostRuntime) -> Result<(), Fail> {
    for expression in [
        b"'a' == 97".as_slice(),
        b"'\\n' == 10 && '\\t' == 9 && '\\r' == 13",
        b"'\\a' == 7 && '\\b' == 8 && '\\f' == 12 && '\\v' == 11",
        b"'\\'' == 39 && '\\\"' == 34 && '\\?' == 63 && '\\\\' == 92",
        b"'\\0' == 0 && '\\12' == 10 && '\\377' == 255",
        b"'\\xfF' == 255 && '\\x00041' == 65 && '\xff' == 255",
        b"-'a' < 0 && '\"' == 34",
    ] {
        assert_eq!(rt;
            group_of(rt.alloc(), expression)?.as_slice(),
            b"1 ".as_slice()
        );
    }
    Ok(())
}

#[test]
fn what_has_no_value_is_no_condition(rt: HostRuntime) -> Result<(), Fail> {
    for expression in [
        b"".as_slice(),
        b"B",
        b"1 +",
        b"(1",
        b"1)",
        b"1 2",
        b"1 ? 2",
        b"1 = 1",
        b"x++",
        b"\"a\"",
        b"1.5",
        b"A.x",
        b"L'a'",
        b"1 / 0",
        b"1 % 0",
        b"1 << 64",
        b"1 >> -1",
        b"9223372036854775807 + 1",
        b"18446744073709551616",
        b"1, 2",
        b"(1, 2)",
        b"#",
    ] {
        assert_eq!(rt;
            group_of(rt.alloc(), expression)?.as_slice(),
            b"3:1: 503".as_slice()
        );
    }
    Ok(())
}

#[test]
fn an_elif_has_an_expression_too(rt: HostRuntime) -> Result<(), Fail> {
    let alloc = rt.alloc();
    assert_eq!(rt;
        alone(
            alloc,
            b"#define A\n#if 0\n1\n#elif defined B\n2\n#elif defined(A) && 07 + 1 == 010\n3\n#elif 1\n4\n#endif"
        )?
        .as_slice(),
        b"3 ".as_slice()
    );
    assert_eq!(rt;
        alone(alloc, b"#if 0\n#elif 1 / 0\n#endif")?.as_slice(),
        b"2:1: 503".as_slice()
    );
    assert_eq!(rt;
        alone(
            alloc,
            b"#if 1\n#if 0\n1\n#else\n2\n#endif\n3\n#elif 1 / 0\n4\n#endif"
        )?
        .as_slice(),
        b"2 3 ".as_slice()
    );
    Ok(())
}
