//! Constants and strings.

use super::alone;
use std::test::Fail;

#[test]
fn each_escape_stands_in_a_string(rt: HostRuntime) -> Result<(), Fail> {
    assert_eq!(rt;
        alone(
            rt.alloc(),
            b"\"\\'\\\"\\?\\\\\\a\\b\\f\\n\\r\\t\\v\\0\\12\\377\\1234\\x41\\xfFg\\x0000a\" \"\""
        )?
        .as_slice(),
        b"\"\\'\\\"\\?\\\\\\a\\b\\f\\n\\r\\t\\v\\0\\12\\377\\1234\\x41\\xfFg\\x0000a\" \"\" ".as_slice()
    );
    Ok(())
}

#[test]
fn each_escape_stands_in_a_character_constant(rt: HostRuntime) -> Result<(), Fail> {
    assert_eq!(rt;
        alone(
            rt.alloc(),
            b"'\\'' '\\\"' '\\?' '\\\\' '\\a' '\\b' '\\f' '\\n' '\\r' '\\t' '\\v' '\\0' '\\12' '\\377' '\\x41' '\\x000ff' 'a' '\"'"
        )?
        .as_slice(),
        b"'\\'' '\\\"' '\\?' '\\\\' '\\a' '\\b' '\\f' '\\n' '\\r' '\\t' '\\v' '\\0' '\\12' '\\377' '\\x41' '\\x000ff' 'a' '\"' ".as_slice()
    );
    Ok(())
}

#[test]
fn what_is_no_escape_is_no_token(rt: HostRuntime) -> Result<(), Fail> {
    for text in [
        b"'\\q'".as_slice(),
        b"\"\\q\"",
        b"'\\e'",
        b"'\\8'",
        b"'\\400'",
        b"\"\\777\"",
        b"'\\x'",
        b"\"\\xg\"",
        b"'\\x100'",
        b"'\\u0041'",
        b"''",
        b"'ab'",
        b"L\"a\"",
        b"U'a'",
    ] {
        assert_eq!(rt; alone(rt.alloc(), text)?.as_slice(), b"1:1: 509".as_slice());
    }
    Ok(())
}

#[test]
fn constants_keep_their_spelling(rt: HostRuntime) -> Result<(), Fail> {
    assert_eq!(rt;
        alone(
            rt.alloc(),
            b"0 017 0x1fU 0XABul 42LLu 18446744073709551615 0xffffffffffffffff 1Ull"
        )?
        .as_slice(),
        b"0 017 0x1fU 0XABul 42LLu 18446744073709551615 0xffffffffffffffff 1Ull ".as_slice()
    );
    for text in [
        b"1lL".as_slice(),
        b"1uu",
        b"1x",
        b"0b1",
        b"09",
        b"1.",
        b".5",
        b"1e3",
        b"0x10000000000000000",
    ] {
        assert_eq!(rt; alone(rt.alloc(), text)?.as_slice(), b"1:1: 509".as_slice());
    }
    Ok(())
}

#[test]
fn adjacent_strings_stay_apart(rt: HostRuntime) -> Result<(), Fail> {
    assert_eq!(rt;
        alone(rt.alloc(), b"#define S \"a\" \"b\"\nS\"c\"")?.as_slice(),
        b"\"a\" \"b\" \"c\" ".as_slice()
    );
    Ok(())
}
