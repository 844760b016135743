//! Bytes that may not stand where they stand, and comments and literals without their ends.

use super::{alone, shown};
use std::alloc::{AllocError, Global};
use std::test::Fail;

#[test]
fn a_foreign_byte_breaks_a_rule_in_text(rt: HostRuntime) -> Result<(), Fail> {
    for text in [
        b"\n$".as_slice(),
        b"a b\n$ c",
        b"//\n$",
        b"/*$*/\n$",
        b"a\\\n$",
        b"\"a\"\n$ 'b'",
        b"#define A\n$ A",
    ] {
        assert_eq!(rt; alone(rt.alloc(), text)?.as_slice(), b"2:1: 501".as_slice());
    }
    Ok(())
}

#[test]
fn a_foreign_byte_breaks_a_rule_in_directives(rt: HostRuntime) -> Result<(), Fail> {
    for text in [
        b"#\\\n$".as_slice(),
        b"#define A \\\n$",
        b"#define A(\\\n$",
        b"#undef \\\n$",
        b"#ifdef \\\n$",
        b"#if \\\n$ (",
        b"#include <\\\n$.h>",
        b"#pragma \\\n$",
        b"#error \\\n$",
        b"#bad \\\n$",
    ] {
        assert_eq!(rt; alone(rt.alloc(), text)?.as_slice(), b"2:1: 501".as_slice());
    }
    Ok(())
}

#[test]
fn a_foreign_byte_breaks_a_rule_in_skipped_groups(rt: HostRuntime) -> Result<(), Fail> {
    for text in [
        b"#if 0\n$\n#endif".as_slice(),
        b"#if 0\n$1.5 ##\n#endif",
        b"#if 0\n$\n#else x",
        b"#ifdef A\n$ (",
    ] {
        assert_eq!(rt; alone(rt.alloc(), text)?.as_slice(), b"2:1: 501".as_slice());
    }
    assert_eq!(rt;
        alone(rt.alloc(), b"#if 1\na\n#elif (\\\n$\n#endif")?.as_slice(),
        b"4:1: 501".as_slice()
    );
    assert_eq!(rt;
        alone(rt.alloc(), b"#if 0\n#error $\n#endif")?.as_slice(),
        b"2:8: 501".as_slice()
    );
    Ok(())
}

// The byte stands alone on the second line.
fn on_its_line(alloc: Global, byte: u8) -> Result<Vec<u8>, AllocError> {
    alone(alloc, &[b'\n', byte, b' '])
}

#[test]
fn each_byte_outside_the_character_set_is_foreign(rt: HostRuntime) -> Result<(), Fail> {
    for byte in [0u8, 1, 8, 13, 14, 27, 31, 36, 64, 96, 127, 128, 194, 255] {
        assert_eq!(rt;
            on_its_line(rt.alloc(), byte)?.as_slice(),
            b"2:1: 501".as_slice()
        );
    }
    for byte in [b' ', b'\t', 10, 11, 12] {
        assert_eq!(rt; on_its_line(rt.alloc(), byte)?.as_slice(), b"".as_slice());
    }
    Ok(())
}

#[test]
fn any_byte_stands_in_comments_and_literals(rt: HostRuntime) -> Result<(), Fail> {
    let alloc = rt.alloc();
    for text in [
        b"/*$@`\x00\x7f\x80\xff\r*/x".as_slice(),
        b"x//$@`\x00\x7f\x80\xff\r",
        b"#define A /*$*/ x //@\nA",
        b"#if 0 //$\n#else //@\nx\n#endif //`",
    ] {
        assert_eq!(rt; alone(alloc, text)?.as_slice(), b"x ".as_slice());
    }
    assert_eq!(rt;
        alone(alloc, b"\"$@`\x01\x7f\xe9\" '$' '\xff'")?.as_slice(),
        b"\"$@`\x01\x7f\xe9\" '$' '\xff' ".as_slice()
    );
    assert_eq!(rt;
        alone(alloc, b"#include \"$.h\"")?.as_slice(),
        b"library $.h".as_slice()
    );
    Ok(())
}

#[test]
fn a_backslash_or_a_mark_of_no_form_is_no_token(rt: HostRuntime) -> Result<(), Fail> {
    for text in [
        b"\n\\ a".as_slice(),
        b"\n...",
        b"\n1.5",
        b"\n08",
        b"\n0x",
        b"\n18446744073709551616",
        b"\nL'a'",
        b"\nu8\"a\"",
    ] {
        assert_eq!(rt; alone(rt.alloc(), text)?.as_slice(), b"2:1: 509".as_slice());
    }
    Ok(())
}

#[test]
fn a_hash_stands_in_directives_alone(rt: HostRuntime) -> Result<(), Fail> {
    for text in [b"\n##".as_slice(), b"\n%:%: a", b"a\\\n#", b"(\\\n%: x"] {
        assert_eq!(rt; alone(rt.alloc(), text)?.as_slice(), b"2:1: 506".as_slice());
    }
    assert_eq!(rt;
        alone(rt.alloc(), b"\na ??=??=")?.as_slice(),
        b"2:3: 506".as_slice()
    );
    Ok(())
}

#[test]
fn comments_and_literals_have_their_ends(rt: HostRuntime) -> Result<(), Fail> {
    for text in [
        b"\n'a".as_slice(),
        b"\n\"a\n\"",
        b"\nL'a",
        b"\n/* a",
        b"\n/*/",
        b"\n'\\'",
        b"\n\"\\\"",
        b"#define A \\\n'x",
        b"#define A \\\n/* x",
        b"#if \\\n'",
        b"#include \\\n\"a.h",
        b"#pragma \\\n'",
        b"#if 0\n'\n#endif",
        b"#if 0\n/* #endif",
    ] {
        assert_eq!(rt; alone(rt.alloc(), text)?.as_slice(), b"2:1: 502".as_slice());
    }
    Ok(())
}

#[test]
fn what_is_broken_in_a_header_stands_at_the_include(rt: HostRuntime) -> Result<(), Fail> {
    for text in [b"$".as_slice(), b"\n\n#define A $", b"#if 0\n$", b"x\\\n$"] {
        assert_eq!(rt;
            shown(rt.alloc(), b"x\n #include \"h.h\"", &[("h.h", text)], 0)?.as_slice(),
            b"2:2: 501".as_slice()
        );
    }
    assert_eq!(rt;
        shown(
            rt.alloc(),
            b"#include \"h.h\"\n$",
            &[("h.h", b"/*".as_slice())],
            0
        )?
        .as_slice(),
        b"1:1: 502".as_slice()
    );
    Ok(())
}

fn repeated(alloc: Global, byte: u8, count: usize) -> Result<Vec<u8>, AllocError> {
    let mut text = Vec::new(alloc);
    for _ in 0..count {
        text.push(byte)?;
    }
    Ok(text)
}

#[test]
fn a_file_has_at_most_a_mebibyte(rt: HostRuntime) -> Result<(), Fail> {
    let most = repeated(rt.alloc(), b' ', 1_048_576)?;
    assert_eq!(rt; alone(rt.alloc(), &most)?.as_slice(), b"".as_slice());
    Ok(())
}

#[test]
fn the_size_of_a_file_is_looked_at_first(rt: HostRuntime) -> Result<(), Fail> {
    let alloc = rt.alloc();
    let more = repeated(alloc, b'$', 1_048_577)?;
    assert_eq!(rt; alone(alloc, &more)?.as_slice(), b"1:1: 510".as_slice());
    assert_eq!(rt;
        shown(
            alloc,
            b"\n\n  #include \"h.h\"",
            &[("h.h", more.as_slice())],
            0
        )?
        .as_slice(),
        b"3:3: 510".as_slice()
    );
    Ok(())
}
