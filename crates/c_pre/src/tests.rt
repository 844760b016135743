mod bytes;
mod comments;
mod expressions;
mod literals;
mod places;
mod tokens;

use crate::{PreFault, expand};
use c_form::put_spelling;
use jf_base::tag_text;
use jf_outside::MemoryLibrary;
use std::alloc::{AllocError, Global};
use std::test::Fail;

fn library(alloc: Global, files: &[(&str, &[u8])]) -> Result<MemoryLibrary, AllocError> {
    let mut list = Vec::new(alloc);
    for (name, bytes) in files {
        list.push((String::from_str(alloc, name)?, bytes.to_vec(alloc)?))?;
    }
    Ok(MemoryLibrary::new(list, Vec::new(alloc)))
}

// The tokens of a text with a blank behind each; or the line, the column and the tag of the broken rule; or the name of the file that wasn't given.
fn shown(
    alloc: Global,
    text: &[u8],
    files: &[(&str, &[u8])],
    before: u32,
) -> Result<Vec<u8>, AllocError> {
    let mut library = library(alloc, files)?;
    let mut out = Vec::new(alloc);
    if before > 262_144 {
        return Ok(out);
    }
    match expand(alloc, 1, before, "q.c", text, &mut library) {
        Ok(tokens) => {
            for spanned in tokens.as_slice() {
                put_spelling(&mut out, &spanned.token)?;
                out.push(b' ')?;
            }
        }
        Err(PreFault::Memory) => out.push(b'?')?,
        Err(PreFault::Library { name }) => {
            out.extend_from_slice(b"library ")?;
            out.extend_from_slice(name.as_str().as_bytes())?;
        }
        Err(PreFault::At { place, tag }) => {
            let (line, column, number) = (place.line, place.column, tag.0);
            out.extend_from_slice(
                format!(in alloc; "{line}:{column}: {number}")?
                    .as_str()
                    .as_bytes(),
            )?;
        }
    }
    Ok(out)
}

fn alone(alloc: Global, text: &[u8]) -> Result<Vec<u8>, AllocError> {
    shown(alloc, text, &[], 0)
}

#[test]
fn macros_are_replaced(rt: HostRuntime) -> Result<(), Fail> {
    let alloc = rt.alloc();
    assert_eq!(rt;
        alone(alloc, b"#define A B\n#define B A\nint A;")?.as_slice(),
        b"int A ; ".as_slice()
    );
    assert_eq!(rt;
        alone(alloc, b"#define A 1 +\n#define B A A\nB x\n#undef A\nB")?.as_slice(),
        b"1 + 1 + x A A ".as_slice()
    );
    assert_eq!(rt;
        alone(alloc, b"#define F(x) x")?.as_slice(),
        b"1:1: 506".as_slice()
    );
    assert_eq!(rt;
        alone(alloc, b"#define A # x")?.as_slice(),
        b"1:1: 506".as_slice()
    );
    assert_eq!(rt;
        alone(alloc, b"#define A  1/**/2\n#define A 1 2\nA")?.as_slice(),
        b"1 2 ".as_slice()
    );
    assert_eq!(rt;
        alone(alloc, b"#define A 1 +2\n #define A 1+2\n")?.as_slice(),
        b"2:2: 507".as_slice()
    );
    assert_eq!(rt;
        alone(alloc, b"#define defined")?.as_slice(),
        b"1:1: 503".as_slice()
    );
    assert_eq!(rt;
        alone(alloc, b"#define A 1.5")?.as_slice(),
        b"1:1: 509".as_slice()
    );
    Ok(())
}

#[test]
fn groups_are_taken_and_skipped(rt: HostRuntime) -> Result<(), Fail> {
    let alloc = rt.alloc();
    assert_eq!(rt; alone(alloc, b"#if 1")?.as_slice(), b"1:1: 504".as_slice());
    assert_eq!(rt;
        alone(
            alloc,
            b"#if 0\na\n#elif 1\nb\n#elif (\nc\n#else\nd\n#endif\ne"
        )?
        .as_slice(),
        b"b e ".as_slice()
    );
    assert_eq!(rt;
        alone(
            alloc,
            b"#ifdef A\na\n#else\nb\n#endif\n#define A\n#ifndef A\nc\n#else\nd\n#endif"
        )?
        .as_slice(),
        b"b d ".as_slice()
    );
    assert_eq!(rt;
        alone(
            alloc,
            b"#if 0\n#error x\n#if (\n#else y\n#endif z\n#bad\n1.5 #\n#endif\nok"
        )?
        .as_slice(),
        b"ok ".as_slice()
    );
    assert_eq!(rt;
        alone(alloc, b"#if 0\n'\n#endif")?.as_slice(),
        b"2:1: 502".as_slice()
    );
    assert_eq!(rt; alone(alloc, b"#else")?.as_slice(), b"1:1: 504".as_slice());
    assert_eq!(rt;
        alone(alloc, b"#if 1\n#else x\n#endif")?.as_slice(),
        b"2:1: 503".as_slice()
    );
    assert_eq!(rt;
        alone(alloc, b"#if 1\n#else\n#elif 1\n#endif")?.as_slice(),
        b"3:1: 504".as_slice()
    );
    assert_eq!(rt;
        alone(alloc, b"x\n#error y")?.as_slice(),
        b"2:1: 508".as_slice()
    );
    assert_eq!(rt;
        alone(alloc, b"#pragma x\n#\n#line 3")?.as_slice(),
        b"3:1: 503".as_slice()
    );
    Ok(())
}

#[test]
fn expressions_have_values(rt: HostRuntime) -> Result<(), Fail> {
    let alloc = rt.alloc();
    for text in [
        b"#define A 2\n#if defined A && !defined(B) && A * 3 - 1 == 5\n1\n#endif".as_slice(),
        b"#if (1 ? 2 : 1 / 0) << 3 == 16 && 7 % 4 == 3 && -1 < 0 && ~0 == -1\n1\n#endif",
        b"#if -1 > 0u && 'a' == 97 && (5 & 3) == 1 && (5 | 2) == 7 && (5 ^ 1) == 4\n1\n#endif",
        b"#if x == 0 && (1 || 1 / 0) && 3 >= 2 && 2 <= 2 && 1 != 2 && 8 >> 1 == 4 && +1\n1\n#endif",
    ] {
        assert_eq!(rt; alone(alloc, text)?.as_slice(), b"1 ".as_slice());
    }
    for text in [
        b"#if 1 / 0\n#endif".as_slice(),
        b"#if\n#endif",
        b"#if 1.5\n#endif",
        b"#if defined\n#endif",
        b"#if (1\n#endif",
    ] {
        assert_eq!(rt; alone(alloc, text)?.as_slice(), b"1:1: 503".as_slice());
    }
    Ok(())
}

#[test]
fn headers_are_read(rt: HostRuntime) -> Result<(), Fail> {
    let alloc = rt.alloc();
    assert_eq!(rt;
        alone(alloc, b" #include \"h.h\"")?.as_slice(),
        b"library h.h".as_slice()
    );
    assert_eq!(rt;
        alone(alloc, b"#include <h.h>")?.as_slice(),
        b"1:1: 505".as_slice()
    );
    assert_eq!(rt;
        alone(alloc, b"#include h.h")?.as_slice(),
        b"1:1: 503".as_slice()
    );
    assert_eq!(rt;
        shown(
            alloc,
            b"#define H \"h.h\"\n#include H\nx",
            &[("h.h", b"#define x y\na".as_slice())],
            0
        )?
        .as_slice(),
        b"a y ".as_slice()
    );
    assert_eq!(rt;
        shown(
            alloc,
            b"\n  #include \"h.h\"",
            &[("h.h", b"a\n\n$".as_slice())],
            0
        )?
        .as_slice(),
        b"2:3: 501".as_slice()
    );
    assert_eq!(rt;
        shown(
            alloc,
            b"#include \"h.h\"",
            &[("h.h", b"a\n#include \"h.h\"".as_slice())],
            0
        )?
        .as_slice(),
        b"1:1: 505".as_slice()
    );
    assert_eq!(rt;
        alone(alloc, b"#include <stdbool.h>\n#include <stdbool.h>\ntrue")?.as_slice(),
        b"1 ".as_slice()
    );
    Ok(())
}

#[test]
fn tokens_are_counted(rt: HostRuntime) -> Result<(), Fail> {
    let alloc = rt.alloc();
    assert_eq!(rt;
        shown(alloc, b"a b", &[], 262_142)?.as_slice(),
        b"a b ".as_slice()
    );
    assert_eq!(rt;
        shown(alloc, b"a b c", &[], 262_142)?.as_slice(),
        b"1:5: 510".as_slice()
    );
    assert_eq!(rt;
        shown(alloc, b"#define A b c\na A", &[], 262_142)?.as_slice(),
        b"2:3: 510".as_slice()
    );
    Ok(())
}

// Sixteen files, each of which but the last includes the next.
fn chained(alloc: Global, last: &[u8]) -> Result<Vec<u8>, AllocError> {
    let files = [
        ("a", b"#include \"b\"".as_slice()),
        ("b", b"#include \"c\"".as_slice()),
        ("c", b"#include \"d\"".as_slice()),
        ("d", b"#include \"e\"".as_slice()),
        ("e", b"#include \"f\"".as_slice()),
        ("f", b"#include \"g\"".as_slice()),
        ("g", b"#include \"h\"".as_slice()),
        ("h", b"#include \"i\"".as_slice()),
        ("i", b"#include \"j\"".as_slice()),
        ("j", b"#include \"k\"".as_slice()),
        ("k", b"#include \"l\"".as_slice()),
        ("l", b"#include \"m\"".as_slice()),
        ("m", b"#include \"n\"".as_slice()),
        ("n", b"#include \"o\"".as_slice()),
        ("o", b"#include \"p\"".as_slice()),
        ("p", last),
        ("q", b"x".as_slice()),
    ];
    shown(alloc, b" #include \"a\"", &files, 0)
}

#[test]
fn includes_nest_sixteen_deep(rt: HostRuntime) -> Result<(), Fail> {
    let alloc = rt.alloc();
    assert_eq!(rt; chained(alloc, b"x")?.as_slice(), b"x ".as_slice());
    assert_eq!(rt;
        chained(alloc, b"#include \"q\"")?.as_slice(),
        b"1:2: 505".as_slice()
    );
    Ok(())
}

#[test]
fn tokens_are_counted_over_files(rt: HostRuntime) -> Result<(), Fail> {
    let alloc = rt.alloc();
    let files = [("h.h", b"a b".as_slice())];
    assert_eq!(rt;
        shown(alloc, b"#include \"h.h\"\nc", &files, 262_141)?.as_slice(),
        b"a b c ".as_slice()
    );
    assert_eq!(rt;
        shown(alloc, b"#include \"h.h\"\nc", &files, 262_142)?.as_slice(),
        b"2:1: 510".as_slice()
    );
    assert_eq!(rt;
        shown(alloc, b"\n #include \"h.h\"\nc", &files, 262_143)?.as_slice(),
        b"2:2: 510".as_slice()
    );
    Ok(())
}
