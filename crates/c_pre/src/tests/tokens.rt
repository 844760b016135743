//! How many tokens there may be, and what else the text gives.

use super::{alone, library, shown};
use crate::{PreFault, expand};
use jf_base::Tag;
use std::alloc::{AllocError, Global};
use std::test::Fail;

// Macros of which each is twice the one before, so that the last has so many times two tokens more; and then the last one.
fn doubled(alloc: Global, first: &str, times: u32) -> Result<Vec<u8>, AllocError> {
    let mut text = Vec::new(alloc);
    text.extend_from_slice(
        format!(in alloc; "#define A0 {first}\n")?
            .as_str()
            .as_bytes(),
    )?;
    for k in 0..times.min(99) {
        let next = k + 1;
        text.extend_from_slice(
            format!(in alloc; "#define A{next} A{k} A{k}\n")?
                .as_str()
                .as_bytes(),
        )?;
    }
    text.extend_from_slice(format!(in alloc; "A{times}\n")?.as_str().as_bytes())?;
    Ok(text)
}

// How many tokens a text has behind so many of other files; or the tag of the rule that it breaks.
fn count(alloc: Global, text: &[u8], before: u32) -> Result<usize, AllocError> {
    let mut files = library(alloc, &[])?;
    if before > 262_144 {
        return Ok(0);
    }
    match expand(alloc, 0, before, "q.c", text, &mut files) {
        Ok(tokens) => Ok(tokens.len()),
        Err(
            PreFault::At {
                tag: Tag(number),
                ..
            },
        ) => Ok(number as usize),
        Err(_) => Ok(0),
    }
}

#[test]
fn two_files_have_exactly_the_most_tokens(rt: HostRuntime) -> Result<(), Fail> {
    let alloc = rt.alloc();
    let half = doubled(alloc, "x", 17)?;
    assert_eq!(rt; count(alloc, &half, 0)?, 131_072);
    assert_eq!(rt; count(alloc, &half, 131_072)?, 131_072);
    assert_eq!(rt; count(alloc, &half, 131_073)?, 510);
    Ok(())
}

#[test]
fn a_bomb_of_macros_ends_at_the_most_tokens(rt: HostRuntime) -> Result<(), Fail> {
    let alloc = rt.alloc();
    assert_eq!(rt; count(alloc, &doubled(alloc, "x", 18)?, 0)?, 262_144);
    assert_eq!(rt; count(alloc, &doubled(alloc, "x", 60)?, 0)?, 510);
    Ok(())
}

#[test]
fn a_bomb_of_empty_macros_ends_at_once(rt: HostRuntime) -> Result<(), Fail> {
    let alloc = rt.alloc();
    assert_eq!(rt; count(alloc, &doubled(alloc, "", 90)?, 0)?, 0);
    assert_eq!(rt; count(alloc, &doubled(alloc, "", 90)?, 262_144)?, 0);
    Ok(())
}

#[test]
fn a_directive_gives_no_tokens(rt: HostRuntime) -> Result<(), Fail> {
    for text in [
        b"#pragma once upon 1.5 ## a time\nx".as_slice(),
        b"#\n # \nx",
        b"#define A y\n#undef A\n#undef A\nx",
        b"#include <stddef.h>\n#undef NULL\n#if 0\n#include <absent.h>\n#endif\n#if 1\nx\n#endif",
    ] {
        assert!(rt; alone(rt.alloc(), text)?.as_slice().ends_with(b"x "));
    }
    Ok(())
}

#[test]
fn a_hash_that_a_macro_might_give_is_refused(rt: HostRuntime) -> Result<(), Fail> {
    for text in [
        b"#define A #".as_slice(),
        b"#define A x ## y",
        b"#define A %:",
        b"#define A ??=x",
    ] {
        assert_eq!(rt; alone(rt.alloc(), text)?.as_slice(), b"1:1: 506".as_slice());
    }
    Ok(())
}

#[test]
fn a_group_ends_in_the_file_that_opens_it(rt: HostRuntime) -> Result<(), Fail> {
    let alloc = rt.alloc();
    assert_eq!(rt;
        shown(
            alloc,
            b"#include \"h.h\"\n#endif",
            &[("h.h", b"#if 1".as_slice())],
            0
        )?
        .as_slice(),
        b"1:1: 504".as_slice()
    );
    assert_eq!(rt;
        shown(
            alloc,
            b"#if 1\n#include \"h.h\"\n#endif",
            &[("h.h", b"#else".as_slice())],
            0
        )?
        .as_slice(),
        b"2:1: 504".as_slice()
    );
    assert_eq!(rt;
        alone(alloc, b"#if 1\n#if 1\n#if 0")?.as_slice(),
        b"1:1: 504".as_slice()
    );
    Ok(())
}
