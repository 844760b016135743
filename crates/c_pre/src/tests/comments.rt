//! Comments, splices and trigraphs.

use super::{alone, shown};
use std::test::Fail;

#[test]
fn a_comment_is_a_blank_in_text(rt: HostRuntime) -> Result<(), Fail> {
    for text in [
        b"/**/a b".as_slice(),
        b"a/**/b",
        b"a/*\n\n*/b",
        b"a//c\nb",
        b"a b//",
        b"a b/* c */",
        b"/*c*/\na b",
        b"a /*// */ b",
        b"a //*\nb",
        b"a/***/b/****/",
        b"a/*/**/b",
        b"a /*\"*/ b // '",
    ] {
        assert_eq!(rt; alone(rt.alloc(), text)?.as_slice(), b"a b ".as_slice());
    }
    Ok(())
}

#[test]
fn a_comment_is_a_blank_in_directives(rt: HostRuntime) -> Result<(), Fail> {
    for text in [
        b"/*c*/#/*c*/define/*c*/X/*c*/b/*c*/\na X".as_slice(),
        b"/*\n*/#/*\n*/define X/*\n*/b\na X",
        b"#define X b//c\na X",
        b"#define X//c\na X b",
        b"#if/*c*/1/*c*/\na b\n#endif/*c*/",
        b"#ifdef/**/X//c\n#else/*c*/\na b\n#endif//c",
        b"#if 0/*\n#endif\n*/\n#error\n#endif\na b",
        b"#undef/*\n*/X\na b",
        b"#pragma /*\n*/ x\na b",
        b"#/*c*/\na b",
    ] {
        assert_eq!(rt; alone(rt.alloc(), text)?.as_slice(), b"a b ".as_slice());
    }
    Ok(())
}

#[test]
fn a_directive_in_a_comment_is_none(rt: HostRuntime) -> Result<(), Fail> {
    for text in [
        b"/*\n#error\n*/a b".as_slice(),
        b"//#error\na b",
        b"a /*\n*/ b",
        b"a //\\\n#error\nb",
    ] {
        assert_eq!(rt; alone(rt.alloc(), text)?.as_slice(), b"a b ".as_slice());
    }
    assert_eq!(rt;
        alone(rt.alloc(), b"a /*\n*/ # b")?.as_slice(),
        b"2:4: 506".as_slice()
    );
    Ok(())
}

#[test]
fn comments_stand_around_names_of_headers(rt: HostRuntime) -> Result<(), Fail> {
    let files = [("h.h", b"/*\n*/a//\n/**/b//".as_slice())];
    for text in [
        b"#include/*c*/\"h.h\"/*c*/".as_slice(),
        b"/*c*/ #include \"h.h\"//c",
        b"#define H/**/\"h.h\"/**/\n#include H//",
    ] {
        assert_eq!(rt;
            shown(rt.alloc(), text, &files, 0)?.as_slice(),
            b"a b ".as_slice()
        );
    }
    Ok(())
}

#[test]
fn a_literal_holds_no_comment(rt: HostRuntime) -> Result<(), Fail> {
    assert_eq!(rt;
        alone(rt.alloc(), b"\"/*\" \"//\" '/' '*' \"*/\"")?.as_slice(),
        b"\"/*\" \"//\" '/' '*' \"*/\" ".as_slice()
    );
    Ok(())
}

#[test]
fn lines_are_joined_behind_backslashes(rt: HostRuntime) -> Result<(), Fail> {
    for text in [
        b"a\\\n b".as_slice(),
        b"a \\\n\\\n\\\nb",
        b"a /\\\n*c*\\\n/ b",
        b"a //c\\\nc\nb",
        b"#def\\\nine X\\\n b\na X",
        b"a \\\r\nb\r\n",
        b"a ??/\nb",
        b"??=define X b\na X",
        b"%:define X b\na X",
    ] {
        assert_eq!(rt; alone(rt.alloc(), text)?.as_slice(), b"a b ".as_slice());
    }
    assert_eq!(rt;
        alone(rt.alloc(), b"a\\\nb +\\\n+ \"x\\\ny\"")?.as_slice(),
        b"ab ++ \"xy\" ".as_slice()
    );
    Ok(())
}

#[test]
fn digraphs_keep_their_spelling_and_trigraphs_do_not(rt: HostRuntime) -> Result<(), Fail> {
    assert_eq!(rt;
        alone(
            rt.alloc(),
            b"<: :> <% %> ??( ??) ??< ??> ??' ??! ??- \"??/n\" ??"
        )?
        .as_slice(),
        b"<: :> <% %> [ ] { } ^ | ~ \"\\n\" ? ? ".as_slice()
    );
    Ok(())
}
