use crate::{Delimiter, Head, Rule, first_ill, head_at, header_of, row_at, spelled, tag_number};
use c_text::lexemes;
use std::alloc::{AllocError, Global};
use std::test::Fail;

fn letter_of(head: Head) -> char {
    match head {
        Head::Text => 't',
        Head::Null => '0',
        Head::Include => 'i',
        Head::Define => 'd',
        Head::Undef => 'u',
        Head::If => 'f',
        Head::Ifdef => 'y',
        Head::Ifndef => 'n',
        Head::Elif => 'l',
        Head::Else => 'e',
        Head::Endif => 'x',
        Head::Error => 'r',
        Head::Pragma => 'p',
        Head::Unknown => '?',
    }
}

// Of each line a letter for its directive, and how many lexemes stand behind its name.
fn shown(alloc: Global, text: &[u8]) -> Result<String, AllocError> {
    let mut out = String::new(alloc);
    if text.len() > 1000 {
        return Ok(out);
    }
    let lexemes = lexemes(alloc, text)?;
    let mut rest = lexemes.as_slice();
    'lines: while !rest.is_empty() {
        let (row, behind) = row_at(rest);
        let (head, tail) = head_at(row);
        out.push(letter_of(head))?;
        let count = tail.len();
        out.push_str(format!(in alloc; "{count}")?.as_str())?;
        rest = behind;
    }
    Ok(out)
}

#[test]
fn lines_are_cut_and_directives_are_told(rt: HostRuntime) -> Result<(), Fail> {
    let alloc = rt.alloc();
    assert_eq!(rt;
        shown(
            alloc,
            b"a b\n\n#\n# define A 1\n%:undef A\n/* \n */ # if 1 //x\nx # y\n"
        )?
        .as_str(),
        "t2t000d2u1f1t3"
    );
    assert_eq!(rt;
        shown(
            alloc,
            b"#ifdef A\n#ifndef A\n#elif 1\n#else\n#endif\n#error a b\n#pragma\n#line 3\n#3"
        )?
        .as_str(),
        "y1n1l1e0x0r2p0?1?0"
    );
    Ok(())
}

#[test]
fn names_of_headers_are_read(rt: HostRuntime) {
    assert!(rt;
        matches!(header_of(b"<a.h>"), Some((Delimiter::Angle, name)) if name == b"a.h".as_slice())
    );
    assert!(rt;
        matches!(header_of(b"\"a.h\""), Some((Delimiter::Quote, name)) if name == b"a.h".as_slice())
    );
    assert!(rt; header_of(b"<a.h> x").is_none());
    assert!(rt; header_of(b"<>").is_none());
    assert!(rt; header_of(b"a.h").is_none());
}

#[test]
fn lines_are_spelled_and_ill_ones_told(rt: HostRuntime) -> Result<(), Fail> {
    let alloc = rt.alloc();
    let lexemes = lexemes(alloc, b" <  a/**/b> $'")?;
    assert_eq!(rt;
        spelled(alloc, &lexemes)?.as_slice(),
        b"< a b> $'".as_slice()
    );
    match first_ill(&lexemes) {
        Some(fault) => assert_eq!(rt; tag_number(fault.rule), 501),
        None => assert!(rt; false),
    }
    assert_eq!(rt; tag_number(Rule::TooMany), 510);
    Ok(())
}
