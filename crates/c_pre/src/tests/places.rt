//! Places of tokens.

use super::library;
use crate::expand;
use std::alloc::{AllocError, Global};
use std::test::Fail;

// The file, the line and the column of each token, with a blank before each.
fn places(alloc: Global, text: &[u8], files: &[(&str, &[u8])]) -> Result<String, AllocError> {
    let mut out = String::new(alloc);
    let mut library = library(alloc, files)?;
    match expand(alloc, 7, 0, "q.c", text, &mut library) {
        Err(_) => out.push('?')?,
        Ok(tokens) => {
            for spanned in tokens.as_slice() {
                let place = spanned.place;
                let (file, line, column) = (place.file, place.line, place.column);
                out.push_str(format!(in alloc; " {file}:{line}:{column}")?.as_str())?;
            }
        }
    }
    Ok(out)
}

#[test]
fn a_token_of_the_text_has_its_own_place(rt: HostRuntime) -> Result<(), Fail> {
    let found = places(rt.alloc(), b"\n a\\\n b /*\n*/ c+ +\n", &[])?;
    assert_eq!(rt; found.as_str(), " 7:2:2 7:3:2 7:4:4 7:4:5 7:4:7");
    Ok(())
}

#[test]
fn a_token_of_a_macro_has_the_place_of_its_name(rt: HostRuntime) -> Result<(), Fail> {
    let text = b"#define A x 1\n#define B A z\n q B\n#undef A\n#define A\n A B";
    let found = places(rt.alloc(), text, &[])?;
    assert_eq!(rt; found.as_str(), " 7:3:2 7:3:4 7:3:4 7:3:4 7:6:4");
    Ok(())
}

#[test]
fn a_token_of_a_header_has_the_place_of_the_include(rt: HostRuntime) -> Result<(), Fail> {
    let files = [
        (
            "h.h",
            b"a\n#define M b c\n\n    #include \"i.h\"\n M".as_slice(),
        ),
        ("i.h", b"\n\n d".as_slice()),
    ];
    let found = places(rt.alloc(), b"\n #include \"h.h\"\n  M", &files)?;
    assert_eq!(rt; found.as_str(), " 7:2:2 7:2:2 7:2:2 7:2:2 7:3:3 7:3:3");
    Ok(())
}

#[test]
fn a_token_of_a_built_in_header_has_the_place_of_the_include(rt: HostRuntime) -> Result<(), Fail> {
    let text = b"\n  #include <stdbool.h>\n true\n #include <stdio.h>\n EOF";
    let found = places(rt.alloc(), text, &[])?;
    assert!(rt; found.as_str().starts_with(" 7:3:2 7:4:2 7:4:2 "));
    assert!(rt; found.as_str().ends_with(" 7:4:2 7:5:2 7:5:2 7:5:2 7:5:2"));
    Ok(())
}
