use crate::{mark_of, put_spelling, token_of};
use c_text::lexemes;
use c_token::Mark;
use std::alloc::{AllocError, Global};
use std::test::Fail;

// The spellings of the tokens of a text, with `?` for what has no form.
fn shown(alloc: Global, text: &[u8]) -> Result<Vec<u8>, AllocError> {
    let mut out = Vec::new(alloc);
    if text.len() > 1000 {
        return Ok(out);
    }
    for lexeme in lexemes(alloc, text)?.as_slice() {
        match token_of(alloc, lexeme)? {
            None => out.push(b'?')?,
            Some(token) => put_spelling(&mut out, &token)?,
        }
        out.push(b' ')?;
    }
    Ok(out)
}

#[test]
fn tokens_keep_their_spellings(rt: HostRuntime) -> Result<(), Fail> {
    let alloc = rt.alloc();
    assert_eq!(rt;
        shown(alloc, b"int a0=0x1Fu+'\\n'<:\"a\\\"b\"->b>>=c;")?.as_slice(),
        b"int a0 = 0x1Fu + '\\n' <: \"a\\\"b\" -> b >>= c ; ".as_slice()
    );
    assert_eq!(rt;
        shown(
            alloc,
            b"1.5 08 L'a' 'ab' \"\\q\" ... # ## \\ 18446744073709551615 18446744073709551616"
        )?
        .as_slice(),
        b"? ? ? ? ? ? ? ? ? 18446744073709551615 ? ".as_slice()
    );
    Ok(())
}

#[test]
fn marks_are_told_by_their_spellings(rt: HostRuntime) {
    assert!(rt; mark_of(b"<<=") == Some(Mark::ShiftLeftAssign));
    assert!(rt; mark_of(b"%>") == Some(Mark::CloseBraceDigraph));
    assert!(rt; mark_of(b"...").is_none());
}
