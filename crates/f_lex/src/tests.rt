use crate::lexer::lex;
use crate::token::{Kind, Spanned, Token};
use jf_base::{List, Refusal};
use std::alloc::{AllocError, Global};
use std::test::Fail;

fn write_bytes(out: &mut String, bytes: &List<u8>) -> Result<(), AllocError> {
    for byte in bytes.as_slice() {
        out.push(*byte as char)?;
    }
    Ok(())
}

fn write_kind(out: &mut String, kind: &Option<Kind>) -> Result<(), AllocError> {
    match kind {
        None => Ok(()),
        Some(Kind::Name(bytes)) | Some(Kind::Number(bytes)) => {
            out.push('_')?;
            write_bytes(out, bytes)
        }
    }
}

// The token as the tables below show it.
fn write_token(alloc: Global, out: &mut String, token: &Token) -> Result<(), AllocError> {
    match token {
        Token::Name(name) => write_bytes(out, name)?,
        Token::Number { digits, kind } => {
            write_bytes(out, digits)?;
            write_kind(out, kind)?;
        }
        Token::Truth { value, kind } => {
            out.push_str(if *value { "T" } else { "F" })?;
            write_kind(out, kind)?;
        }
        Token::Text { bytes, kind } => {
            out.push('"')?;
            write_bytes(out, bytes)?;
            out.push('"')?;
            write_kind(out, kind)?;
        }
        Token::Mark(mark) => out.push_str(format!(in alloc; "{mark:?}")?.as_str())?,
        Token::End => out.push(';')?,
    }
    Ok(())
}

// The tokens with a blank before each, or the place and the number of the first broken rule.
fn shown(alloc: Global, before: u32, source: &[u8]) -> Result<String, AllocError> {
    let mut out = String::new(alloc);
    let before = if before > 262_144 { 262_144 } else { before };
    match lex(alloc, 3, before, source) {
        Ok(tokens) => {
            for spanned in tokens.as_slice() {
                out.push(' ')?;
                write_token(alloc, &mut out, &spanned.token)?;
            }
            Ok(out)
        }
        Err(Refusal::Memory) => format!(in alloc; "memory"),
        Err(Refusal::At { place, tag }) => {
            format!(in alloc; "{}:{} {}", place.line, place.column, tag.0)
        }
    }
}

#[test]
fn tokens_of_the_profile(rt: HostRuntime) -> Result<(), Fail> {
    let table = [
        ("Program P\n", " program p ;"),
        ("", ""),
        ("\n \n! nothing\n;;  ; !\n", ""),
        ("a=1", " a Assign 1 ;"),
        (
            "a = 1;; ;b=2 ; ! c\r\nc=3;\r\n",
            " a Assign 1 ; b Assign 2 ; c Assign 3 ;",
        ),
        ("\tx\t=\t1\t", " x Assign 1 ;"),
        ("1_c_int 1_8 1_C_INT_'a'", " 1_c_int 1_8 1_c_int_ \"a\" ;"),
        (".true._4 .FALSE. .true.", " T_4 F T ;"),
        ("1.and.2 .AND. .or. .not.a", " 1 And 2 And Or Not a ;"),
        (".eqv..neqv. a.eq.b.ne.c", " Eqv Neqv a DotEq b DotNe c ;"),
        (
            "a.lt.b.le.c.gt.d.ge.e",
            " a DotLt b DotLe c DotGt d DotGe e ;",
        ),
        ("a**b*c", " a Power b Star c ;"),
        ("a//b/c/=d", " a Concat b Slash c NotEqual d ;"),
        (
            "p=>q a>=b<=c==d<e>f",
            " p Arrow q a GreaterEqual b LessEqual c Equal d Less e Greater f ;",
        ),
        ("a::b:c :::", " a DoubleColon b Colon c DoubleColon Colon ;"),
        ("(/ 1 /)", " Open Slash 1 Slash Close ;"),
        (
            "a%b(1:2,..)[+-]",
            " a Percent b Open 1 Colon 2 Comma DotDot Close OpenBracket Plus Minus CloseBracket ;",
        ),
        (
            "'it''s' \"it's\" \"\"\"\" ''",
            " \"it's\" \"it's\" \"\"\" \"\" ;",
        ),
        (
            "c_char_'aB' 1_\"x\" a_ 'x'",
            " \"aB\"_c_char \"x\"_1 a_ \"x\" ;",
        ),
        ("'!a;&b' ! 'c", " \"!a;&b\" ;"),
        ("9223372036854775807 00", " 9223372036854775807 00 ;"),
        (
            "a23456789012345678901234567890123456789012345678901234567890123",
            " a23456789012345678901234567890123456789012345678901234567890123 ;",
        ),
    ];
    for (source, wanted) in table {
        assert_eq!(rt;
            shown(rt.alloc(), 0, source.as_bytes())?.as_str(),
            wanted,
            "of {source:?}"
        );
    }
    Ok(())
}

#[test]
fn continued_lines(rt: HostRuntime) -> Result<(), Fail> {
    let table = [
        ("a = 1 + &\n 2\nb", " a Assign 1 Plus 2 ; b ;"),
        ("a = & ! why\n\n ! because\r\n  & 2\n", " a Assign 2 ;"),
        ("ab&\n&cd", " ab cd ;"),
        ("a &\n & \n&\n & b", " a b ;"),
        ("a; &\n b", " a ; b ;"),
        ("a &\n & & ! c\n b", " a b ;"),
        ("'ab&\n&cd'", " \"abcd\" ;"),
        ("'ab &  \r\n\n ! not a part\n   & cd'", " \"ab  cd\" ;"),
        ("'ab&\n&\n  &  \n&cd'", " \"abcd\" ;"),
        ("'a& b&\n&!c'", " \"a& b!c\" ;"),
        ("'it'&\n&'s'", " \"it\" \"s\" ;"),
        ("'it''&\n&''s'", " \"it''s\" ;"),
        ("'a&\n&''b'", " \"a'b\" ;"),
    ];
    for (source, wanted) in table {
        assert_eq!(rt;
            shown(rt.alloc(), 0, source.as_bytes())?.as_str(),
            wanted,
            "of {source:?}"
        );
    }
    Ok(())
}

#[test]
fn broken_rules(rt: HostRuntime) -> Result<(), Fail> {
    let table = [
        ("program p; implicit none\nprint *, 'ab&\n", "2:1 105"),
        ("x = 1\n  y = 2 &", "2:1 105"),
        ("x = &\n\n ! only\n", "1:1 105"),
        ("x = &\n & ! alone\n\n", "2:1 105"),
        ("x = 'ab&\n cd'", "1:1 105"),
        ("x = 'ab&\n &\n\n", "2:1 105"),
        ("x = 'ab\n&cd'", "1:5 104"),
        ("x = 'ab&\n  & cd\r\n", "1:5 104"),
        ("x = 'ab' 'c", "1:10 104"),
        ("& x", "1:1 106"),
        ("  &\n x", "1:3 106"),
        ("  & ! alone in the last line", "1:3 106"),
        ("x & y", "1:3 106"),
        ("x = $ + &\n", "1:1 105"),
        ("x = $ + &\n y", "1:5 106"),
        ("x # @ ~ ^ \\ | { } ? `", "1:3 106"),
        ("a = _b", "1:5 106"),
        ("1_ 2", "1:2 106"),
        ("1.e5", "1:2 106"),
        (".foo.", "1:1 106"),
        ("a . b", "1:3 106"),
        ("(a...)", "1:5 106"),
        ("9223372036854775808", "1:1 106"),
        ("1_9223372036854775808", "1:1 106"),
        ("99999999999999999999999999999999999999999999", "1:1 106"),
        ("a\rb", "1:2 103"),
        ("a = 1\r\r\n", "1:6 103"),
        ("ab é", "1:4 103"),
        ("! é\nx = 'é'\n\x0b", "3:1 103"),
        ("$ \x01", "1:1 106"),
        ("\x01 $", "1:1 103"),
        (
            "x = b234567890123456789012345678901234567890123456789012345678901234",
            "1:5 102",
        ),
        (
            "1_b234567890123456789012345678901234567890123456789012345678901234",
            "1:1 102",
        ),
        (
            "x = b234567890123456789012345678901234567890123456789012345678901234_'a",
            "1:5 102",
        ),
    ];
    for (source, wanted) in table {
        assert_eq!(rt;
            shown(rt.alloc(), 0, source.as_bytes())?.as_str(),
            wanted,
            "of {source:?}"
        );
    }
    Ok(())
}

#[test]
fn places_of_tokens(rt: HostRuntime) -> Result<(), Fail> {
    let source = b"ab = 'c&\r\n  &d' ! e\r\n;f";
    let wanted = [
        (0, 2, 1, 1),
        (3, 4, 1, 4),
        (5, 15, 1, 6),
        (20, 21, 2, 11),
        (22, 23, 3, 2),
        (23, 23, 3, 3),
    ];
    let tokens = match lex(rt.alloc(), 3, 262_000, source) {
        Ok(tokens) => tokens,
        Err(_) => Vec::new(rt.alloc()),
    };
    assert_eq!(rt; tokens.len(), 6);
    for (spanned, (start, end, line, column)) in tokens.iter().zip(wanted) {
        assert_eq!(rt; spanned.start, start);
        assert_eq!(rt; spanned.end, end);
        assert_eq!(rt; spanned.place.file, 3);
        assert_eq!(rt; spanned.place.line, line);
        assert_eq!(rt; spanned.place.column, column);
    }
    Ok(())
}

// The first text, the middle so many times, and the last.
fn repeated(
    alloc: Global,
    first: &str,
    middle: &str,
    times: usize,
    last: &str,
) -> Result<Vec<u8>, AllocError> {
    let mut bytes = Vec::from_slice(alloc, first.as_bytes())?;
    for _ in 0..times {
        bytes.extend_from_slice(middle.as_bytes())?;
    }
    bytes.extend_from_slice(last.as_bytes())?;
    Ok(bytes)
}

#[test]
fn long_lines_and_files(rt: HostRuntime) -> Result<(), Fail> {
    let alloc = rt.alloc();
    let table = [
        (repeated(alloc, "!", "a", 9_999, "\r\nx")?, " x ;"),
        (repeated(alloc, "!", "a", 10_000, "\nx")?, "1:1 101"),
        (repeated(alloc, "$\n", " ", 10_001, "")?, "1:1 106"),
        (repeated(alloc, "x\n'$", "a", 9_999, "\n")?, "2:1 101"),
        (repeated(alloc, "", "! a comment    \n", 65_536, "")?, ""),
        (
            repeated(alloc, "", "! a comment    \n", 65_536, " ")?,
            "1:1 107",
        ),
    ];
    for (source, wanted) in table {
        assert_eq!(rt; shown(alloc, 0, source.as_slice())?.as_str(), wanted);
    }
    Ok(())
}

#[test]
fn long_statements(rt: HostRuntime) -> Result<(), Fail> {
    let alloc = rt.alloc();
    let line = repeated(alloc, "&", "a", 9_998, "&\n")?;
    let mut source = Vec::from_slice(alloc, b"x;print *, '&\n")?;
    for _ in 0..100 {
        source.extend_from_slice(line.as_slice())?;
    }
    // 999,800 characters of the text, and 9 of `print`, `*`, `,` and the delimiters.
    let most = repeated(alloc, "&", "b", 191, "'\n")?;
    let more = repeated(alloc, "&", "b", 192, "' $\n")?;
    let mut accepted = source.clone()?;
    accepted.extend_from_slice(most.as_slice())?;
    source.extend_from_slice(more.as_slice())?;
    let tokens = match lex(alloc, 0, 0, accepted.as_slice()) {
        Ok(tokens) => tokens.len(),
        Err(_) => 0,
    };
    assert_eq!(rt; tokens, 7);
    assert_eq!(rt; shown(alloc, 0, source.as_slice())?.as_str(), "1:3 108");
    Ok(())
}

#[test]
fn many_tokens(rt: HostRuntime) -> Result<(), Fail> {
    let alloc = rt.alloc();
    let most = repeated(alloc, "", "+++++++\n", 32_768, "")?;
    let tokens = match lex(alloc, 0, 0, most.as_slice()) {
        Ok(tokens) => tokens.len(),
        Err(_) => 0,
    };
    assert_eq!(rt; tokens, 262_144);
    assert_eq!(rt; shown(alloc, 1, most.as_slice())?.as_str(), "32768:8 107");
    assert_eq!(rt; shown(alloc, 262_144, b"! none\n")?.as_str(), "");
    assert_eq!(rt; shown(alloc, 262_143, b"a")?.as_str(), "1:2 107");
    Ok(())
}
