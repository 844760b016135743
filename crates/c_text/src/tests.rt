use crate::kind::Kind;
use crate::lexer::lexemes;
use std::alloc::{AllocError, Global};
use std::test::Fail;

fn mark_of(kind: Kind) -> char {
    match kind {
        Kind::Name => 'n',
        Kind::Number => 'd',
        Kind::Character => 'c',
        Kind::Text => 's',
        Kind::Mark => 'm',
        Kind::Other => 'o',
        Kind::LineEnd => 'e',
        Kind::ForeignByte => 'f',
        Kind::OpenText => 'u',
    }
}

// Of each lexeme a letter for its kind, with `_` before it behind white space, and its spelling unless it is a line end, with a blank before each.
fn shown(alloc: Global, source: &[u8]) -> Result<String, AllocError> {
    let mut out = String::new(alloc);
    if source.len() > 1000 {
        return Ok(out);
    }
    for lexeme in lexemes(alloc, source)?.as_slice() {
        out.push(' ')?;
        if lexeme.after_blank {
            out.push('_')?;
        }
        out.push(mark_of(lexeme.kind))?;
        if lexeme.kind != Kind::LineEnd {
            for byte in lexeme.spelling.as_slice() {
                out.push(*byte as char)?;
            }
        }
    }
    Ok(out)
}

// The line and the column of each lexeme.
fn points(alloc: Global, source: &[u8]) -> Result<String, AllocError> {
    let mut out = String::new(alloc);
    if source.len() > 1000 {
        return Ok(out);
    }
    for lexeme in lexemes(alloc, source)?.as_slice() {
        let (line, column) = (lexeme.point.line, lexeme.point.column);
        out.push_str(format!(in alloc; " {line}:{column}")?.as_str())?;
    }
    Ok(out)
}

#[test]
fn tokens_are_the_longest(rt: HostRuntime) -> Result<(), Fail> {
    let alloc = rt.alloc();
    assert_eq!(rt;
        shown(alloc, b"x+++++y a->b ... .. %:%: <:>>=")?.as_str(),
        " nx m++ m++ m+ ny _na m-> nb _m... _m. m. _m%:%: _m<: m>>="
    );
    assert_eq!(rt;
        shown(alloc, b"0xE+1 1e+5.x .5 .x 1..2 0x1p-3-4")?.as_str(),
        " d0xE+1 _d1e+5.x _d.5 _m. nx _d1..2 _d0x1p-3 m- d4"
    );
    Ok(())
}

#[test]
fn literals_and_comments(rt: HostRuntime) -> Result<(), Fail> {
    let alloc = rt.alloc();
    assert_eq!(rt;
        shown(alloc, b"\"a\\\"b\" L'\\'' u8\"x\" u8'x' '' \"\\\\\"y")?.as_str(),
        " s\"a\\\"b\" _cL'\\'' _su8\"x\" _nu8 c'x' _c'' _s\"\\\\\" ny"
    );
    assert_eq!(rt;
        shown(alloc, b"a/*/ b*/c//d\n/e /=/**/f")?.as_str(),
        " na _nc _e m/ ne _m/= _nf"
    );
    assert_eq!(rt; shown(alloc, b"'a\nb /* c")?.as_str(), " u'a e nb _u/* c");
    Ok(())
}

#[test]
fn bytes_become_characters(rt: HostRuntime) -> Result<(), Fail> {
    let alloc = rt.alloc();
    assert_eq!(rt;
        shown(alloc, b"a\\\r\nb\r\nc\\\n\nd\re $ \\ @")?.as_str(),
        " nab e nc e nd f\r ne _f$ _o\\ _f@"
    );
    assert_eq!(rt;
        shown(alloc, b"??=??( a??/\nb \"???/\"\" ??!?")?.as_str(),
        " m# m[ _nab _s\"?\\\"\" _m| m?"
    );
    assert_eq!(rt;
        points(alloc, b"a\\\nb c\n??=  d\r\ne")?.as_str(),
        " 1:1 2:3 2:4 3:1 3:6 3:8 4:1"
    );
    Ok(())
}
