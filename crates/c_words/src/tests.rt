//! Words of short texts, shown as text: a number with its suffix for the type, a character's value behind `'`, a string literal's bytes behind `"`, a name's
//! number behind `n`, and `?` for what stands in no production.

use crate::{Words, sign_of, words_of};
use c_grammar::Token;
use c_token::{CSpanned, CToken, Mark};
use c_tree::{ConstantType, SpecifierWord};
use jf_base::{List, Place};
use std::alloc::{AllocError, Global};
use std::test::Fail;

fn copied(alloc: Global, bytes: &[u8]) -> Result<List<u8>, AllocError> {
    Ok(List::from_vec(bytes.to_vec(alloc)?))
}

// What stands between quotes.
fn content(spelling: &[u8]) -> &[u8] {
    match spelling.split_first() {
        None => spelling,
        Some((_, rest)) => match rest.split_last() {
            None => rest,
            Some((_, content)) => content,
        },
    }
}

fn token_of(alloc: Global, spelling: &[u8]) -> Result<CToken, AllocError> {
    match spelling.first() {
        Some(b'"') => Ok(CToken::Text(copied(alloc, content(spelling))?)),
        Some(b'\'') => Ok(CToken::Byte(copied(alloc, content(spelling))?)),
        Some(b'0'..=b'9') => Ok(CToken::Number(copied(alloc, spelling)?)),
        Some(b';') => Ok(CToken::Mark(Mark::Semicolon)),
        _ => Ok(CToken::Id(copied(alloc, spelling)?)),
    }
}

fn put_token(
    alloc: Global,
    tokens: &mut Vec<CSpanned>,
    spelling: &[u8],
    column: u32,
) -> Result<(), AllocError> {
    let token = token_of(alloc, spelling)?;
    let place = Place {
        file: 0,
        line: 1,
        column,
    };
    tokens.push(CSpanned { token, place })?;
    Ok(())
}

// The words of tokens that stand in the columns 1, 2 and so on.
fn words(alloc: Global, spellings: &[&[u8]]) -> Result<Words, AllocError> {
    let mut tokens = Vec::new(alloc);
    let mut column = 1u32;
    for spelling in spellings {
        put_token(alloc, &mut tokens, spelling, column)?;
        column = column.saturating_add(1);
    }
    if tokens.len() > 1000 {
        return Err(AllocError);
    }
    words_of(alloc, &tokens)
}

fn suffix(kind: ConstantType) -> &'static str {
    match kind {
        ConstantType::Int => "",
        ConstantType::UnsignedInt => "u",
        ConstantType::Long => "l",
        ConstantType::UnsignedLong => "ul",
        ConstantType::LongLong => "ll",
        ConstantType::UnsignedLongLong => "ull",
    }
}

fn specifier_text(word: SpecifierWord) -> &'static str {
    match word {
        SpecifierWord::Typedef => "typedef",
        SpecifierWord::Extern => "extern",
        SpecifierWord::Static => "static",
        SpecifierWord::Const => "const",
        SpecifierWord::Void => "void",
        SpecifierWord::Bool => "_Bool",
        SpecifierWord::Char => "char",
        SpecifierWord::Short => "short",
        SpecifierWord::Int => "int",
        SpecifierWord::Long => "long",
        SpecifierWord::Signed => "signed",
        SpecifierWord::Unsigned => "unsigned",
        SpecifierWord::Descriptor => "descriptor",
    }
}

fn keyword_text(word: &Token) -> &'static str {
    match word {
        Token::Restrict => "restrict",
        Token::Struct => "struct",
        Token::Enum => "enum",
        Token::DescriptorOfRank => "ranked",
        Token::Sizeof => "sizeof",
        Token::If => "if",
        Token::Else => "else",
        Token::Switch => "switch",
        Token::Case => "case",
        Token::Default => "default",
        Token::While => "while",
        Token::Do => "do",
        Token::For => "for",
        Token::Break => "break",
        Token::Continue => "continue",
        Token::Return => "return",
        Token::Unused => "?",
        _ => ";",
    }
}

fn put_text(out: &mut Vec<u8>, text: &str) -> Result<(), AllocError> {
    out.extend_from_slice(text.as_bytes())?;
    Ok(())
}

fn put_literal(
    out: &mut Vec<u8>,
    literals: &List<List<u8>>,
    number: u32,
) -> Result<(), AllocError> {
    out.push(b'"')?;
    if let Some(bytes) = literals.as_slice().get(number as usize) {
        out.extend_from_slice(bytes.as_slice())?;
    }
    Ok(())
}

fn put_word(
    alloc: Global,
    out: &mut Vec<u8>,
    literals: &List<List<u8>>,
    word: &Token,
) -> Result<(), AllocError> {
    match word {
        Token::Number(value, kind) => {
            let suffix = suffix(*kind);
            put_text(out, format!(in alloc; "{value}{suffix}")?.as_str())
        }
        Token::Byte(value) => put_text(out, format!(in alloc; "'{value}")?.as_str()),
        Token::Name(number) => put_text(out, format!(in alloc; "n{number}")?.as_str()),
        Token::Text(number) => put_literal(out, literals, *number),
        Token::Word(word) => put_text(out, specifier_text(*word)),
        _ => put_text(out, keyword_text(word)),
    }
}

fn shown(alloc: Global, spellings: &[&[u8]]) -> Result<Vec<u8>, AllocError> {
    let words = words(alloc, spellings)?;
    let mut out = Vec::new(alloc);
    for word in words.words.as_slice() {
        put_word(alloc, &mut out, &words.literals, word)?;
        out.push(b' ')?;
    }
    Ok(out)
}

fn put_shown(alloc: Global, out: &mut Vec<u8>, spelling: &[u8]) -> Result<(), AllocError> {
    out.extend_from_slice(&shown(alloc, &[spelling])?)?;
    Ok(())
}

// One word for each spelling in a line.
fn line_shown(alloc: Global, line: &[u8]) -> Result<Vec<u8>, AllocError> {
    let mut out = Vec::new(alloc);
    let mut spelling = Vec::new(alloc);
    for byte in line {
        if *byte == b' ' {
            put_shown(alloc, &mut out, &spelling)?;
            spelling.clear();
        } else {
            spelling.push(*byte)?;
        }
    }
    put_shown(alloc, &mut out, &spelling)?;
    Ok(out)
}

#[test]
fn decimal_constants_have_signed_types(rt: HostRuntime) -> Result<(), Fail> {
    assert_eq!(rt;
        line_shown(
            rt.alloc(),
            b"1 2147483647 2147483648 9223372036854775807 9223372036854775808 18446744073709551615 18446744073709551616"
        )?
        .as_slice(),
        b"1 2147483647 2147483648l 9223372036854775807l 9223372036854775808ul 18446744073709551615ul ? ".as_slice()
    );
    Ok(())
}

#[test]
fn octal_and_hexadecimal_constants_may_be_unsigned(rt: HostRuntime) -> Result<(), Fail> {
    assert_eq!(rt;
        line_shown(
            rt.alloc(),
            b"0 017 00 08 0x7fffffff 0X80000000 0xFFffFFff 0x100000000 0x8000000000000000 020000000000 0x 0xg"
        )?
        .as_slice(),
        b"0 15 0 ? 2147483647 2147483648u 4294967295u 4294967296l 9223372036854775808ul 2147483648u ? ? ".as_slice()
    );
    Ok(())
}

#[test]
fn suffixes_stand_in_either_order(rt: HostRuntime) -> Result<(), Fail> {
    assert_eq!(rt;
        line_shown(
            rt.alloc(),
            b"1u 1U 1l 1L 1ll 1LL 1ul 1UL 1uL 1Ul 1ull 1ULL 1uLL 1Ull 1lu 1LU 1lU 1Lu 1llu 1LLU 1llU 1LLu"
        )?
        .as_slice(),
        b"1u 1u 1l 1l 1ll 1ll 1ul 1ul 1ul 1ul 1ull 1ull 1ull 1ull 1ul 1ul 1ul 1ul 1ull 1ull 1ull 1ull ".as_slice()
    );
    assert_eq!(rt;
        line_shown(
            rt.alloc(),
            b"1lL 1Ll 1uu 1lll 1ulu 1lul 1f 1.5 1e3 4294967296u 2147483648ll"
        )?
        .as_slice(),
        b"? ? ? ? ? ? ? ? ? 4294967296ul 2147483648ll ".as_slice()
    );
    Ok(())
}

#[test]
fn characters_have_every_escape_sequence(rt: HostRuntime) -> Result<(), Fail> {
    assert_eq!(rt;
        line_shown(
            rt.alloc(),
            b"'a' '\"' '\\'' '\\\"' '\\?' '\\\\' '\\a' '\\b' '\\f' '\\n' '\\r' '\\t' '\\v' '\\0' '\\12' '\\101' '\\377' '\\x41' '\\xfF' '\\x0041'"
        )?
        .as_slice(),
        b"'97 '34 '39 '34 '63 '92 '7 '8 '12 '10 '13 '9 '11 '0 '10 '65 '255 '65 '255 '65 ".as_slice()
    );
    assert_eq!(rt;
        line_shown(
            rt.alloc(),
            b"'ab' '' '\\400' '\\x100' '\\q' '\\8' '\\x' '\\1011'"
        )?
        .as_slice(),
        b"? ? ? ? ? ? ? ? ".as_slice()
    );
    Ok(())
}

#[test]
fn literals_side_by_side_are_one(rt: HostRuntime) -> Result<(), Fail> {
    let alloc = rt.alloc();
    assert_eq!(rt;
        shown(
            alloc,
            &[
                b"\"a\"".as_slice(),
                b"\"b\"",
                b";",
                b"\"c\"",
                b"\"\"",
                b"\"d\""
            ]
        )?
        .as_slice(),
        b"\"ab ; \"cd ".as_slice()
    );
    Ok(())
}

#[test]
fn escape_sequences_are_read_before_literals_are_joined(rt: HostRuntime) -> Result<(), Fail> {
    let alloc = rt.alloc();
    assert_eq!(rt;
        shown(
            alloc,
            &[b"\"\\x4\"".as_slice(), b"\"1\"", b";", b"\"\\1011\""]
        )?
        .as_slice(),
        b"\"\x041 ; \"A1 ".as_slice()
    );
    Ok(())
}

#[test]
fn one_ill_literal_makes_all_of_them_ill(rt: HostRuntime) -> Result<(), Fail> {
    let alloc = rt.alloc();
    assert_eq!(rt;
        shown(
            alloc,
            &[b"\"a\"".as_slice(), b"\"\\q\"", b"\"b\"", b";", b"\"c\""]
        )?
        .as_slice(),
        b"? ; \"c ".as_slice()
    );
    Ok(())
}

fn column(words: &Words, index: usize) -> u32 {
    match words.places.as_slice().get(index) {
        None => 0,
        Some(place) => place.column,
    }
}

#[test]
fn places_are_those_of_the_first_tokens(rt: HostRuntime) -> Result<(), Fail> {
    let words = words(
        rt.alloc(),
        &[b"a".as_slice(), b"\"b\"", b"\"c\"", b"\"d\"", b"e"],
    )?;
    assert_eq!(rt; column(&words, 0), 1);
    assert_eq!(rt; column(&words, 1), 2);
    assert_eq!(rt; column(&words, 2), 5);
    assert_eq!(rt; words.counts.as_slice(), [1, 3, 1].as_slice());
    Ok(())
}

fn name(words: &Words, index: usize) -> &[u8] {
    match words.names.as_slice().get(index) {
        None => &[],
        Some(spelling) => spelling.as_slice(),
    }
}

#[test]
fn names_are_numbered_as_they_come(rt: HostRuntime) -> Result<(), Fail> {
    let alloc = rt.alloc();
    assert_eq!(rt;
        shown(
            alloc,
            &[
                b"b".as_slice(),
                b"a",
                b"b",
                b"int",
                b"Int",
                b"a",
                b"_",
                b"auto",
                b"b"
            ]
        )?
        .as_slice(),
        b"n0 n1 n0 int n2 n1 n3 ? n0 ".as_slice()
    );
    Ok(())
}

#[test]
fn names_keep_their_spellings(rt: HostRuntime) -> Result<(), Fail> {
    let words = words(rt.alloc(), &[b"b".as_slice(), b"ab", b"b", b"int"])?;
    assert_eq!(rt; words.names.len(), 2);
    assert_eq!(rt; name(&words, 0), b"b".as_slice());
    assert_eq!(rt; name(&words, 1), b"ab".as_slice());
    Ok(())
}

#[test]
fn keywords_of_specifiers(rt: HostRuntime) -> Result<(), Fail> {
    assert_eq!(rt;
        line_shown(
            rt.alloc(),
            b"void _Bool char short int long signed unsigned const static extern typedef __CFI_descriptor"
        )?
        .as_slice(),
        b"void _Bool char short int long signed unsigned const static extern typedef descriptor ".as_slice()
    );
    Ok(())
}

#[test]
fn keywords_of_statements_and_types(rt: HostRuntime) -> Result<(), Fail> {
    assert_eq!(rt;
        line_shown(
            rt.alloc(),
            b"if else switch case default while do for break continue return struct enum sizeof restrict CFI_CDESC_T"
        )?
        .as_slice(),
        b"if else switch case default while do for break continue return struct enum sizeof restrict ranked ".as_slice()
    );
    Ok(())
}

#[test]
fn keywords_that_the_profile_has_no_use_for(rt: HostRuntime) -> Result<(), Fail> {
    assert_eq!(rt;
        line_shown(
            rt.alloc(),
            b"auto double float goto inline register union volatile _Alignas _Alignof _Atomic _Complex _Generic _Imaginary _Noreturn _Static_assert _Thread_local"
        )?
        .as_slice(),
        b"? ? ? ? ? ? ? ? ? ? ? ? ? ? ? ? ? ".as_slice()
    );
    assert_eq!(rt;
        line_shown(rt.alloc(), b"If in ints _bool CFI_cdesc_t autos")?.as_slice(),
        b"n0 n0 n0 n0 n0 n0 ".as_slice()
    );
    Ok(())
}

#[test]
fn digraphs_are_what_they_stand_for(rt: HostRuntime) {
    assert!(rt; sign_of(Mark::OpenBracketDigraph) == Token::SquareOpen);
    assert!(rt; sign_of(Mark::CloseBracketDigraph) == Token::SquareClose);
    assert!(rt; sign_of(Mark::OpenBraceDigraph) == Token::BraceOpen);
    assert!(rt; sign_of(Mark::CloseBraceDigraph) == Token::BraceClose);
    assert!(rt; sign_of(Mark::OpenBracket) == Token::SquareOpen);
    assert!(rt; sign_of(Mark::Assign) == Token::Equals);
    assert!(rt; sign_of(Mark::Equal) == Token::Equal);
    assert!(rt; sign_of(Mark::BarAssign) == Token::BarEquals);
}
