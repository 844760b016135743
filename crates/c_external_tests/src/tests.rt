//! Files as lists of tokens, of which each is spelled by one byte, and what is read from them as a text: a declaration is `D`, and a function is `F` with its
//! items behind it, `d` for a declaration and `s` for a statement.

ghost use Rattle.std.specs.Prelude.{◌<◌, ◌^◌, sum};

use c_external_read::{BrokenExternal, ExternalsError, read_externals};
use c_grammar::{Fault, Kind, Token};
use c_tree::{BlockItem, ConstantType, External, SpecifierWord};
use std::alloc::{AllocError, Global};
use std::test::Fail;

// `i` is `int`, `t` is `typedef`, `e` is `enum`, `u` is `struct`, `z` is `sizeof`, `r` is `return`, a digit is a constant, another letter is a name, and
// what is left is `;`.
fn token_of(byte: u8) -> Token {
    match byte {
        b'i' => Token::Word(SpecifierWord::Int),
        b't' => Token::Word(SpecifierWord::Typedef),
        b'e' => Token::Enum,
        b'u' => Token::Struct,
        b'z' => Token::Sizeof,
        b'r' => Token::Return,
        b'0'..=b'9' => Token::Number((byte - b'0') as u64, ConstantType::Int),
        b'a'..=b'z' | b'A'..=b'Z' => Token::Name(byte as u32),
        b'"' => Token::Text(0),
        b'{' => Token::BraceOpen,
        b'}' => Token::BraceClose,
        b'(' => Token::Open,
        b')' => Token::Close,
        b'[' => Token::SquareOpen,
        b']' => Token::SquareClose,
        b'*' => Token::Star,
        b'+' => Token::Plus,
        b'=' => Token::Equals,
        b'?' => Token::Question,
        b':' => Token::Colon,
        b',' => Token::Comma,
        _ => Token::Semi,
    }
}

fn read(
    alloc: Global,
    text: &[u8],
    counts: &[u32],
) -> Result<Result<Vec<External>, BrokenExternal>, AllocError>
    requires { sum counts.now < 2 ^ 32 }
{
    let mut tokens = Vec::new(alloc);
    for byte in text {
        tokens.push(token_of(*byte))?;
    }
    if tokens.len() > 1000 {
        return Err(AllocError);
    }
    match read_externals(alloc, &tokens, counts) {
        Ok(externals) => Ok(Ok(externals)),
        Err(ExternalsError::Broken(broken)) => Ok(Err(broken)),
        Err(ExternalsError::Memory) => Err(AllocError),
    }
}

fn show(shown: &mut Vec<u8>, external: &External) -> Result<(), AllocError> {
    match external {
        External::Declaration(_) => {
            shown.push(b'D')?;
        }
        External::Function { body, .. } => {
            shown.push(b'F')?;
            for item in body.as_slice() {
                match item {
                    BlockItem::Declaration(_) => shown.push(b'd')?,
                    BlockItem::Statement(_) => shown.push(b's')?,
                }
            }
        }
    }
    Ok(())
}

fn shown(alloc: Global, text: &[u8]) -> Result<Vec<u8>, AllocError> {
    let mut shown = Vec::new(alloc);
    match read(alloc, text, &[])? {
        Ok(externals) => {
            for external in &externals {
                show(&mut shown, external)?;
            }
        }
        Err(_) => shown.push(b'?')?,
    }
    Ok(shown)
}

fn is_shown(alloc: Global, text: &[u8], wanted: &[u8]) -> Result<bool, AllocError> {
    let shown = shown(alloc, text)?;
    Ok(shown.as_slice() == wanted)
}

// What is wrong first, and how many words are left there and where the external declaration begins.
fn broken(alloc: Global, text: &[u8]) -> Result<Option<BrokenExternal>, AllocError> {
    match read(alloc, text, &[])? {
        Ok(_) => Ok(None),
        Err(broken) => Ok(Some(broken)),
    }
}

// The number of the first word of the last function, and of its tokens.
fn last_function(
    alloc: Global,
    text: &[u8],
    counts: &[u32],
) -> Result<Option<(u32, u32)>, AllocError>
    requires { sum counts.now < 2 ^ 32 }
{
    let mut last = None;
    match read(alloc, text, counts)? {
        Ok(externals) => {
            for external in &externals {
                if let External::Function { tokens, at, .. } = external {
                    last = Some((*at, *tokens));
                }
            }
        }
        Err(_) => last = None,
    }
    Ok(last)
}

#[test]
fn each_form_is_read(rt: HostRuntime) -> Result<(), Fail> {
    assert!(rt; shown(rt.alloc(), b"")?.is_empty());
    assert!(rt; is_shown(rt.alloc(), b"i;ia;ia=1,*b;if(ia);", b"DDDD")?);
    assert!(rt; is_shown(rt.alloc(), b"if(){}ig(ia){ib;b;}ia;", b"FFdsD")?);
    Ok(())
}

#[test]
fn a_parameter_hides_a_name_of_a_type_in_the_body(rt: HostRuntime) -> Result<(), Fail> {
    for text in [
        b"tiT;if(iT){T*x;}Ty;".as_slice(),
        b"tiT;if(ia,Tb,iT){T*x;}Ty;",
        b"tiT;i(f)(iT){T*x;}Ty;",
        b"tiT;i(*f(iT))(ia){T*x;}Ty;",
        b"tiT;i(*f(iT))[2]{T*x;}Ty;",
        b"tiT;if(i(*T)(ia)){T*x;}Ty;",
    ] {
        assert!(rt; is_shown(rt.alloc(), text, b"DFsD")?, "of {text:?}");
    }
    Ok(())
}

#[test]
fn other_parameters_of_the_declarator_do_not(rt: HostRuntime) -> Result<(), Fail> {
    for text in [
        b"tiT;if(ia){T*x;}Ty;".as_slice(),
        b"tiT;if(){T*x;}Ty;",
        b"tiT;i(*f(ia))(iT){T*x;}Ty;",
        b"tiT;if(i(*a)(iT)){T*x;}Ty;",
        b"tiT;if(ig(e{T}b)){T*x;}Ty;",
        b"tiT;i(*f)(iT){T*x;}Ty;",
    ] {
        assert!(rt; is_shown(rt.alloc(), text, b"DFdD")?, "of {text:?}");
    }
    Ok(())
}

#[test]
fn an_enumerator_among_the_parameters_is_declared_in_the_body(rt: HostRuntime) -> Result<(), Fail> {
    for text in [
        b"tiT;if(e{T}a){T*x;}Ty;".as_slice(),
        b"tiT;if(eA{B,T=2,}a){T*x;}Ty;",
        b"tiT;if(u{e{T}b,c;}a){T*x;}Ty;",
        b"tiT;if(uA{ib;ic[z(e{T})];}a){T*x;}Ty;",
        b"tiT;if(ia[z(e{T})]){T*x;}Ty;",
        b"tiT;if(i(*a[z(e{T})])[2]){T*x;}Ty;",
        b"tiT;if(ia[1+z(e{T})]){T*x;}Ty;",
        b"tiT;if(ia[1?z(e{T}):2?3:4]){T*x;}Ty;",
        b"tiT;if(ia[1?2:z(e{T})]){T*x;}Ty;",
        b"tiT;if(ia[*(e{T})1]){T*x;}Ty;",
        b"tiT;if(ia[(1,z(e{T}))]){T*x;}Ty;",
        b"tiT;if(ia[(b[z(e{T})]=c=2)]){T*x;}Ty;",
        b"tiT;if(ia[b(1,z(e{T}))]){T*x;}Ty;",
        b"tiT;if(ia[zz(e{B=z(e{T})})]){T*x;}Ty;",
    ] {
        assert!(rt; is_shown(rt.alloc(), text, b"DFsD")?, "of {text:?}");
    }
    Ok(())
}

#[test]
fn the_name_of_a_function_is_declared(rt: HostRuntime) -> Result<(), Fail> {
    assert!(rt; is_shown(rt.alloc(), b"tiT;iT(){T*x;}ia;", b"DFsD")?);
    assert!(rt; is_shown(rt.alloc(), b"tiT;if(iT);if(ia){T*x;}", b"DDFd")?);
    assert!(rt; is_shown(rt.alloc(), b"tiT;if(){TT;T*x;}Ty;", b"DFdsD")?);
    let (kind, left) = (Kind::Form, 4);
    let fault = Fault { kind, left };
    assert!(rt; broken(rt.alloc(), b"tiT;iT(){}T*x;")? == Some(BrokenExternal { left, fault }));
    Ok(())
}

#[test]
fn the_first_that_breaks_a_rule_is_told(rt: HostRuntime) -> Result<(), Fail> {
    let kind = Kind::Form;
    let fault = Fault { kind, left: 5 };
    assert!(rt; broken(rt.alloc(), b"ia;i1;ib;")? == Some(BrokenExternal { left: 6, fault }));
    let fault = Fault { kind, left: 0 };
    assert!(rt; broken(rt.alloc(), b"ia;if(){r1;")? == Some(BrokenExternal { left: 8, fault }));
    let fault = Fault { kind, left: 1 };
    assert!(rt; broken(rt.alloc(), b"ia;;")? == Some(BrokenExternal { left: 1, fault }));
    Ok(())
}

// `int a; int f() {{..{}..}}` with so many braces.
fn nested(alloc: Global, braces: usize) -> Result<Option<BrokenExternal>, AllocError> {
    let mut text = Vec::new(alloc);
    text.extend_from_slice(b"ia;if()")?;
    for _ in 0..braces {
        text.push(b'{')?;
    }
    for _ in 0..braces {
        text.push(b'}')?;
    }
    broken(alloc, &text)
}

#[test]
fn blocks_nest_at_most_64_deep(rt: HostRuntime) -> Result<(), Fail> {
    let (kind, left) = (Kind::Deep, 134);
    let fault = Fault { kind, left: 65 };
    assert!(rt; nested(rt.alloc(), 64)? == None);
    assert!(rt; nested(rt.alloc(), 65)? == Some(BrokenExternal { left, fault }));
    Ok(())
}

#[test]
fn a_function_has_the_tokens_of_its_words(rt: HostRuntime) -> Result<(), Fail> {
    let alloc = rt.alloc();
    assert!(rt; last_function(alloc, b"if(){}", &[1, 1, 1, 1, 1, 1])? == Some((0, 6)));
    let counts = [1, 1, 1, 1, 1, 1, 1, 1, 1, 3, 1, 1, 1, 1, 1];
    assert!(rt; last_function(alloc, b"ia;if(){r\";}ib;", &counts)? == Some((3, 11)));
    let counts = [1, 1, 1, 1, 2, 1, 1, 1, 1, 1, 1, 1, 3, 1, 4, 1, 1];
    assert!(rt; last_function(alloc, b"ia[z\"];if(){\";\";}", &counts)? == Some((7, 15)));
    Ok(())
}
