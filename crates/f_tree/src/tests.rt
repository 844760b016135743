//! Printed texts: what was lexed and printed has the same tokens, and units are printed as a person would check them.

use crate::{
    Action, Declaration, DoConstruct, Ending, EndingForm, Entity, Expression, Head, IfConstruct,
    Level, Lexeme, Link, LoopControl, Module, Name, Part, Prefix, Procedure, ProcedureKind,
    Program, Reference, Specification, Statement, TypeSpec, Unit, Variables, print_unit, text_of,
};
use f_lex::{Mark, Spanned, Token, lex};
use jf_base::{Boxed, List, Memory, Place, Refusal};
use std::alloc::{AllocError, Global};
use std::test::Fail;

const PLACE: Place = Place {
    file: 0,
    line: 1,
    column: 1,
};

fn bytes(alloc: Global, text: &str) -> Result<List<u8>, AllocError> {
    let mut all = Vec::new(alloc);
    all.extend_from_slice(text.as_bytes())?;
    Ok(List::from_vec(all))
}

fn one<T: Drop>(alloc: Global, item: T) -> Result<List<T>, AllocError> {
    let mut all = List::from_vec(Vec::new(alloc));
    all.push(item)?;
    Ok(all)
}

fn none<T>(alloc: Global) -> List<T> {
    List::from_vec(Vec::new(alloc))
}

fn name(alloc: Global, text: &str) -> Result<Name, AllocError> {
    Ok(Name {
        bytes: bytes(alloc, text)?,
        place: PLACE,
    })
}

fn reference(alloc: Global, text: &str) -> Result<Reference, AllocError> {
    Ok(Reference {
        first: Part {
            name: name(alloc, text)?,
            arguments: None,
            substring: None,
        },
        others: none(alloc),
    })
}

fn variable(alloc: Global, text: &str) -> Result<Expression, AllocError> {
    Ok(Expression::Reference(reference(alloc, text)?))
}

fn number(alloc: Global, text: &str) -> Result<Expression, AllocError> {
    Ok(Expression::Number {
        digits: bytes(alloc, text)?,
        kind: None,
        place: PLACE,
    })
}

fn ending(alloc: Global, form: EndingForm, text: &str) -> Result<Ending, AllocError> {
    let name = if text.is_empty() {
        None
    } else {
        Some(name(alloc, text)?)
    };
    Ok(Ending {
        place: PLACE,
        form,
        name,
    })
}

// `first + 1`
fn plus_one(alloc: Global, first: &str) -> Result<Expression, AllocError> {
    let operand = number(alloc, "1")?;
    let link = Link {
        operator: Mark::Plus,
        operand,
    };
    Ok(Expression::Chain {
        level: Level::Sum,
        sign: None,
        first: Boxed::new(alloc, variable(alloc, first)?)?,
        links: one(alloc, link)?,
    })
}

fn specification(alloc: Global, entity: &str) -> Result<Specification, AllocError> {
    let entity = Entity {
        name: name(alloc, entity)?,
        dimensions: None,
        initial: None,
    };
    let variables = Variables {
        declared: TypeSpec::Integer {
            place: PLACE,
            kind: None,
        },
        attributes: none(alloc),
        has_colons: true,
        entities: one(alloc, entity)?,
    };
    Ok(Specification {
        uses: none(alloc),
        import: None,
        implicit_none: Some(PLACE),
        declarations: one(alloc, Declaration::Variables(variables))?,
    })
}

fn assignment(alloc: Global, target: &str) -> Result<Statement, AllocError> {
    Ok(Statement::Action(Action::Assign {
        target: reference(alloc, target)?,
        value: plus_one(alloc, target)?,
    }))
}

fn construct(alloc: Global) -> Result<Statement, AllocError> {
    let inner = IfConstruct {
        place: PLACE,
        condition: variable(alloc, "b")?,
        body: one(alloc, Statement::Action(Action::Exit { place: PLACE }))?,
        else_ifs: none(alloc),
        otherwise: None,
        ending: ending(alloc, EndingForm::OneWord, "")?,
    };
    let control = LoopControl::Count {
        has_comma: false,
        variable: name(alloc, "i")?,
        first: number(alloc, "1")?,
        last: variable(alloc, "n")?,
        step: None,
    };
    Ok(Statement::Do(DoConstruct {
        place: PLACE,
        control,
        body: one(alloc, Statement::If(inner))?,
        ending: ending(alloc, EndingForm::TwoWords, "")?,
    }))
}

fn program(alloc: Global) -> Result<Unit, AllocError> {
    let mut body = one(alloc, assignment(alloc, "i")?)?;
    body.push(construct(alloc)?)?;
    Ok(Unit::Program(Program {
        place: PLACE,
        name: name(alloc, "p")?,
        specification: specification(alloc, "i")?,
        body,
        ending: ending(alloc, EndingForm::TwoWords, "p")?,
        tokens: 0,
    }))
}

fn module(alloc: Global) -> Result<Unit, AllocError> {
    let head = Head {
        prefixes: one(alloc, Prefix::Recursive { place: PLACE })?,
        kind: ProcedureKind::Function,
        place: PLACE,
        name: name(alloc, "f")?,
        dummies: Some(one(alloc, name(alloc, "x")?)?),
        suffixes: none(alloc),
    };
    let procedure = Procedure {
        head,
        specification: specification(alloc, "f")?,
        body: one(alloc, assignment(alloc, "f")?)?,
        ending: ending(alloc, EndingForm::Bare, "")?,
        tokens: 0,
    };
    Ok(Unit::Module(Module {
        place: PLACE,
        name: name(alloc, "m")?,
        specification: specification(alloc, "k")?,
        procedures: Some(one(alloc, procedure)?),
        ending: ending(alloc, EndingForm::OneWord, "")?,
    }))
}

fn printed(alloc: Global, unit: Result<Unit, AllocError>) -> Result<String, Memory> {
    let text = print_unit(alloc, &unit?)?;
    let mut out = String::new(alloc);
    for byte in text.as_slice() {
        out.push(*byte as char)?;
    }
    Ok(out)
}

#[test]
fn a_program_is_printed(rt: HostRuntime) {
    match printed(rt.alloc(), program(rt.alloc())) {
        Err(_) => assert!(rt; false),
        Ok(text) => assert_eq!(rt;
            text.as_str(),
            "program p\nimplicit none\ninteger :: i\ni = i + 1\ndo i = 1 , n\nif ( b ) then\nexit\nendif\nend do\nend program p\n"
        ),
    }
}

#[test]
fn a_module_is_printed(rt: HostRuntime) {
    match printed(rt.alloc(), module(rt.alloc())) {
        Err(_) => assert!(rt; false),
        Ok(text) => assert_eq!(rt;
            text.as_str(),
            "module m\nimplicit none\ninteger :: k\ncontains\nrecursive function f ( x )\nimplicit none\ninteger :: f\nf = f + 1\nend\nendmodule\n"
        ),
    }
}

// The tokens of a text, or none.
fn lexed(alloc: Global, text: &[u8]) -> Result<Vec<Spanned>, AllocError> {
    match lex(alloc, 0, 0, text) {
        Ok(tokens) => Ok(tokens),
        Err(Refusal::Memory) => Err(AllocError),
        Err(Refusal::At { .. }) => Ok(Vec::new(alloc)),
    }
}

fn lexemes(alloc: Global, text: &[u8]) -> Result<Vec<Lexeme>, AllocError> {
    let mut all = Vec::new(alloc);
    for spanned in lexed(alloc, text)?.as_slice() {
        all.push(Lexeme {
            token: spanned.token.clone()?,
            place: None,
        })?;
    }
    Ok(all)
}

fn same_tokens(left: &[Lexeme], right: &[Lexeme]) -> bool {
    if left.len() != right.len() {
        return false;
    }
    for (a, b) in left.iter().zip(right.iter()) {
        if a.token != b.token {
            return false;
        }
    }
    true
}

// Whether what was printed has the tokens of the text, of which there are so many.
fn comes_back(alloc: Global, text: &str, count: usize) -> Result<bool, AllocError> {
    let all = lexemes(alloc, text.as_bytes())?;
    let printed = text_of(alloc, &all)?;
    let again = lexemes(alloc, &printed)?;
    Ok(all.len() == count && same_tokens(&all, &again))
}

#[test]
fn printed_tokens_come_back(rt: HostRuntime) -> Result<(), Fail> {
    let table = [
        ("program p\n", 3),
        ("x=1_8+2_c_int;l=.true._1.or..false.\n", 12),
        ("s = c_char_'it''s' // 1_\"&\" // '' \n", 8),
        ("a(1:2,:,::3)%b(..)=>[integer::]", 22),
        ("a == b /= c < d <= e > f >= g ** h / i // j", 20),
        (".not.a.and.b.or.c.eqv.d.neqv.e", 11),
        ("a.eq.b.ne.c.lt.d.le.e.gt.f.ge.g", 14),
    ];
    for (text, count) in table {
        assert!(rt; comes_back(rt.alloc(), text, count)?, "of {text:?}");
    }
    Ok(())
}

// A statement with a long text in which quotes and `&` stand.
fn long_text(alloc: Global) -> Result<String, AllocError> {
    let mut text = String::new(alloc);
    text.push_str("s = 'x")?;
    for _ in 0..300 {
        text.push_str("''& ")?;
    }
    text.push_str("' // aaaaaaaaaa // 'b'\n")?;
    Ok(text)
}

fn longest_line(text: &[u8]) -> usize {
    let mut longest = 0;
    let mut length: usize = 0;
    for byte in text {
        if *byte == b'\n' {
            length = 0;
        } else {
            length = length.saturating_add(1);
        }
        if length > longest {
            longest = length;
        }
    }
    longest
}

#[test]
fn a_long_text_comes_back(rt: HostRuntime) -> Result<(), Fail> {
    let text = long_text(rt.alloc())?;
    assert!(rt; comes_back(rt.alloc(), text.as_str(), 8)?);
    let printed = text_of(rt.alloc(), &lexemes(rt.alloc(), text.as_bytes())?)?;
    assert!(rt; longest_line(&printed) <= 132);
    Ok(())
}
