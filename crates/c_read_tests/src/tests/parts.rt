//! What a unit has beside its external declarations: names, literals and places.

use super::{check, read};
use c_tree::CUnit;
use jf_base::{List, Place, Refusal};
use std::alloc::{AllocError, Global};
use std::test::Fail;

const JOINED: &str = "char *a = \"ab\" \"cd\"; x; => 601 at 1:22
void f(void) { g(\"a\" \"b\"); } => function of 13
void f(void) { g(\"a\", \"b\"); } => function of 14
char a[] = \"a\" \"\" \"b\"; void f(void) { } => declaration, function of 7";

#[test]
fn literals_side_by_side_are_one_word_of_many_tokens(rt: HostRuntime) -> Result<(), Fail> {
    check(&rt, rt.alloc(), JOINED)
}

// Whether a list has these bytes at a number.
fn is_at(list: &List<List<u8>>, number: usize, bytes: &[u8]) -> bool {
    match list.as_slice().get(number) {
        None => false,
        Some(one) => one.as_slice() == bytes,
    }
}

// Whether a text is read as a unit with these names and literals.
fn has_names(unit: &CUnit) -> bool {
    unit.names.len() == 3 && is_at(&unit.names, 0, b"one") && is_at(&unit.names, 1, b"two")
}

fn has_literals(unit: &CUnit) -> bool {
    unit.literals.len() == 3 && is_at(&unit.literals, 0, b"a\nb") && is_at(&unit.literals, 1, b"")
}

fn is_place(place: Option<Place>, line: u32, column: u32) -> bool {
    match place {
        None => false,
        Some(place) => place.line == line && place.column == column,
    }
}

fn has_places(unit: &CUnit) -> bool {
    unit.places.len() == 10
        && is_place(unit.place(3), 2, 2)
        && is_place(unit.place(8), 3, 1)
        && is_place(unit.place(9), 4, 1)
        && unit.place(10).is_none()
}

#[derive(Clone, Copy)]
enum Question {
    Names,
    Literals,
    Places,
}

fn answer(unit: &CUnit, question: Question) -> bool {
    match question {
        Question::Names => has_names(unit),
        Question::Literals => has_literals(unit),
        Question::Places => has_places(unit),
    }
}

// The answer of the unit that a text is read as; no where it isn't read.
fn asked(alloc: Global, text: &str, question: Question) -> Result<bool, AllocError> {
    match read(alloc, text) {
        Ok(unit) => Ok(answer(unit.get(), question)),
        Err(Refusal::Memory) => Err(AllocError),
        Err(Refusal::At { .. }) => Ok(false),
    }
}

const NUMBERED: &str = "char *one = \"a\\n\" \"b\", *two = \"\", one_more[] = \"c\";";

const PLACED: &str = "int a;\n char b[] =\n\"c\" \"d\"\n;";

#[test]
fn names_and_literals_have_numbers(rt: HostRuntime) -> Result<(), Fail> {
    assert!(rt; asked(rt.alloc(), NUMBERED, Question::Names)?);
    assert!(rt; asked(rt.alloc(), NUMBERED, Question::Literals)?);
    Ok(())
}

#[test]
fn each_word_has_its_place(rt: HostRuntime) -> Result<(), Fail> {
    assert!(rt; asked(rt.alloc(), PLACED, Question::Places)?);
    Ok(())
}
