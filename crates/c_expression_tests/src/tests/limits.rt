//! What nests as deep as it may, and one deeper.

use super::{DEPTH, Form, Reading, told, types};
use c_grammar::Allowed;
use std::alloc::{AllocError, Global};
use std::process::Abort;
use std::test::Fail;

// So often a text, the middle, and so often another one.
fn nested(
    alloc: Global,
    before: &str,
    middle: &str,
    after: &str,
    times: u32,
) -> Result<String, AllocError> {
    let mut text = String::new(alloc);
    for _ in 0..times {
        text.push_str(before)?;
    }
    text.push_str(middle)?;
    for _ in 0..times {
        text.push_str(after)?;
    }
    Ok(text)
}

// A text nests as deep as it may, and is read where it is repeated so often, but not once more: then the fault is there.
fn check_limit(
    rt: &impl Abort,
    alloc: Global,
    form: Form,
    (before, middle, after): (&str, &str, &str),
    fault: &str,
) -> Result<(), Fail> {
    let reading = Reading::of(form);
    let deepest = nested(alloc, before, middle, after, DEPTH)?;
    let found = told(alloc, reading, &mut types(alloc)?, deepest.as_str())?;
    assert!(rt; !found.as_str().contains("deep at"), "{before} {found}");
    assert!(rt; !found.as_str().contains("form at"), "{before} {found}");
    assert!(rt; !found.as_str().contains(".."), "{before} {found}");
    let deeper = nested(alloc, before, middle, after, DEPTH + 1)?;
    let found = told(alloc, reading, &mut types(alloc)?, deeper.as_str())?;
    assert_eq!(rt; found.as_str(), fault, "of {before}");
    Ok(())
}

#[test]
fn expressions_nest_in_parentheses(rt: HostRuntime) -> Result<(), Fail> {
    let (alloc, form) = (rt.alloc(), Form::Expression);
    check_limit(&rt, alloc, form, ("( ", "a", " )"), "deep at 65")?;
    check_limit(&rt, alloc, form, ("a [ ", "1", " ]"), "deep at 130")?;
    check_limit(&rt, alloc, form, ("f ( ", "a", " )"), "deep at 130")
}

#[test]
fn operators_before_an_operand_nest(rt: HostRuntime) -> Result<(), Fail> {
    let (alloc, form) = (rt.alloc(), Form::Expression);
    check_limit(&rt, alloc, form, ("- ", "a", ""), "deep at 65")?;
    check_limit(&rt, alloc, form, ("sizeof ", "a", ""), "deep at 65")?;
    check_limit(&rt, alloc, form, ("( T ) ", "a", ""), "deep at 193")
}

#[test]
fn the_middle_of_a_choice_nests(rt: HostRuntime) -> Result<(), Fail> {
    let (alloc, form) = (rt.alloc(), Form::Expression);
    check_limit(&rt, alloc, form, ("a ? ", "b", " : c"), "deep at 130")
}

#[test]
fn declarators_nest_in_parentheses(rt: HostRuntime) -> Result<(), Fail> {
    let (alloc, form) = (rt.alloc(), Form::Declarator(Allowed::Named));
    check_limit(&rt, alloc, form, ("( ", "a", " )"), "deep at 65")?;
    check_limit(&rt, alloc, form, ("( * ", "a", " ) [ ]"), "deep at 129")
}

#[test]
fn parameters_and_members_nest(rt: HostRuntime) -> Result<(), Fail> {
    let alloc = rt.alloc();
    let form = Form::Typed(Allowed::Either);
    check_limit(&rt, alloc, form, ("int ( ", "int", " )"), "deep at 130")?;
    let form = Form::Specifiers;
    check_limit(
        &rt,
        alloc,
        form,
        ("struct { ", "int", " a ; }"),
        "deep at 130",
    )
}

// A text without nesting is read where none is left.
fn check_flat(rt: &impl Abort, alloc: Global, form: Form, text: &str) -> Result<(), Fail> {
    let found = told(alloc, Reading::within(form, 0), &mut types(alloc)?, text)?;
    assert!(rt; !found.as_str().contains("deep at"), "of {text}");
    assert!(rt; !found.as_str().contains("form at"), "of {text}");
    assert!(rt; !found.as_str().contains(".."), "of {text}");
    Ok(())
}

#[test]
fn chains_do_not_nest(rt: HostRuntime) -> Result<(), Fail> {
    let (alloc, form) = (rt.alloc(), Form::Expression);
    for before in ["a + ", "a = ", "a , ", "a * b + c && "] {
        let text = nested(alloc, before, "a", "", 200)?;
        check_flat(&rt, alloc, form, text.as_str())?;
    }
    let text = nested(alloc, "", "a", " . m ++ ( )", 200)?;
    check_flat(&rt, alloc, form, text.as_str())
}

#[test]
fn stars_and_suffixes_do_not_nest(rt: HostRuntime) -> Result<(), Fail> {
    let (alloc, form) = (rt.alloc(), Form::Typed(Allowed::Named));
    let text = nested(alloc, "int ", "* * const a", " [ ] ( void )", 200)?;
    check_flat(&rt, alloc, form, text.as_str())
}

// What nests by one is not read where nothing is left.
fn check_first(rt: &impl Abort, alloc: Global, form: Form, lines: &str) -> Result<(), Fail> {
    for line in lines.lines() {
        match line.split_once(" => ") {
            None => assert!(rt; false, "{line}"),
            Some((text, wanted)) => {
                let mut scope = types(alloc)?;
                let found = told(alloc, Reading::within(form, 0), &mut scope, text)?;
                assert_eq!(rt; found.as_str(), wanted, "of {text}");
            }
        }
    }
    Ok(())
}

const FIRST_NESTINGS: &str = "( a ) => deep at 1
a [ 1 ] => deep at 2
f ( a ) => deep at 2
f ( ) => < f ( ) >
! a => deep at 1
sizeof a => deep at 1
sizeof ( a ) => deep at 1
sizeof ( T ) => deep at 2
( T ) a => deep at 1
a ? b : c => deep at 2";

const FIRST_DECLARED: &str = "int a => { int a }
int ( a ) => deep at 2
int a [ ] => { int a [ ] }
int a [ 1 ] => deep at 3
int f ( ) => { int f ( ) }
int f ( void ) => { int f ( void ) }
int f ( int ) => deep at 3
struct s a => { struct s a }
struct { } a => { struct { } a }
struct { int b ; } a => deep at 2
enum { b , c } a => { enum { b , c } a }
enum { b = 1 } a => deep at 4
CFI_CDESC_T ( 3 ) a => { CFI_CDESC_T 3 a }";

#[test]
fn each_form_of_an_expression_that_nests(rt: HostRuntime) -> Result<(), Fail> {
    check_first(&rt, rt.alloc(), Form::Expression, FIRST_NESTINGS)
}

#[test]
fn each_form_of_a_declaration_that_nests(rt: HostRuntime) -> Result<(), Fail> {
    let form = Form::Typed(Allowed::Named);
    check_first(&rt, rt.alloc(), form, FIRST_DECLARED)
}

#[test]
fn a_nested_expression_is_one_nesting(rt: HostRuntime) -> Result<(), Fail> {
    let alloc = rt.alloc();
    check_first(&rt, alloc, Form::Nested, "a => deep at 0\n; => deep at 0")?;
    let found = told(
        alloc,
        Reading::within(Form::Nested, 1),
        &mut types(alloc)?,
        "( a )",
    )?;
    assert_eq!(rt; found.as_str(), "deep at 1");
    Ok(())
}
