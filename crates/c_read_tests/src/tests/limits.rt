//! What nests as deep as it may, and one deeper: rule 602, at the token that opens the nesting too many.

use super::told;
use std::alloc::{AllocError, Global};
use std::process::Abort;
use std::test::Fail;

fn put_often(text: &mut String, word: &str, times: u32) -> Result<(), AllocError> {
    for _ in 0..times {
        text.push_str(word)?;
    }
    Ok(())
}

// What a text is read as in which one part stands so often, and another behind the middle.
fn nested(
    alloc: Global,
    (before, open): (&str, &str),
    middle: &str,
    (close, after): (&str, &str),
    times: u32,
) -> Result<String, AllocError> {
    let mut text = String::new(alloc);
    text.push_str(before)?;
    put_often(&mut text, open, times)?;
    text.push_str(middle)?;
    put_often(&mut text, close, times)?;
    text.push_str(after)?;
    told(alloc, text.as_str())
}

// It is read where the part stands 64 times, and once more it breaks the rule in this column.
fn check_limit(
    rt: &impl Abort,
    alloc: Global,
    before: (&str, &str),
    middle: &str,
    after: (&str, &str),
    fault: &str,
) -> Result<(), Fail> {
    let deepest = nested(alloc, before, middle, after, 64)?;
    assert_eq!(rt; deepest.as_str(), "declaration", "of {middle}");
    let deeper = nested(alloc, before, middle, after, 65)?;
    assert_eq!(rt; deeper.as_str(), fault, "of {middle}");
    Ok(())
}

// It has no form; where the part stands 65 times, it breaks this rule.
fn check_formless(
    rt: &impl Abort,
    alloc: Global,
    before: (&str, &str),
    after: (&str, &str),
    fault: &str,
) -> Result<(), Fail> {
    let deepest = nested(alloc, before, "1", after, 64)?;
    assert_eq!(rt; deepest.as_str(), "601 at 1:1", "of {fault}");
    let deeper = nested(alloc, before, "1", after, 65)?;
    assert_eq!(rt; deeper.as_str(), fault, "of {fault}");
    Ok(())
}

#[test]
fn nesting_behind_a_fault_is_told(rt: HostRuntime) -> Result<(), Fail> {
    let alloc = rt.alloc();
    check_formless(&rt, alloc, ("int 3 a = ", "("), (")", ";"), "602 at 1:75")?;
    check_formless(&rt, alloc, ("int a[2)] = ", "{"), ("}", ";"), "602 at 1:77")
}

#[test]
fn nesting_behind_the_declaration_is_not_told(rt: HostRuntime) -> Result<(), Fail> {
    let alloc = rt.alloc();
    check_formless(
        &rt,
        alloc,
        ("int 3; int a = ", "("),
        (")", ";"),
        "601 at 1:1",
    )?;
    let function = ("int f(void) { x y; } int a = ", "(");
    check_formless(&rt, alloc, function, (")", ";"), "601 at 1:1")
}

#[test]
fn initial_values_nest(rt: HostRuntime) -> Result<(), Fail> {
    let fault = "602 at 1:73";
    check_limit(&rt, rt.alloc(), ("int a = ", "{"), "1", ("}", ";"), fault)
}

#[test]
fn parentheses_nest(rt: HostRuntime) -> Result<(), Fail> {
    let fault = "602 at 1:73";
    check_limit(&rt, rt.alloc(), ("int a = ", "("), "1", (")", ";"), fault)?;
    check_limit(
        &rt,
        rt.alloc(),
        ("int ", "("),
        "a",
        (")", ";"),
        "602 at 1:69",
    )
}

#[test]
fn operators_nest(rt: HostRuntime) -> Result<(), Fail> {
    let fault = "602 at 1:73";
    check_limit(&rt, rt.alloc(), ("int a = ", "~"), "b", ("", ";"), fault)
}

#[test]
fn blocks_nest(rt: HostRuntime) -> Result<(), Fail> {
    let alloc = rt.alloc();
    let deepest = nested(alloc, ("int f(void)", "{"), "", ("}", ""), 64)?;
    assert_eq!(rt; deepest.as_str(), "function of 133");
    let deeper = nested(alloc, ("int f(void)", "{"), "", ("}", ""), 65)?;
    assert_eq!(rt; deeper.as_str(), "602 at 1:76");
    Ok(())
}

#[test]
fn a_nesting_too_many_may_end_the_file(rt: HostRuntime) -> Result<(), Fail> {
    let alloc = rt.alloc();
    let open = nested(alloc, ("int b; int a = ", "("), "", ("", ""), 65)?;
    assert_eq!(rt; open.as_str(), "602 at 1:80");
    let fewer = nested(alloc, ("int b; int a = ", "("), "", ("", ""), 64)?;
    assert_eq!(rt; fewer.as_str(), "601 at 1:8");
    Ok(())
}

#[test]
fn the_rule_that_is_met_first_is_told(rt: HostRuntime) -> Result<(), Fail> {
    let alloc = rt.alloc();
    let deep = nested(alloc, ("int a = ", "("), "; goto", ("", ""), 65)?;
    assert_eq!(rt; deep.as_str(), "602 at 1:73");
    let form = nested(alloc, ("int a = ; int b = ", "("), "1", (")", ";"), 65)?;
    assert_eq!(rt; form.as_str(), "601 at 1:1");
    Ok(())
}
