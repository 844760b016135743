//! Statements and blocks that nest as deep as they may, and one deeper: 63 times, and the function's body around them is the 64th.

use super::told;
use std::alloc::{AllocError, Global};
use std::test::Fail;

// So often a text, the middle, and so often another one.
fn nested(
    alloc: Global,
    (before, middle, after): (&str, &str, &str),
    times: u32,
) -> Result<String, AllocError> {
    let mut text = String::new(alloc);
    for _ in 0..times {
        text.push_str(before)?;
    }
    text.push_str(middle)?;
    for _ in 0..times {
        text.push_str(after)?;
    }
    Ok(text)
}

// What nested statements are read as.
fn told_nested(alloc: Global, parts: (&str, &str, &str), times: u32) -> Result<String, AllocError> {
    let text = nested(alloc, parts, times)?;
    told(alloc, text.as_str())
}

// Whether nested statements are read without a fault.
fn is_read(alloc: Global, parts: (&str, &str, &str), times: u32) -> Result<bool, AllocError> {
    let told = told_nested(alloc, parts, times)?;
    Ok(!told.as_str().contains(" at "))
}

// What a block with so many of the same items is read as.
fn told_row(alloc: Global, items: &str, times: u32) -> Result<String, AllocError> {
    let mut text = String::new(alloc);
    text.push_str("{ ")?;
    for _ in 0..times {
        text.push_str(items)?;
    }
    text.push_str("}")?;
    told(alloc, text.as_str())
}

#[test]
fn blocks_nest_63_deep(rt: HostRuntime) -> Result<(), Fail> {
    let blocks = ("{ ", "", "} ");
    assert!(rt; is_read(rt.alloc(), blocks, 63)?);
    assert_eq!(rt; told_nested(rt.alloc(), blocks, 64)?.as_str(), "deep at 64");
    Ok(())
}

#[test]
fn choices_nest_63_deep(rt: HostRuntime) -> Result<(), Fail> {
    let ifs = ("if ( a ) ", ";", "");
    assert!(rt; is_read(rt.alloc(), ifs, 63)?);
    assert_eq!(rt; told_nested(rt.alloc(), ifs, 64)?.as_str(), "deep at 254");
    Ok(())
}

#[test]
fn labels_nest_63_deep(rt: HostRuntime) -> Result<(), Fail> {
    let labels = ("default : ", ";", "");
    assert!(rt; is_read(rt.alloc(), labels, 63)?);
    assert_eq!(rt;
        told_nested(rt.alloc(), labels, 64)?.as_str(),
        "deep at 128"
    );
    Ok(())
}

#[test]
fn loops_nest_63_deep(rt: HostRuntime) -> Result<(), Fail> {
    let loops = ("do ", ";", " while ( a ) ;");
    assert!(rt; is_read(rt.alloc(), loops, 63)?);
    assert_eq!(rt; told_nested(rt.alloc(), loops, 64)?.as_str(), "deep at 64");
    Ok(())
}

#[test]
fn statements_in_a_row_do_not_nest(rt: HostRuntime) -> Result<(), Fail> {
    let told = told_row(rt.alloc(), "a ; int b ; { } ", 200)?;
    assert_eq!(rt; told.as_str(), "block block");
    Ok(())
}
