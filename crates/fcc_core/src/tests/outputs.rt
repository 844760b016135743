use super::{C, FORTRAN, NOTHING_FAILS, check, pair, ran};
use std::alloc::{AllocError, Global};
use std::test::Fail;

/// Numbers, and the byte that `putchar` writes of each: what is left of the number as an unsigned char.
const NUMBERS: [(u32, u8); 10] = [
    (2147483647, 255),
    (256, 0),
    (300, 44),
    (0, 0),
    (65, 65),
    (2048, 0),
    (4095, 255),
    (2147481599, 255),
    (2147481600, 0),
    (2147481601, 1),
];

// How many calls the greatest program makes, and how many statements its function has.
const MOST: u32 = 100;

// The argument of a call.
fn argument(call: u32) -> u32 {
    (call % MOST) * 21474836 + 11
}

// The number in a statement.
fn constant(statement: u32) -> u32 {
    2147483647 - (statement % MOST) * 257
}

fn low_byte(number: u32) -> u8 {
    (number % 256) as u8
}

fn fortran_text(alloc: Global, calls: &[u32]) -> Result<String, AllocError> {
    let mut text = String::from_str(
        alloc,
        "program one\nuse iso_c_binding\nimplicit none\ninterface\nsubroutine put(c) bind(c)\nimport\ninteger(c_int), value :: c\nend subroutine\nend interface\n",
    )?;
    for number in calls {
        text.push_str(format!(in alloc; "call put({number}_c_int)\n")?.as_str())?;
    }
    text.push_str("end program\n")?;
    Ok(text)
}

// The function puts its parameter, and then a number, and so on; what stands between its statements is `between`.
fn c_text(alloc: Global, numbers: &[u32], between: &str) -> Result<String, AllocError> {
    let mut text = format!(in alloc; "#include <stdio.h>\nvoid put(int c){{{between}")?;
    for number in numbers {
        text.push_str("putchar(c);")?;
        text.push_str(between)?;
        text.push_str(format!(in alloc; "putchar({number});{between}")?.as_str())?;
    }
    text.push_str("}\n")?;
    Ok(text)
}

// For each call and each number of the function: the call's byte, and the number's.
fn expected(alloc: Global, calls: &[u8], numbers: &[u8]) -> Result<Vec<u8>, AllocError> {
    let mut bytes = Vec::new(alloc);
    for call in calls {
        for number in numbers {
            bytes.push(*call)?;
            bytes.push(*number)?;
        }
    }
    Ok(bytes)
}

#[test]
fn the_letter_comes_out(rt: HostRuntime) -> Result<(), Fail> {
    let run = ran(
        rt.alloc(),
        "run p.f90 q.c",
        &pair(FORTRAN, C),
        NOTHING_FAILS,
    )?;
    check(&rt, &run, "the letter", 0, b"A", "stop 0\n", true);
    Ok(())
}

#[test]
fn the_low_bytes_of_numbers_come_out(rt: HostRuntime) -> Result<(), Fail> {
    let mut numbers = Vec::new(rt.alloc());
    let mut bytes = Vec::new(rt.alloc());
    for (number, byte) in NUMBERS {
        numbers.push(number)?;
        bytes.push(byte)?;
    }
    let fortran = fortran_text(rt.alloc(), &numbers)?;
    let c = c_text(rt.alloc(), &numbers, "")?;
    let run = ran(
        rt.alloc(),
        "run p.f90 q.c",
        &pair(fortran.as_str(), c.as_str()),
        NOTHING_FAILS,
    )?;
    let want = expected(rt.alloc(), &bytes, &bytes)?;
    check(&rt, &run, "numbers", 0, &want, "stop 0\n", true);
    Ok(())
}

// A hundred calls of a function with a hundred statements, on one line and on lines of their own.
#[test]
fn the_greatest_program_comes_out(rt: HostRuntime) -> Result<(), Fail> {
    let mut calls = Vec::new(rt.alloc());
    let mut call_bytes = Vec::new(rt.alloc());
    for call in 0..MOST {
        calls.push(argument(call))?;
        call_bytes.push(low_byte(argument(call)))?;
    }
    let mut numbers = Vec::new(rt.alloc());
    let mut number_bytes = Vec::new(rt.alloc());
    for statement in 0..MOST / 2 {
        numbers.push(constant(statement))?;
        number_bytes.push(low_byte(constant(statement)))?;
    }
    let want = expected(rt.alloc(), &call_bytes, &number_bytes)?;
    assert_eq!(rt; want.len(), 10_000);
    let fortran = fortran_text(rt.alloc(), &calls)?;
    for between in ["", "\n"] {
        let c = c_text(rt.alloc(), &numbers, between)?;
        let run = ran(
            rt.alloc(),
            "run p.f90 q.c",
            &pair(fortran.as_str(), c.as_str()),
            NOTHING_FAILS,
        )?;
        check(&rt, &run, between, 0, &want, "stop 0\n", true);
    }
    Ok(())
}
