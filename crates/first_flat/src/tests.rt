use crate::lower;
use first_form::{Reading, read_pair};
use flat_ir::{FlatProgram, flat_ok};
use std::alloc::{AllocError, Global};
use std::test::Fail;

const HEAD: &str =
    "program one\nuse iso_c_binding\nimplicit none\ninterface\nsubroutine put(c) bind(c)\nimport\ninteger(c_int), value :: c\nend subroutine\nend interface\n";

const END: &str = "end program\n";

// The code of the program with these calls and this function.
fn lowered(alloc: Global, calls: &str, function: &str) -> Result<FlatProgram, AllocError> {
    let fortran = format!(in alloc; "{HEAD}{calls}{END}")?;
    let c = format!(in alloc; "#include <stdio.h>\n{function}\n")?;
    match read_pair(alloc, fortran.as_bytes(), c.as_bytes()) {
        Ok(Reading::Program(program)) => lower(alloc, &program),
        _ => Err(AllocError),
    }
}

// A procedure by its number.
fn shown(alloc: Global, p: &FlatProgram, number: usize) -> Result<String, AllocError> {
    match p.procs.as_slice().get(number) {
        Some(f) => format!(in alloc; "{f:?}"),
        None => format!(in alloc; "none"),
    }
}

#[test]
fn the_function_gives_its_parameter(rt: HostRuntime) -> Result<(), Fail> {
    let alloc = rt.alloc();
    let p = lowered(
        alloc,
        "call put(65_c_int)\n",
        "void put(int c){putchar(c);}",
    )?;
    assert_eq!(rt;
        shown(alloc, &p, 0)?.as_str(),
        "FlatProc { params: 1, values: 1, charge: 1856, body: List([Give(Value(0))]) }"
    );
    Ok(())
}

#[test]
fn a_call_is_a_call(rt: HostRuntime) -> Result<(), Fail> {
    let alloc = rt.alloc();
    let p = lowered(
        alloc,
        "call put(65_c_int)\n",
        "void put(int c){putchar(c);}",
    )?;
    assert_eq!(rt; p.entry, 1);
    assert_eq!(rt;
        shown(alloc, &p, 1)?.as_str(),
        "FlatProc { params: 0, values: 0, charge: 3328, body: List([Call(List([]), 0, List([Number(65)])), Stop(Number(0))]) }"
    );
    Ok(())
}

#[test]
fn statements_and_calls_keep_their_order(rt: HostRuntime) -> Result<(), Fail> {
    let alloc = rt.alloc();
    let p = lowered(
        alloc,
        "call put(7_c_int)\ncall put(2147483647_c_int)\n",
        "void put(int c){putchar(2147483647);putchar(c);putchar(0);}",
    )?;
    assert_eq!(rt;
        shown(alloc, &p, 0)?.as_str(),
        "FlatProc { params: 1, values: 1, charge: 2496, body: List([Give(Number(2147483647)), Give(Value(0)), Give(Number(0))]) }"
    );
    assert_eq!(rt;
        shown(alloc, &p, 1)?.as_str(),
        "FlatProc { params: 0, values: 0, charge: 3648, body: List([Call(List([]), 0, List([Number(7)])), Call(List([]), 0, List([Number(2147483647)])), Stop(Number(0))]) }"
    );
    Ok(())
}

#[test]
fn code_holds_together(rt: HostRuntime) -> Result<(), Fail> {
    let alloc = rt.alloc();
    let p = lowered(
        alloc,
        "call put(65_c_int)\n",
        "void put(int c){putchar(c);}",
    )?;
    assert!(rt; flat_ok(&p));
    Ok(())
}
