use super::{PutcharArgument, Reading, read_pair};
use std::alloc::{AllocError, Global};
use std::test::Fail;

const SMALLEST: &str =
    "program one\nuse iso_c_binding\nimplicit none\ninterface\nsubroutine put(c) bind(c)\nimport\ninteger(c_int), value :: c\nend subroutine\nend interface\ncall put(65_c_int)\nend program\n";

const FUNCTION: &str = "#include <stdio.h>\nvoid put(int c){putchar(c);}\n";

const ACCEPTED_CALLS: &str = "call put(0_c_int)
call put(2147483647_c_int)";

const REFUSED_CALLS: &str = "call put(2147483648_c_int)
call put(12147483647_c_int)
call put(065_c_int)
call put(00_c_int)
call put(-1_c_int)
call put(+1_c_int)
call put(_c_int)
call put(65)
call  put(65_c_int)
call put( 65_c_int)
CALL put(65_c_int)
call pot(65_c_int)
call put(65_c_int); call put(66_c_int)
end program

";

const REFUSED_LABELS: &str = "one
c
int
while
main
puts
strlen
Put
put1

";

const REFUSED_NAMES: &str = "put
One
o_ne

";

// A bar stands for a line feed.
const REFUSED_FUNCTIONS: &str = "
#include <stdio.h>|
void put(int c){putchar(c);}|
#include <stdio.h>|void get(int c){putchar(c);}|
#include <stdio.h>|void put(int c){}|
#include <stdio.h>|void put(int c){|}|
#include <stdio.h>|void put(int c){putchar(c);|}|
#include <stdio.h>|void put(int c){|putchar(c);putchar(c);|}|
#include <stdio.h>|void put(int c){|putchar(c);}|
#include <stdio.h>|void put(int c){|putchar(c);||putchar(c);|}|
#include <stdio.h>|void put(int c){putchar(c);}||
#include <stdio.h>|void put(int c){ putchar(c);}|
#include <stdio.h>|void put(int c){putchar(d);}|
#include <stdio.h>|void put(int c){putchar(065);}|
#include <stdio.h>|void put(int c){putchar(2147483648);}|
#include <stdio.h>|void put(int c){putchar();}|
#include <stdio.h>|void put(int c){putchar(c)}|
#include  <stdio.h>|void put(int c){putchar(c);}|";

fn verdict(alloc: Global, fortran: &str, c: &str) -> Result<&'static str, Fail> {
    Ok(match read_pair(alloc, fortran.as_bytes(), c.as_bytes())? {
        Reading::Program(_) => "program",
        Reading::Fortran => "Fortran",
        Reading::C => "C",
    })
}

// A Fortran text with this name, this label and these lines in place of the calls.
fn fortran_text(alloc: Global, name: &str, label: &str, calls: &str) -> Result<String, AllocError> {
    format!(in alloc;
        "program {name}\nuse iso_c_binding\nimplicit none\ninterface\nsubroutine {label}(c) bind(c)\nimport\ninteger(c_int), value :: c\nend subroutine\nend interface\n{calls}\nend program\n"
    )
}

fn c_text(alloc: Global, label: &str, body: &str) -> Result<String, AllocError> {
    format!(in alloc; "#include <stdio.h>\nvoid {label}(int c){{{body}}}\n")
}

fn repeated(alloc: Global, piece: &str, count: usize) -> Result<String, AllocError> {
    let mut text = String::new(alloc);
    for _ in 0..count {
        text.push_str(piece)?;
    }
    Ok(text)
}

// Each line feed by a carriage return and a line feed.
fn with_carriage_returns(alloc: Global, text: &str) -> Result<String, AllocError> {
    let mut changed = String::new(alloc);
    for line in text.lines() {
        changed.push_str(line)?;
        changed.push_str("\r\n")?;
    }
    Ok(changed)
}

#[test]
fn the_smallest_program_is_read(rt: HostRuntime) -> Result<(), Fail> {
    match read_pair(rt.alloc(), SMALLEST.as_bytes(), FUNCTION.as_bytes())? {
        Reading::Program(program) => {
            assert_eq!(rt; program.label.as_str(), "put");
            assert_eq!(rt; program.calls.as_slice(), [65].as_slice());
            assert_eq!(rt;
                program.puts.as_slice(),
                [PutcharArgument::Parameter].as_slice()
            );
        }
        other => panic!(rt; "{other:?}"),
    }
    Ok(())
}

#[test]
fn numbers_are_read_in_order(rt: HostRuntime) -> Result<(), Fail> {
    let fortran = fortran_text(
        rt.alloc(),
        "one",
        "put",
        "call put(10_c_int)\ncall put(0_c_int)\ncall put(2147483647_c_int)",
    )?;
    let c = c_text(
        rt.alloc(),
        "put",
        "\nputchar(66);\nputchar(c);\nputchar(2147483647);\n",
    )?;
    match read_pair(rt.alloc(), fortran.as_bytes(), c.as_bytes())? {
        Reading::Program(program) => {
            assert_eq!(rt; program.calls.as_slice(), [10, 0, 2_147_483_647].as_slice());
            assert_eq!(rt;
                program.puts.as_slice(),
                [
                    PutcharArgument::Number(66),
                    PutcharArgument::Parameter,
                    PutcharArgument::Number(2_147_483_647)
                ]
                .as_slice()
            );
        }
        other => panic!(rt; "{other:?}"),
    }
    Ok(())
}

#[test]
fn calls_stand_as_shown(rt: HostRuntime) -> Result<(), Fail> {
    for call in ACCEPTED_CALLS.lines() {
        let fortran = fortran_text(rt.alloc(), "one", "put", call)?;
        assert_eq!(rt;
            verdict(rt.alloc(), fortran.as_str(), FUNCTION)?,
            "program",
            "at {call}"
        );
    }
    for call in REFUSED_CALLS.lines() {
        let fortran = fortran_text(rt.alloc(), "one", "put", call)?;
        assert_eq!(rt;
            verdict(rt.alloc(), fortran.as_str(), FUNCTION)?,
            "Fortran",
            "at {call}"
        );
    }
    Ok(())
}

// What a program of this name is whose function has this label.
fn named(alloc: Global, name: &str, label: &str) -> Result<&'static str, Fail> {
    let call = format!(in alloc; "call {label}(65_c_int)")?;
    let fortran = fortran_text(alloc, name, label, call.as_str())?;
    let c = c_text(alloc, label, "putchar(c);")?;
    verdict(alloc, fortran.as_str(), c.as_str())
}

#[test]
fn labels_are_free_words(rt: HostRuntime) -> Result<(), Fail> {
    let longest = repeated(rt.alloc(), "a", 63)?;
    let too_long = repeated(rt.alloc(), "a", 64)?;
    assert_eq!(rt; named(rt.alloc(), "one", "putc")?, "program");
    assert_eq!(rt; named(rt.alloc(), "c", "put")?, "program");
    assert_eq!(rt; named(rt.alloc(), "one", longest.as_str())?, "program");
    assert_eq!(rt; named(rt.alloc(), longest.as_str(), "put")?, "program");
    assert_eq!(rt; named(rt.alloc(), "one", too_long.as_str())?, "Fortran");
    assert_eq!(rt; named(rt.alloc(), too_long.as_str(), "put")?, "Fortran");
    for label in REFUSED_LABELS.lines() {
        assert_eq!(rt; named(rt.alloc(), "one", label)?, "Fortran", "at {label}");
    }
    for name in REFUSED_NAMES.lines() {
        assert_eq!(rt; named(rt.alloc(), name, "put")?, "Fortran", "at {name}");
    }
    Ok(())
}

#[test]
fn blanks_at_the_ends_of_lines_are_dropped(rt: HostRuntime) -> Result<(), Fail> {
    let fortran = with_carriage_returns(rt.alloc(), SMALLEST)?;
    let c = with_carriage_returns(rt.alloc(), FUNCTION)?;
    assert_eq!(rt;
        verdict(rt.alloc(), fortran.as_str(), c.as_str())?,
        "program"
    );

    let indented =
        "  program one \t\nuse iso_c_binding\n\timplicit none\ninterface\n subroutine put(c) bind(c)\nimport\ninteger(c_int), value :: c  \nend subroutine\nend interface\n\t call put(65_c_int)\t\t\r\nend program";
    assert_eq!(rt;
        verdict(
            rt.alloc(),
            indented,
            "\t#include <stdio.h> \r\n void put(int c){\n\tputchar(c);\t\n }\t"
        )?,
        "program"
    );
    Ok(())
}

// The text with a line feed for each bar.
fn with_line_feeds(alloc: Global, text: &str) -> Result<String, AllocError> {
    let mut changed = String::new(alloc);
    for letter in text.chars() {
        changed.push(if letter == '|' { '\n' } else { letter })?;
    }
    Ok(changed)
}

#[test]
fn other_fortran_texts_are_refused(rt: HostRuntime) -> Result<(), Fail> {
    let before = format!(in rt.alloc(); "\n{SMALLEST}")?;
    let after_end = format!(in rt.alloc(); "{SMALLEST}\n")?;
    let lone_carriage_return = format!(in rt.alloc(); "{SMALLEST}\r")?;
    for fortran in [
        "",
        "\n",
        "program one\n",
        before.as_str(),
        after_end.as_str(),
        lone_carriage_return.as_str(),
    ] {
        assert_eq!(rt;
            verdict(rt.alloc(), fortran, FUNCTION)?,
            "Fortran",
            "at {fortran}"
        );
    }
    Ok(())
}

#[test]
fn other_c_texts_are_refused(rt: HostRuntime) -> Result<(), Fail> {
    for written in REFUSED_FUNCTIONS.lines() {
        let c = with_line_feeds(rt.alloc(), written)?;
        assert_eq!(rt;
            verdict(rt.alloc(), SMALLEST, c.as_str())?,
            "C",
            "at {written}"
        );
    }
    Ok(())
}

#[test]
fn a_hundred_stand_and_no_more(rt: HostRuntime) -> Result<(), Fail> {
    for (count, fortran_want, c_want) in [
        (1, "program", "program"),
        (100, "program", "program"),
        (101, "Fortran", "C"),
    ] {
        let calls = repeated(rt.alloc(), "call put(65_c_int)\n", count)?;
        let fortran = fortran_text(rt.alloc(), "one", "put", calls.as_str().trim_end())?;
        assert_eq!(rt;
            verdict(rt.alloc(), fortran.as_str(), FUNCTION)?,
            fortran_want,
            "with {count} calls"
        );

        let on_one_line = repeated(rt.alloc(), "putchar(c);", count)?;
        let c = c_text(rt.alloc(), "put", on_one_line.as_str())?;
        assert_eq!(rt;
            verdict(rt.alloc(), SMALLEST, c.as_str())?,
            c_want,
            "with {count} statements on one line"
        );

        let on_lines = repeated(rt.alloc(), "\nputchar(66);", count)?;
        let body = format!(in rt.alloc(); "{on_lines}\n")?;
        let c = c_text(rt.alloc(), "put", body.as_str())?;
        assert_eq!(rt;
            verdict(rt.alloc(), SMALLEST, c.as_str())?,
            c_want,
            "with {count} statements on lines"
        );
    }
    Ok(())
}

#[test]
fn bytes_need_be_no_text(rt: HostRuntime) -> Result<(), Fail> {
    match read_pair(
        rt.alloc(),
        b"program \xff\n".as_slice(),
        FUNCTION.as_bytes(),
    )? {
        Reading::Fortran => Ok(()),
        other => panic!(rt; "{other:?}"),
    }
}
