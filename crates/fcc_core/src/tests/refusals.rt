use super::{C, FORTRAN, Failing, NOTHING_FAILS, check, pair, ran};
use std::test::Fail;

const MODULE: &str =
    "module two\nuse iso_c_binding\nimplicit none\ncontains\nsubroutine put(c) bind(c)\ninteger(c_int), value :: c\nend subroutine\nend module\n";

const GET: &str = "#include <stdio.h>\nvoid get(int c){putchar(c);}\n";

const FILES: [(&str, &str); 6] = [
    ("p.f90", FORTRAN),
    ("q.c", C),
    ("r.c", C),
    ("module.f90", MODULE),
    ("empty.f90", ""),
    ("get.c", GET),
];

const WORDS_OF_NOTHING: [&str; 10] = [
    "",
    "run",
    "run --steps=1",
    "run --steps=0 p.f90 q.c",
    "run --steps=01 p.f90 q.c",
    "run --steps=1 --steps=1 p.f90 q.c",
    "run --heap=4096 p.f90 q.c",
    "run p.f90 p.f90",
    "run p.f90 q.h",
    "check p.f90 q.c",
];

// The words, and the file that the library doesn't give.
const ABSENT: [(&str, &str); 5] = [
    ("run x.f90", "library x.f90\n"),
    ("run x.f90 y.c", "library x.f90\n"),
    ("run p.f90 y.c", "library y.c\n"),
    ("run q.c p.f90 y.c", "library y.c\n"),
    ("run module.f90 y.c --steps=1", "library y.c\n"),
];

// The words, and the first file that isn't what is due at its place, or the last where one is missing.
const NOT_BUILT: [(&str, &str); 9] = [
    ("run p.f90", "p.f90:1: X01\n"),
    ("run q.c", "q.c:1: X01\n"),
    ("run q.c p.f90", "q.c:1: X01\n"),
    ("run p.f90 module.f90", "module.f90:1: X01\n"),
    ("run p.f90 q.c r.c", "r.c:1: X01\n"),
    ("run module.f90 q.c r.c", "r.c:1: X01\n"),
    ("run module.f90 get.c", "module.f90:1: X01\n"),
    ("run empty.f90 q.c", "empty.f90:1: X01\n"),
    ("run p.f90 get.c", "get.c:1: X01\n"),
];

#[test]
fn words_and_files_are_refused(rt: HostRuntime) -> Result<(), Fail> {
    for line in WORDS_OF_NOTHING {
        let run = ran(rt.alloc(), line, &FILES, NOTHING_FAILS)?;
        check(&rt, &run, line, 200, b"", "words\n", false);
    }
    for (line, told) in ABSENT {
        let run = ran(rt.alloc(), line, &FILES, NOTHING_FAILS)?;
        check(&rt, &run, line, 201, b"", told, false);
    }
    for (line, told) in NOT_BUILT {
        let run = ran(rt.alloc(), line, &FILES, NOTHING_FAILS)?;
        check(&rt, &run, line, 202, b"", told, false);
    }
    Ok(())
}

#[test]
fn the_first_text_of_another_form_is_told(rt: HostRuntime) -> Result<(), Fail> {
    for (fortran, c, told) in [
        (MODULE, C, "p.f90:1: X01\n"),
        (MODULE, GET, "p.f90:1: X01\n"),
        (FORTRAN, GET, "q.c:1: X01\n"),
    ] {
        let run = ran(
            rt.alloc(),
            "run p.f90 q.c",
            &pair(fortran, c),
            NOTHING_FAILS,
        )?;
        check(&rt, &run, told, 202, b"", told, false);
    }
    Ok(())
}

const OPEN_TEXT: &str = "program one\nprint *, 'a\nend program\n";

// A program whose third statement has no place there, one whose second has no form, one without its end, and one with 65 parentheses in one another.
const LATE_USE: &str = "program p\nimplicit none\nuse m\nend program\n";

const NO_FORM: &str = "program p\ni = \nend program\n";

const UNENDED: &str = "\nprogram p\nimplicit none\n";

const DEEP: &str =
    "program p\nprint *, (((((((((((((((((((((((((((((((((((((((((((((((((((((((((((((((((1)))))))))))))))))))))))))))))))))))))))))))))))))))))))))))))))))\nend\n";

const DEEP_VALUE: &str =
    "int a =\n(((((((((((((((((((((((((((((((((((((((((((((((((((((((((((((((((1)))))))))))))))))))))))))))))))))))))))))))))))))))))))))))))))));\n";

const TEXTS: [(&str, &str); 16] = [
    ("p.f90", FORTRAN),
    ("q.c", C),
    ("open.f90", OPEN_TEXT),
    ("late.f90", LATE_USE),
    ("form.f90", NO_FORM),
    ("unended.f90", UNENDED),
    ("deep.f90", DEEP),
    ("if.c", "int a;\n#if 1\n"),
    ("function.c", "#define F(x) x\n"),
    ("absent.c", "#include \"absent.h\"\n#if 1\n"),
    ("deep.c", "#if 1\n#include \"broken.h\"\n#endif\n"),
    ("broken.h", "#error\n"),
    ("form.c", "int x\n"),
    ("second.c", "int a;\nint b\n"),
    ("value.c", DEEP_VALUE),
    ("both.c", "int x\n#if 1\n"),
];

// The words, the status, and the first file that isn't given or the first broken rule, in the order in which the texts are read.
const BROKEN: [(&str, u8, &str); 27] = [
    ("run open.f90 q.c", 202, "open.f90:2: L04\n"),
    ("run p.f90 if.c", 202, "if.c:2: P04\n"),
    ("run p.f90 function.c", 202, "function.c:1: P06\n"),
    ("run p.f90 deep.c", 202, "deep.c:2: P08\n"),
    ("run p.f90 absent.c", 201, "library absent.h\n"),
    ("run open.f90 absent.c", 202, "open.f90:2: L04\n"),
    ("run p.f90 if.c open.f90", 202, "if.c:2: P04\n"),
    ("run if.c", 202, "if.c:2: P04\n"),
    ("run open.f90 y.c", 202, "open.f90:2: L04\n"),
    ("run q.c p.f90", 202, "q.c:1: X01\n"),
    ("run late.f90 q.c", 202, "late.f90:3: S02\n"),
    ("run form.f90 q.c", 202, "form.f90:2: S01\n"),
    ("run unended.f90 q.c", 202, "unended.f90:2: S02\n"),
    ("run deep.f90 q.c", 202, "deep.f90:2: S03\n"),
    ("run late.f90 open.f90", 202, "late.f90:3: S02\n"),
    ("run late.f90 if.c", 202, "late.f90:3: S02\n"),
    ("run late.f90 y.c", 202, "late.f90:3: S02\n"),
    ("run open.f90 late.f90", 202, "open.f90:2: L04\n"),
    ("run if.c late.f90", 202, "if.c:2: P04\n"),
    ("run q.c p.f90 late.f90", 202, "late.f90:3: S02\n"),
    ("run p.f90 form.c", 202, "form.c:1: G01\n"),
    ("run p.f90 second.c", 202, "second.c:2: G01\n"),
    ("run p.f90 value.c", 202, "value.c:2: G02\n"),
    ("run p.f90 both.c", 202, "both.c:2: P04\n"),
    ("run p.f90 q.c form.c", 202, "form.c:1: G01\n"),
    ("run form.c late.f90", 202, "form.c:1: G01\n"),
    ("run form.c y.c", 202, "form.c:1: G01\n"),
];

#[test]
fn the_first_broken_rule_is_told(rt: HostRuntime) -> Result<(), Fail> {
    for (line, status, told) in BROKEN {
        let run = ran(rt.alloc(), line, &TEXTS, NOTHING_FAILS)?;
        check(&rt, &run, line, status, b"", told, false);
    }
    Ok(())
}

#[test]
fn a_misplaced_statement_is_told_by_its_line(rt: HostRuntime) -> Result<(), Fail> {
    let files = [("p.f90", "program p; implicit none; use m; end program\n")];
    let run = ran(rt.alloc(), "run p.f90", &files, NOTHING_FAILS)?;
    check(&rt, &run, "late USE", 202, b"", "p.f90:1: S02\n", false);
    Ok(())
}

// A refusal whose line the error stream doesn't take.
#[test]
fn a_refusal_that_cannot_be_told(rt: HostRuntime) -> Result<(), Fail> {
    let failing = Failing {
        err: &[0],
        ..NOTHING_FAILS
    };
    for line in ["run", "run x.f90", "run q.c p.f90", "run p.f90 get.c"] {
        let run = ran(rt.alloc(), line, &FILES, failing)?;
        check(&rt, &run, line, 208, b"", "", false);
    }
    Ok(())
}
