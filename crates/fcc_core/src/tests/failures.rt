use super::{C, FORTRAN, Failing, NOTHING_FAILS, check, pair, ran};
use std::test::Fail;

const THREE_CALLS: &str =
    "program one\nuse iso_c_binding\nimplicit none\ninterface\nsubroutine put(c) bind(c)\nimport\ninteger(c_int), value :: c\nend subroutine\nend interface\ncall put(65_c_int)\ncall put(66_c_int)\ncall put(67_c_int)\nend program\n";

/// What is wanted where some calls fail.
struct Row<'a> {
    failing: Failing<'a>,
    status: u8,
    out: &'a str,
    err: &'a str,
    kept: bool,
}

const ROWS: [Row<'static>; 11] = [
    Row {
        failing: NOTHING_FAILS,
        status: 0,
        out: "ABC",
        err: "stop 0\n",
        kept: true,
    },
    Row {
        failing: Failing {
            library: &[0],
            ..NOTHING_FAILS
        },
        status: 201,
        out: "",
        err: "library p.f90\n",
        kept: false,
    },
    Row {
        failing: Failing {
            library: &[1],
            ..NOTHING_FAILS
        },
        status: 201,
        out: "",
        err: "library q.c\n",
        kept: false,
    },
    Row {
        failing: Failing {
            library: &[0],
            out: &[],
            err: &[0],
        },
        status: 208,
        out: "",
        err: "",
        kept: false,
    },
    Row {
        failing: Failing {
            out: &[0],
            ..NOTHING_FAILS
        },
        status: 208,
        out: "",
        err: "sink fault\n",
        kept: true,
    },
    Row {
        failing: Failing {
            out: &[1],
            ..NOTHING_FAILS
        },
        status: 208,
        out: "A",
        err: "sink fault\n",
        kept: true,
    },
    Row {
        failing: Failing {
            out: &[2],
            ..NOTHING_FAILS
        },
        status: 208,
        out: "AB",
        err: "sink fault\n",
        kept: true,
    },
    Row {
        failing: Failing {
            library: &[],
            out: &[1],
            err: &[0],
        },
        status: 208,
        out: "A",
        err: "",
        kept: true,
    },
    Row {
        failing: Failing {
            err: &[0],
            ..NOTHING_FAILS
        },
        status: 208,
        out: "ABC",
        err: "",
        kept: true,
    },
    Row {
        failing: Failing {
            library: &[2],
            out: &[3],
            err: &[1],
        },
        status: 0,
        out: "ABC",
        err: "stop 0\n",
        kept: true,
    },
    Row {
        failing: Failing {
            library: &[2, 7],
            out: &[4, 2],
            err: &[3],
        },
        status: 208,
        out: "AB",
        err: "sink fault\n",
        kept: true,
    },
];

// Calls 0 and 1 of the library are asked for the files, each byte is a call of the output, and the line is the one call of the error stream.
#[test]
fn each_call_that_fails_is_told(rt: HostRuntime) -> Result<(), Fail> {
    for (k, row) in ROWS.iter().enumerate() {
        let run = ran(
            rt.alloc(),
            "run p.f90 q.c",
            &pair(THREE_CALLS, C),
            row.failing,
        )?;
        let told = format!(in rt.alloc(); "row {k}")?;
        check(
            &rt,
            &run,
            told.as_str(),
            row.status,
            row.out.as_bytes(),
            row.err,
            row.kept,
        );
    }
    Ok(())
}

#[test]
fn a_step_is_too_few(rt: HostRuntime) -> Result<(), Fail> {
    let run = ran(
        rt.alloc(),
        "run p.f90 --steps=1 q.c",
        &pair(FORTRAN, C),
        NOTHING_FAILS,
    )?;
    check(&rt, &run, "one step", 204, b"", "step bound\n", true);
    Ok(())
}
