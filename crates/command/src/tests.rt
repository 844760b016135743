use crate::{Command, read_words};
use std::alloc::AllocError;
use std::test::Fail;

// The steps and the files, with a blank between them, of the command in this line.
fn read(rt: &HostRuntime, line: &str) -> Result<Option<(u64, String)>, Fail> {
    let mut words = Vec::new(rt.alloc());
    for word in line.split_whitespace() {
        words.push(String::from_str(rt.alloc(), word)?)?;
    }
    let Some(Command::Run(run)) = read_words(rt.alloc(), words.as_slice())? else {
        return Ok(None);
    };
    let mut files = String::new(rt.alloc());
    for file in run.files.as_slice() {
        if !files.is_empty() {
            files.push_str(" ")?;
        }
        files.push_str(file.as_str())?;
    }
    Ok(Some((run.limits.steps, files)))
}

fn file_names(rt: &HostRuntime, count: usize) -> Result<String, AllocError> {
    let mut line = String::from_str(rt.alloc(), "run")?;
    for k in 0..count {
        line.push_str(format!(in rt.alloc(); " f{k}.c")?.as_str())?;
    }
    Ok(line)
}

fn long_name(rt: &HostRuntime, stem: usize) -> Result<String, AllocError> {
    let mut line = String::from_str(rt.alloc(), "run ")?;
    for _ in 0..stem {
        line.push_str("a")?;
    }
    line.push_str(".f90")?;
    Ok(line)
}

#[test]
fn reads_the_words_of_run_and_no_others(rt: HostRuntime) -> Result<(), Fail> {
    for (line, steps, files) in [
        ("run p.f90", 1_000_000_000, "p.f90"),
        ("run --steps=1 p.f90 q.c", 1, "p.f90 q.c"),
        (
            "run q.c --steps=1000000000000000 p.f90",
            1_000_000_000_000_000,
            "q.c p.f90",
        ),
        ("run q.c p.f90 --steps=20", 20, "q.c p.f90"),
        (
            "run .c a/b.f90 A.c a.c",
            1_000_000_000,
            ".c a/b.f90 A.c a.c",
        ),
    ] {
        let Some(read) = read(&rt, line)? else {
            assert!(rt; false, "{line}");
            return Ok(());
        };
        assert_eq!(rt; read.0, steps, "{line}");
        assert_eq!(rt; read.1.as_str(), files, "{line}");
    }
    for line in [
        "",
        "p.f90",
        "build p.f90",
        "check p.f90",
        "RUN p.f90",
        "--steps=5 run p.f90",
        "run",
        "run --steps=5",
        "run p.f90 q.c p.f90",
        "run p.f9",
        "run p.f900",
        "run p.F90",
        "run c",
        "run p.f90 q.h",
        "run - p.f90",
        "run -- p.f90",
        "run -p.f90",
        "run --heap=4096 p.f90",
        "run --steps p.f90",
        "run --steps 5 p.f90",
        "run --steps= p.f90",
        "run --steps=0 p.f90",
        "run --steps=01 p.f90",
        "run --steps=+1 p.f90",
        "run --steps=-1 p.f90",
        "run --steps=1a p.f90",
        "run --steps=1000000000000001 p.f90",
        "run --steps=9999999999999999999 p.f90",
        "run --steps=10000000000000000000 p.f90",
        "run --steps=00000000000000000001 p.f90",
        "run --steps=5 --steps=5 p.f90",
        "run --steps=5 p.f90 --steps=x",
    ] {
        assert!(rt; read(&rt, line)?.is_none(), "{line}");
    }

    assert!(rt; read(&rt, file_names(&rt, 64)?.as_str())?.is_some());
    assert!(rt; read(&rt, file_names(&rt, 65)?.as_str())?.is_none());
    assert!(rt; read(&rt, long_name(&rt, 251)?.as_str())?.is_some());
    assert!(rt; read(&rt, long_name(&rt, 252)?.as_str())?.is_none());
    Ok(())
}
