//! The command `fcc`: compiles Fortran and C files to one program, and runs it on its own machine.
#![tactic(auto)]

use fcc_core::{fcc, say_memory};
use jf_outside::{HostLibrary, HostSink, HostSource};
use std::process::ExitCode;
use std::{env, io};

/// The words after the program's name.
fn words(rt: &HostRuntime) -> io::Result<Vec<String>> {
    Ok(env::args(rt)?.skip(1).collect(rt.alloc())?)
}

fn main(rt: HostRuntime) -> ExitCode {
    let mut err = HostSink::new(rt.stderr());
    let words = match words(&rt) {
        Ok(words) => words,
        Err(error) if error.kind() == io::ErrorKind::OutOfMemory => {
            return ExitCode::from(say_memory(&mut err));
        }
        // A word that isn't UTF-8 makes the words those of no command, as no words are.
        Err(_) => Vec::new(rt.alloc()),
    };
    let mut library = HostLibrary::new(&rt);
    let mut input = HostSource::new(rt.stdin());
    let mut out = HostSink::new(rt.stdout());
    let mut kept = None;
    let status = fcc(
        rt.alloc(),
        &words,
        &mut library,
        &mut input,
        &mut out,
        &mut err,
        &mut kept,
    );
    ExitCode::from(status)
}
