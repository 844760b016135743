//! Reads Fortran files up to their statements: each word names a file, which has one line, as `p.f90: 31 tokens, 9 statements`, or, where it breaks a rule
//! of source form or of statements, `p.f90: S02 at 1:1`. `scripts/time-fortran.sh` times it on long texts.
#![tactic(auto)]

use f_file_read::read_statements;
use f_lex::lex;
use jf_base::Refusal;
use jf_outside::{HostLibrary, HostSink, Library, LibraryFault, Put, Sink};
use std::alloc::Global;
use std::env;

/// The bytes of a file of the words.
fn bytes_of<L: Library>(alloc: Global, library: &mut L, name: &str) -> anyhow::Result<Vec<u8>> {
    match library.read(alloc, name) {
        Ok(bytes) => Ok(bytes),
        Err(LibraryFault::Memory) => anyhow::bail!("there isn't the memory"),
        Err(LibraryFault::Failed) => anyhow::bail!("{name} can't be read"),
    }
}

/// How many tokens and statements a file has.
fn counted(alloc: Global, bytes: &[u8]) -> Result<(usize, usize), Refusal> {
    let tokens = lex(alloc, 0, 0, bytes)?;
    let statements = read_statements(alloc, &tokens)?;
    Ok((tokens.len(), statements.len()))
}

/// The line that tells of a file.
fn line_of(alloc: Global, name: &str, bytes: &[u8]) -> anyhow::Result<String> {
    match counted(alloc, bytes) {
        Ok((tokens, statements)) => {
            Ok(format!(in alloc; "{name}: {tokens} tokens, {statements} statements\n")?)
        }
        Err(Refusal::Memory) => anyhow::bail!("there isn't the memory"),
        Err(Refusal::At { place, tag }) => {
            let (line, column, number) = (place.line, place.column, tag.0 % 100);
            let letter = if tag.0 < 200 { "L" } else { "S" };
            Ok(format!(in alloc; "{name}: {letter}{number:02} at {line}:{column}\n")?)
        }
    }
}

fn put<S: Sink>(sink: &mut S, bytes: &[u8]) -> anyhow::Result<()> {
    match sink.put(bytes) {
        Put::Done => Ok(()),
        Put::Failed => anyhow::bail!("what is printed can't be put"),
    }
}

fn put_files<L: Library, S: Sink>(
    alloc: Global,
    library: &mut L,
    sink: &mut S,
    names: &[String],
) -> anyhow::Result<()> {
    for name in names {
        let bytes = bytes_of(alloc, library, name)?;
        put(sink, line_of(alloc, name, &bytes)?.as_bytes())?;
    }
    Ok(())
}

fn main(rt: HostRuntime) -> anyhow::Result<()> {
    let alloc = rt.alloc();
    let words: Vec<String> = env::args(&rt)?.skip(1).collect(alloc)?;
    let mut library = HostLibrary::new(&rt);
    let mut out = HostSink::new(rt.stdout());
    put_files(alloc, &mut library, &mut out, &words)
}
