//! Prints the tokens of C files behind the preprocessor: each word names a file, and each token is a line of its own, as `q.c:2:5: int`, with the file, the
//! line and the column where it stands. A file that breaks a rule has one line, as `q.c: P06 at 1:1`, and one that asks for a file in vain
//! `q.c: library h.h`. Behind the word `--header` it prints the texts of the built-in headers that the other words name.
//! `scripts/compare-preprocessor.sh` compares what it prints with what another preprocessor gives.
#![tactic(auto)]

use c_form::put_spelling;
use c_headers::{header_named, text_of};
use c_pre::{PreFault, expand};
use c_token::CSpanned;
use jf_outside::{HostLibrary, HostSink, Library, LibraryFault, Put, Sink};
use std::alloc::{AllocError, Global};
use std::env;

/// The most tokens that all files have.
const MOST_TOKENS: u32 = 262_144;

/// A line for each token of a file.
fn lines_of(alloc: Global, name: &str, tokens: &[CSpanned]) -> Result<Vec<u8>, AllocError> {
    let mut out = Vec::new(alloc);
    for spanned in tokens {
        let (line, column) = (spanned.place.line, spanned.place.column);
        let place = format!(in alloc; "{name}:{line}:{column}: ")?;
        out.extend_from_slice(place.as_str().as_bytes())?;
        put_spelling(&mut out, &spanned.token)?;
        out.push(b'\n')?;
    }
    Ok(out)
}

/// A line that says which rule a file breaks and where, or which file can't be read.
fn fault_line(alloc: Global, name: &str, fault: PreFault) -> anyhow::Result<String> {
    match fault {
        PreFault::Memory => anyhow::bail!("there isn't the memory"),
        PreFault::Library { name: asked } => {
            let asked = asked.as_str();
            Ok(format!(in alloc; "{name}: library {asked}\n")?)
        }
        PreFault::At { place, tag } => {
            let (line, column, number) = (place.line, place.column, tag.0 % 100);
            Ok(format!(in alloc; "{name}: P{number:02} at {line}:{column}\n")?)
        }
    }
}

/// The bytes of a file of the words.
fn bytes_of<L: Library>(alloc: Global, library: &mut L, name: &str) -> anyhow::Result<Vec<u8>> {
    match library.read(alloc, name) {
        Ok(bytes) => Ok(bytes),
        Err(LibraryFault::Memory) => anyhow::bail!("there isn't the memory"),
        Err(LibraryFault::Failed) => anyhow::bail!("{name} can't be read"),
    }
}

fn put<S: Sink>(sink: &mut S, bytes: &[u8]) -> anyhow::Result<()> {
    match sink.put(bytes) {
        Put::Done => Ok(()),
        Put::Failed => anyhow::bail!("what is printed can't be put"),
    }
}

/// Puts the lines of a file, and tells how many tokens it has.
fn put_file<L: Library, S: Sink>(
    alloc: Global,
    library: &mut L,
    sink: &mut S,
    name: &str,
    before: u32,
) -> anyhow::Result<usize> {
    let bytes = bytes_of(alloc, library, name)?;
    match expand(alloc, 0, before.min(MOST_TOKENS), name, &bytes, library) {
        Ok(tokens) => {
            put(sink, &lines_of(alloc, name, &tokens)?)?;
            Ok(tokens.len())
        }
        Err(fault) => {
            put(sink, fault_line(alloc, name, fault)?.as_bytes())?;
            Ok(0)
        }
    }
}

fn put_files<L: Library, S: Sink>(
    alloc: Global,
    library: &mut L,
    sink: &mut S,
    names: &[String],
) -> anyhow::Result<()> {
    let mut before = 0u32;
    for name in names {
        let count = put_file(alloc, library, sink, name, before)?;
        before = before.saturating_add(u32::try_from(count)?);
    }
    Ok(())
}

fn put_headers<S: Sink>(sink: &mut S, names: &[String]) -> anyhow::Result<()> {
    for name in names {
        match header_named(name.as_bytes()) {
            None => anyhow::bail!("no header {name} is built in"),
            Some(header) => put(sink, text_of(header))?,
        }
    }
    Ok(())
}

fn main(rt: HostRuntime) -> anyhow::Result<()> {
    let alloc = rt.alloc();
    let words: Vec<String> = env::args(&rt)?.skip(1).collect(alloc)?;
    let mut library = HostLibrary::new(&rt);
    let mut out = HostSink::new(rt.stdout());
    match words.split_first() {
        Some((first, names)) if first.as_str() == "--header" => put_headers(&mut out, names),
        _ => put_files(alloc, &mut library, &mut out, &words),
    }
}
