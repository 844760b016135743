//! Tells of C files whether they are in the grammar. Each word names a file, and has a line: `q.c: 3 external declarations`, or the first broken rule and
//! where, as `q.c: G01 at 2:5`, or the file that it asks for in vain, as `q.c: library h.h`. `scripts/compare-c-syntax.sh` compares what it prints with what
//! another compiler says.
#![tactic(auto)]

use c_pre::{PreFault, expand};
use c_read::read_c;
use c_token::CSpanned;
use jf_base::{Place, Refusal, Tag};
use jf_outside::{HostLibrary, HostSink, Library, LibraryFault, Put, Sink};
use std::alloc::Global;
use std::env;

/// The line of a file that breaks a rule of a group.
fn refusal_line(
    alloc: Global,
    name: &str,
    group: &str,
    place: Place,
    tag: Tag,
) -> anyhow::Result<String> {
    let (line, column, number) = (place.line, place.column, tag.0 % 100);
    Ok(format!(in alloc; "{name}: {group}{number:02} at {line}:{column}\n")?)
}

/// The line of a file that the preprocessor refuses.
fn fault_line(alloc: Global, name: &str, fault: PreFault) -> anyhow::Result<String> {
    match fault {
        PreFault::Memory => anyhow::bail!("there isn't the memory"),
        PreFault::Library { name: asked } => {
            let asked = asked.as_str();
            Ok(format!(in alloc; "{name}: library {asked}\n")?)
        }
        PreFault::At { place, tag } => refusal_line(alloc, name, "P", place, tag),
    }
}

/// The line of a file with these tokens.
fn unit_line(alloc: Global, name: &str, tokens: &[CSpanned]) -> anyhow::Result<String> {
    if tokens.len() > 262_144 {
        anyhow::bail!("{name} has too many tokens");
    }
    match read_c(alloc, tokens) {
        Ok(unit) => {
            let count = unit.externals.len();
            Ok(format!(in alloc; "{name}: {count} external declarations\n")?)
        }
        Err(Refusal::Memory) => anyhow::bail!("there isn't the memory"),
        Err(Refusal::At { place, tag }) => refusal_line(alloc, name, "G", place, tag),
    }
}

/// The bytes of a file of the words.
fn bytes_of<L: Library>(alloc: Global, library: &mut L, name: &str) -> anyhow::Result<Vec<u8>> {
    match library.read(alloc, name) {
        Ok(bytes) => Ok(bytes),
        Err(LibraryFault::Memory) => anyhow::bail!("there isn't the memory"),
        Err(LibraryFault::Failed) => anyhow::bail!("{name} can't be read"),
    }
}

/// The line of a file.
fn file_line<L: Library>(alloc: Global, library: &mut L, name: &str) -> anyhow::Result<String> {
    let bytes = bytes_of(alloc, library, name)?;
    match expand(alloc, 0, 0, name, &bytes, library) {
        Ok(tokens) => unit_line(alloc, name, &tokens),
        Err(fault) => fault_line(alloc, name, fault),
    }
}

fn put<S: Sink>(sink: &mut S, text: &str) -> anyhow::Result<()> {
    match sink.put(text.as_bytes()) {
        Put::Done => Ok(()),
        Put::Failed => anyhow::bail!("what is printed can't be put"),
    }
}

fn put_files<L: Library, S: Sink>(
    alloc: Global,
    library: &mut L,
    sink: &mut S,
    names: &[String],
) -> anyhow::Result<()> {
    for name in names {
        let line = file_line(alloc, library, name)?;
        put(sink, line.as_str())?;
    }
    Ok(())
}

fn main(rt: HostRuntime) -> anyhow::Result<()> {
    let alloc = rt.alloc();
    let words: Vec<String> = env::args(&rt)?.skip(1).collect(alloc)?;
    let mut library = HostLibrary::new(&rt);
    let mut out = HostSink::new(rt.stdout());
    put_files(alloc, &mut library, &mut out, &words)
}
