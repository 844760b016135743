//! The outside in memory, which fails at the calls that it is told.
ghost use Rattle.std.specs.Prelude.{◌≡◌, [], ◌+◌, ◌++◌, ◌<◌, ◌↔◌, ◌⊎◌, Some, IfOk, IsSome, IsTrue, IsNone, Contains, length, option_copied};
ghost use Rattle.jf_outside.specs.Answers.{TakenCounts, EndsAt, taken_bytes, faults_after_next, PutCounts, PutLeaves, faults_after_put, held_after_put};
ghost use Rattle.jf_outside.specs.Count.{Rose, counted};
ghost use Rattle.jf_outside.specs.Listing.{listed, ReadCounts, ReadGives, faults_after_read, strays_after_read};
ghost use Rattle.jf_outside.specs.Files.{file_list};

use crate::{Library, LibraryFault, Put, Sink, Source, Taken};
use jf_base::Memory;
use std::alloc::Global;
use std::marker::Model;

// How often an object was called, which of its calls fail, and how often it has failed.
#[derive(Drop)]
struct Calls {
    made: u64,
    failing: Vec<u64>,
    faults: u64,
}

impl Calls {
    fn new(failing: Vec<u64>) -> Calls
        ensures { result ≡ record { made = 0; failing = failing; faults = 0 } }
    {
        Calls {
            made: 0,
            failing,
            faults: 0,
        }
    }

    // Counts a call, and says whether it is one of those that fail.
    fn is_next_listed(&mut self) -> bool
        ensures listed { IsTrue result ↔ Contains self.old.failing.items self.old.made }
        ensures counted { self.new ≡ record self.old { made = counted self.old.made } }
    {
        let call = self.made;
        self.made = call.saturating_add(1);
        self.failing.contains(&call)
    }

    // Counts a fault.
    fn fail(&mut self)
        ensures faults { self.new ≡ record self.old { faults = counted self.old.faults } }
        ensures rose { Rose self.old.faults self.new.faults }
    {
        self.faults = self.faults.saturating_add(1);
    }
}

/// A source over bytes in memory.
#[derive(Drop)]
pub struct MemorySource {
    bytes: Vec<u8>,
    at: usize,
    calls: Calls,
}

impl Model for MemorySource {
    ghost use Rattle.std.specs.Prelude.{drop};
    ghost use Rattle.jf_outside.specs.InMemory.{SourceState};

    ghost Value = { SourceState };

    ghost view = { λ s. record { left = drop s.at s.bytes.items; calls = s.calls.made; failing = s.calls.failing.items; faults = s.calls.faults } };
}

impl MemorySource {
    /// Gives these bytes, but fails at the listed calls, counted from 0.
    pub fn new(bytes: Vec<u8>, failing: Vec<u64>) -> MemorySource
        ensures { result ≡ record { left = bytes.items; calls = 0; failing = failing.items; faults = 0 } }
    {
        MemorySource {
            bytes,
            at: 0,
            calls: Calls::new(failing),
        }
    }
}

impl Source for MemorySource {
    ghost left = { λ s. Some s.left };

    ghost faults = { λ s. s.faults };

    fn next(&mut self) -> Taken
        ensures cause { TakenCounts result self.old.faults self.new.faults }
        ensures bytes { self.old.left ≡ taken_bytes result ++ self.new.left }
        ensures end { EndsAt result (Some self.new.left) }

        // It fails exactly at the calls that are listed.
        ensures failed { (result ≡ Taken.Failed) ↔ Contains self.old.failing self.old.calls }
        ensures calls { self.new.calls ≡ counted self.old.calls }
        ensures failing { self.new.failing ≡ self.old.failing }
        ensures faults { self.new.faults ≡ faults_after_next result self.old.faults }
    {
        if self.calls.is_next_listed() {
            self.calls.fail();
            return Taken::Failed;
        }
        if self.at < self.bytes.len() {
            let byte = self.bytes[self.at];
            self.at += 1;
            Taken::Byte(byte)
        } else {
            Taken::End
        }
    }
}

/// A sink in memory, with the room that it has taken.
#[derive(Drop)]
pub struct MemorySink {
    held: Vec<u8>,
    room: usize,
    calls: Calls,
}

impl Model for MemorySink {
    ghost use Rattle.std.specs.Prelude.{◌≤◌};
    ghost use Rattle.std.specs.Vec.{vec_len, vec_capacity};
    ghost use Rattle.jf_outside.specs.InMemory.{SinkState};

    ghost Value = { SinkState };

    ghost view = { λ s. record { contents = s.held.items; room = s.room; calls = s.calls.made; failing = s.calls.failing.items; faults = s.calls.faults } };

    ghost invariant = { λ s. (vec_len s.held ≤ s.room) × (s.room ≤ vec_capacity s.held) };
}

impl MemorySink {
    /// Takes room for this many bytes, and fails at the listed calls, counted from 0.
    pub fn new(alloc: Global, room: usize, failing: Vec<u64>) -> Result<MemorySink, Memory>
        ensures { IfOk result (λ sink. sink ≡ record { contents = []; room = room; calls = 0; failing = failing.items; faults = 0 }) }
    {
        Ok(MemorySink {
            held: Vec::with_capacity(alloc, room)?,
            room,
            calls: Calls::new(failing),
        })
    }

    /// The bytes held so far.
    pub fn held(&self) -> &[u8]
        ensures { result.now ≡ self.now.contents }
    {
        &self.held
    }
}

impl Sink for MemorySink {
    ghost contents = { λ s. Some s.contents };

    ghost faults = { λ s. s.faults };

    fn put(&mut self, piece: &[u8]) -> Put
        ensures cause { PutCounts result self.old.faults self.new.faults }
        ensures bytes { PutLeaves result (Some self.old.contents) (Some self.new.contents) piece.now }

        // It fails exactly at the calls that are listed and where the room is short, and then appends nothing.
        ensures failed { (result ≡ Put.Failed) ↔ (Contains self.old.failing self.old.calls ⊎ (self.old.room < length self.old.contents + length piece.now)) }
        ensures held { self.new.contents ≡ held_after_put result self.old.contents piece.now }
        ensures room { self.new.room ≡ self.old.room }
        ensures calls { self.new.calls ≡ counted self.old.calls }
        ensures failing { self.new.failing ≡ self.old.failing }
        ensures faults { self.new.faults ≡ faults_after_put result self.old.faults }
    {
        if self.calls.is_next_listed() || self.room - self.held.len() < piece.len() {
            self.calls.fail();
            return Put::Failed;
        }
        match self.held.extend_from_slice(piece) {
            Ok(()) => Put::Done,
            Err(_) => {
                self.calls.fail();
                Put::Failed
            }
        }
    }
}

/// Files in memory.
#[derive(Drop)]
pub struct MemoryLibrary {
    files: Vec<(String, Vec<u8>)>,
    calls: Calls,
    strays: u64,
}

impl Model for MemoryLibrary {
    ghost use Rattle.jf_outside.specs.Files.{file_list};
    ghost use Rattle.jf_outside.specs.InMemory.{LibraryState};

    ghost Value = { LibraryState };

    ghost view = { λ l. record { files = file_list l.files.items; calls = l.calls.made; failing = l.calls.failing.items; faults = l.calls.faults; strays = l.strays } };
}

impl MemoryLibrary {
    /// Lists these files, and fails at the listed calls, counted from 0. Of entries with one name the first alone is listed.
    pub fn new(files: Vec<(String, Vec<u8>)>, failing: Vec<u64>) -> MemoryLibrary
        ensures { result ≡ record { files = file_list files.items; calls = 0; failing = failing.items; faults = 0; strays = 0 } }
    {
        MemoryLibrary {
            files,
            calls: Calls::new(failing),
            strays: 0,
        }
    }
}

// The first file of this name.
fn find<'a>(files: &'a [(String, Vec<u8>)], name: &str) -> Option<&'a [u8]>
    ensures { option_copied result ≡ listed (file_list files.now) name.now }
{
    for file in files {
        if file.0.as_str() == name {
            return Some(&file.1);
        }
    }
    None
}

impl Library for MemoryLibrary {
    ghost files = { λ l. Some l.files };

    ghost strays = { λ l. l.strays };

    ghost faults = { λ l. l.faults };

    fn read(&mut self, alloc: Global, name: &str) -> Result<Vec<u8>, LibraryFault>
        ensures files { self.new.files ≡ self.old.files }
        ensures cause { ReadCounts result self.old.faults self.new.faults }
        ensures bytes { ReadGives (listed self.old.files name.now) result self.old.strays self.new.strays }

        // It fails for each name that isn't listed, and for the others exactly at the calls that are listed.
        ensures absent { IsNone (listed self.old.files name.now) → result ≡ Err LibraryFault.Failed }
        ensures failed { IsSome (listed self.old.files name.now) → ((result ≡ Err LibraryFault.Failed) ↔ Contains self.old.failing self.old.calls) }
        ensures calls { self.new.calls ≡ counted self.old.calls }
        ensures failing { self.new.failing ≡ self.old.failing }
        ensures faults { self.new.faults ≡ faults_after_read result self.old.faults }
        ensures strays { self.new.strays ≡ strays_after_read (listed self.old.files name.now) self.old.strays }
    {
        let is_listed = self.calls.is_next_listed();
        match find(&self.files, name) {
            Some(bytes) => {
                if is_listed {
                    self.calls.fail();
                    return Err(LibraryFault::Failed);
                }
                match bytes.to_vec(alloc) {
                    Ok(copy) => Ok(copy),
                    Err(_) => Err(LibraryFault::Memory),
                }
            }
            None => {
                self.strays = self.strays.saturating_add(1);
                self.calls.fail();
                Err(LibraryFault::Failed)
            }
        }
    }
}

#[cfg(test)]
mod tests {
    use super::*;
    use std::test::Fail;

    #[test]
    fn fails_at_the_listed_calls(rt: HostRuntime) -> Result<(), Fail> {
        let bytes = b"ab".to_vec(rt.alloc())?;
        let mut source = MemorySource::new(bytes, [1, 3].to_vec(rt.alloc())?);
        for (call, want) in [
            Taken::Byte(b'a'),
            Taken::Failed,
            Taken::Byte(b'b'),
            Taken::Failed,
            Taken::End,
            Taken::End,
        ]
        .iter()
        .enumerate()
        {
            assert_eq!(rt; source.next(), *want, "at call {call}");
        }

        let mut sink = MemorySink::new(rt.alloc(), 4, [1].to_vec(rt.alloc())?)?;
        assert_eq!(rt; sink.put(b"abc"), Put::Done);
        assert_eq!(rt; sink.put(b"d"), Put::Failed);
        assert_eq!(rt; sink.put(b"de"), Put::Failed);
        assert_eq!(rt; sink.held(), b"abc".as_slice());
        assert_eq!(rt; sink.put(b"e"), Put::Done);
        assert_eq!(rt; sink.put(b""), Put::Done);
        assert_eq!(rt; sink.held(), b"abce".as_slice());

        let mut files = Vec::new(rt.alloc());
        for (name, bytes) in [("a.c", b"1".as_slice()), ("b.c", b""), ("a.c", b"2")] {
            files.push((
                String::from_str(rt.alloc(), name)?,
                bytes.to_vec(rt.alloc())?,
            ))?;
        }
        let mut library = MemoryLibrary::new(files, [2].to_vec(rt.alloc())?);
        for (call, (name, want)) in [
            ("a.c", Ok(b"1".as_slice())),
            ("c.c", Err(LibraryFault::Failed)),
            ("a.c", Err(LibraryFault::Failed)),
            ("a.c", Ok(b"1")),
            ("b.c", Ok(b"")),
        ]
        .iter()
        .enumerate()
        {
            let read = library.read(rt.alloc(), name);
            assert_eq!(rt;
                read.as_deref(),
                want.as_ref().map(|bytes| *bytes),
                "at call {call}"
            );
        }
        Ok(())
    }
}
