//! Telling why there is no program.
ghost use Rattle.std.specs.Prelude.{◌≡◌, IfOk};
ghost use Rattle.jf_base.specs.Tags.{IsTag};
ghost use Rattle.fcc_core.specs.Answer.{name_at};
ghost use Rattle.fcc_core.specs.Fault.{fault_status, fault_line, IsOfRule, SaidUnlessMemory};
ghost use Rattle.fcc_core.specs.Lines.{no_file_line, refusal_line, memory_line};
ghost use Rattle.fcc_core.specs.Said.{Said};

use crate::front::FrontFault;
use crate::say::say;
use itoa::Buffer;
use jf_base::{Place, Tag, Text, tag_text};
use jf_outside::Sink;
use std::alloc::{AllocError, Global};

/// Says that memory was wanting, and answers 209.
pub fn say_memory<E: Sink>(err: &mut E) -> u8
    ensures { Said 209 memory_line result (E.faults err.old) (E.faults err.new) (E.contents err.old) (E.contents err.new) }
{
    say(err, b"memory\n", 209)
}

fn no_file_line(alloc: Global, name: &str) -> Result<Vec<u8>, AllocError>
    ensures { IfOk result (λ line. line.items ≡ no_file_line name.now) }
{
    let mut line = Vec::new(alloc);
    line.extend_from_slice(b"library ")?;
    line.extend_from_slice(name.as_bytes())?;
    line.extend_from_slice(b"\n")?;
    Ok(line)
}

fn refusal_line(alloc: Global, name: &str, place: Place, tag: Tag) -> Result<Vec<u8>, AllocError>
    requires { IsTag tag.0 }
    ensures { IfOk result (λ line. line.items ≡ refusal_line name.now place.line tag.0) }
{
    let mut digits = Buffer::new();
    let mut line = Vec::new(alloc);
    line.extend_from_slice(name.as_bytes())?;
    line.extend_from_slice(b":")?;
    line.extend_from_slice(digits.format(place.line).as_bytes())?;
    line.extend_from_slice(b": ")?;
    line.extend_from_slice(&tag_text(tag))?;
    line.extend_from_slice(b"\n")?;
    Ok(line)
}

// The name of a file by its number.
fn name_at(names: &[Text], file: u16) -> &str
    ensures { result.now ≡ name_at names.now file }
{
    match names.get(file as usize) {
        Some(name) => name.as_str(),
        None => "",
    }
}

fn fault_line(alloc: Global, names: &[Text], fault: &FrontFault) -> Result<Vec<u8>, AllocError>
    requires { IsOfRule fault.now }
    ensures { IfOk result (λ line. line.items ≡ fault_line names.now fault.now) }
{
    match fault {
        FrontFault::Memory => Vec::from_slice(alloc, b"memory\n"),
        FrontFault::Library(name) => no_file_line(alloc, name.as_str()),
        FrontFault::Source { place, tag } => {
            refusal_line(alloc, name_at(names, place.file), *place, *tag)
        }
    }
}

fn fault_status(fault: &FrontFault) -> u8
    ensures { result ≡ fault_status fault.now }
{
    match fault {
        FrontFault::Memory => 209,
        FrontFault::Library(_) => 201,
        FrontFault::Source { .. } => 202,
    }
}

/// Says why there is no program, and answers the status. Where the line finds no room, want of memory is told instead.
pub fn say_fault<E: Sink>(alloc: Global, err: &mut E, names: &[Text], fault: &FrontFault) -> u8
    requires { IsOfRule fault.now }
    ensures { SaidUnlessMemory (fault_status fault.now) (fault_line names.now fault.now) result
        (record { contents = E.contents err.old; faults = E.faults err.old }) (record { contents = E.contents err.new; faults = E.faults err.new }) }
{
    match fault_line(alloc, names, fault) {
        Ok(line) => say(err, &line, fault_status(fault)),
        Err(_) => say_memory(err),
    }
}
