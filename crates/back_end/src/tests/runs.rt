//! Programs made to images, and images run.

ghost use Rattle.std.specs.Prelude.{◌≤◌};
ghost use Rattle.jf_base.specs.Limits.{AreLimits};

use super::room::has_room;
use crate::image_of_flat;
use flat_ir::{FlatProgram, flat_ok};
use flatten::flatten;
use image_run::{Ended, run_image};
use jf_base::{Limits, List, Memory};
use jf_outside::{MemorySink, MemorySource};
use program_image::Image;
use rv_machine::{Event, Machine};
use std::alloc::{AllocError, Global};
use std::test::Fail;

/// How a run ended, and the bytes that it gave.
#[derive(PartialEq, Debug, Drop)]
pub struct Outcome {
    pub ended: Ended,
    pub bytes: Vec<u8>,
}

/// The image of a program, or None where it doesn't hold together or a frame may have no room.
pub fn image_of(alloc: Global, p: &FlatProgram) -> Result<Option<Image>, Memory> {
    if !flat_ok(p) {
        return Ok(None);
    }
    let q = flatten(alloc, p)?;
    if !has_room(&q) {
        return Ok(None);
    }
    let image = image_of_flat(alloc, p)?;
    Ok(Some(image))
}

/// The instructions that a run takes at most here.
const STEPS: u64 = 10_000_000;

/// Small limits, with so many bytes for frames beyond the least: 16 times the number.
pub fn limits(blocks: u32) -> Limits
    requires { blocks ≤ 100000 }
    ensures { AreLimits result }
{
    Limits {
        steps: STEPS,
        heap: 4096,
        objects: 4096,
        frames: 4096 + 16 * blocks as u64,
    }
}

/// Runs an image.
pub fn run(alloc: Global, image: &Image, limits: Limits, input: &[u8]) -> Result<Outcome, Memory>
    requires { AreLimits limits }
{
    let mut machine = Machine::load(alloc, image, limits)?;
    let mut source = MemorySource::new(Vec::from_slice(alloc, input)?, Vec::new(alloc));
    let mut sink = MemorySink::new(alloc, 4096, Vec::new(alloc))?;
    let ended = run_image(&mut machine, limits.steps, &mut source, &mut sink);
    let bytes = Vec::from_slice(alloc, sink.held())?;
    Ok(Outcome { ended, bytes })
}

/// What a program does with an input.
pub fn result_of(alloc: Global, p: &FlatProgram, input: &[u8]) -> Result<Outcome, Fail> {
    let image = image_of(alloc, p)?.ok_or("the program doesn't hold together")?;
    Ok(run(alloc, &image, limits(1000), input)?)
}

/// How a program ends that takes no input and gives no output.
pub fn end(alloc: Global, p: &FlatProgram) -> Result<Ended, Fail> {
    let result = result_of(alloc, p, &[])?;
    if result.bytes.len() != 0 {
        return Err("there is output".into());
    }
    Ok(result.ended)
}

/// The image with these words of machine code in place of the code of its first procedure.
pub fn with_words(alloc: Global, image: Image, words: &[u32]) -> Result<Image, AllocError> {
    let old = image.bytes.into_vec();
    let mut bytes = Vec::with_capacity(alloc, old.len())?;
    for word in words {
        bytes.extend_from_slice(&word.to_le_bytes())?;
    }
    for byte in old.iter().skip(4 * words.len()) {
        bytes.push(*byte)?;
    }
    Ok(Image {
        bytes: List::from_vec(bytes),
        code_len: image.code_len,
        entry: image.entry,
    })
}

/// How a program ends whose first procedure has these words of machine code.
pub fn end_with_words(alloc: Global, p: &FlatProgram, words: &[u32]) -> Result<Ended, Fail> {
    let image = image_of(alloc, p)?.ok_or("the program doesn't hold together")?;
    let image = with_words(alloc, image, words)?;
    Ok(run(alloc, &image, limits(1000), &[])?.ended)
}

/// How many instructions an image does that takes no input, to its end and with it.
pub fn instructions(alloc: Global, image: &Image) -> Result<u64, Memory> {
    let mut machine = Machine::load(alloc, image, limits(0))?;
    for done in 0..STEPS {
        match machine.step(None) {
            Event::Ran | Event::WantByte | Event::GiveByte(_) => {}
            _ => return Ok(done + 1),
        }
    }
    Ok(STEPS)
}
