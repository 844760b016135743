//! The passes one behind the other.

ghost use Rattle.std.specs.Prelude.{◌≡◌, true, IfOk, OnOk};
ghost use Rattle.flat_ir.specs.Checked.{is_ok};
ghost use Rattle.flatten.specs.Code.{program_code};
ghost use Rattle.assembled_run.specs.Program.{IsImageOf};
ghost use Rattle.emitted_code.specs.Placed.{AllBytes};
ghost use Rattle.emitted_code.specs.Room.{HasRoom};
ghost use Rattle.emitted_code.specs.Units.{program_units};
ghost use Rattle.emitted_units.specs.Sizes.{ProcsHeld};
ghost use Rattle.block_image.specs.Images.{AreAssigned, HoldTogether};
ghost use Rattle.back_end.specs.Followed.{IsFollowed};

use block_homes::Assignment;
use block_image::image_of_blocks;
use emitted_code::images_follow_flat_programs;
use flat_ir::FlatProgram;
use flatten::{BlockProgram, flatten};
use jf_base::Memory;
use program_image::Image;
use reg_alloc::assign_all;
use std::alloc::Global;

// Reads bytes, so that it is known that each is below 256.
fn read_bytes(bytes: &[u8])
    ensures { AllBytes bytes.now }
{
    for i in (0..bytes.len()).rev() {
        let _byte = bytes[i];
    }
}

// The image of blocks with homes, whose bytes were read.
fn read_image(alloc: Global, q: &BlockProgram, assignments: &[Assignment]) -> Result<Image, Memory>
    requires holds { HoldTogether q.now }
    requires assigned { AreAssigned q.now.procs assignments.now }
    ensures units { IfOk result (λ image. IsImageOf (program_units q.now assignments.now) image) }
    ensures held { OnOk result (ProcsHeld q.now.procs) }
    ensures bytes { IfOk result (λ image. AllBytes image.bytes) }
{
    let image = image_of_blocks(alloc, q, assignments)?;
    read_bytes(image.bytes.as_slice());
    Ok(image)
}

/// The image of a program that holds together and whose procedures' frames have room. It follows the program, whatever the limits and the input.
/// A program that lines of assembly can't hold is want of memory: one with more than 2^32 procedures, with a call of 2^32 arguments or 23 results,
/// with a frame that ends beyond 64 bits, or with 2 gigabytes of code and image.
pub fn image_of_flat(alloc: Global, p: &FlatProgram) -> Result<Image, Memory>
    requires ok { is_ok p.now ≡ true }
    requires room { HasRoom (program_code p.now) }
    ensures { IfOk result (λ image. IsFollowed p.now image) }
{
    images_follow_flat_programs();
    let q = flatten(alloc, p)?;
    let assignments = assign_all(alloc, q.procs.as_slice())?;
    read_image(alloc, &q, assignments.as_slice())
}
