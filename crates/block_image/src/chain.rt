//! Units that are emitted, assembled and linked.

ghost use Rattle.std.specs.Prelude.{IfOk, OnOk};
ghost use Rattle.assembled_run.specs.Program.{IsImageOf};
ghost use Rattle.emitted_code.specs.Units.{program_units};
ghost use Rattle.emitted_units.specs.Sizes.{ProcsHeld};
ghost use Rattle.emitted_units.specs.Units.{CanAssemble};
ghost use Rattle.block_image.specs.Images.{AreAssigned, HoldTogether};

use crate::sizes::check_procs;
use assembled_run::image_of;
use block_homes::Assignment;
use flatten::BlockProgram;
use jf_base::Memory;
use program_image::Image;
use rv_emit::emit;
use std::alloc::{AllocError, Global};

// Tells want of memory where lines of assembly can't hold what a program has.
fn check(q: &BlockProgram, _assignments: &[Assignment]) -> Result<(), AllocError>
    requires holds { HoldTogether q.now }
    requires assigned { AreAssigned q.now.procs _assignments.now }
    ensures { OnOk result (CanAssemble q.now _assignments.now) }
{
    if q.procs.len() > 1 << 32 {
        return Err(AllocError);
    }
    check_procs(q.procs.as_slice())?;
    Ok(())
}

// The image of a program with homes for its values.
fn link_with(alloc: Global, q: &BlockProgram, assignments: &[Assignment]) -> Result<Image, Memory>
    requires { CanAssemble q.now assignments.now }
    ensures { IfOk result (λ image. IsImageOf (program_units q.now assignments.now) image) }
{
    let units = emit(alloc, q, assignments)?;
    image_of(alloc, units.as_slice())
}

/// The image of a program of blocks that holds together, and of a home for each value, which keeps it until its last use: that of its units.
/// A program that lines of assembly can't hold is want of memory: one with more than 2^32 procedures, with a call of 2^32 arguments or 23 results,
/// with a frame that ends beyond 64 bits, or with 2 gigabytes of code and image.
pub fn image_of_blocks(
    alloc: Global,
    q: &BlockProgram,
    assignments: &[Assignment],
) -> Result<Image, Memory>
    requires holds { HoldTogether q.now }
    requires assigned { AreAssigned q.now.procs assignments.now }
    ensures units { IfOk result (λ image. IsImageOf (program_units q.now assignments.now) image) }
    ensures held { OnOk result (ProcsHeld q.now.procs) }
{
    check(q, assignments)?;
    link_with(alloc, q, assignments)
}
