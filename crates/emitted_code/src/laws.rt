//! That images follow blocks, and flat programs.
ghost use Rattle.emitted_code.specs.Chain.{FlatProgramsCanBeEmitted, ImagesFollowFlatPrograms};
ghost use Rattle.emitted_code.specs.Placed.{ImagesFollowBlocks};

/// The image of a program's units, assembled and linked, follows the program's blocks within a number of instructions for each step that is linear in the parameters of a procedure.
/// The homes of the program are valid, its frames have room, and what its instructions name is in range.
pub fn images_follow_blocks()
    ensures { ImagesFollowBlocks }
{}

/// The blocks of a flat program that holds together can be emitted, where their homes were validated, frames have room, and numbers have 64 bits.
pub fn flat_programs_can_be_emitted()
    ensures { FlatProgramsCanBeEmitted }
{}

/// The image of such a program follows it, within so many instructions for each unit as the program and its procedures are long.
pub fn images_follow_flat_programs()
    ensures { ImagesFollowFlatPrograms }
{}
