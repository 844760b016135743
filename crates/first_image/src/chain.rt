//! The passes one behind the other.
ghost use Rattle.std.specs.Prelude.{IfOk};
ghost use Rattle.first_form.specs.Readings.{IsFirstProgram};
ghost use Rattle.first_image.specs.Compiled.{IsCompiled};

use back_end::image_of_flat;
use emitted_size::code_is_linear;
use first_flat::{lower, structured_code_follows_the_joint_meaning};
use first_form::FirstProgram;
use jf_base::Memory;
use program_image::Image;
use std::alloc::Global;

/// The image of a program: RV64IM code that makes the program's calls and puts its characters. The answer is the image, or that memory was wanting.
pub fn compile(alloc: Global, program: &FirstProgram) -> Result<Image, Memory>
    requires { IsFirstProgram program.now }
    ensures { IfOk result (λ image. IsCompiled program.now image) }
{
    structured_code_follows_the_joint_meaning();
    code_is_linear();
    let code = lower(alloc, program)?;
    image_of_flat(alloc, &code)
}
