//! Reading the two texts of a program.

ghost use Rattle.std.specs.Prelude.{IfOk};
ghost use Rattle.first_form.specs.Readings.{IsReading};

use crate::c::read_c;
use crate::fortran::{FortranForm, read_fortran};
use crate::program::FirstProgram;
use jf_base::Memory;
use std::alloc::Global;

/// What a Fortran text and a C text are: a program, or which of them is the first that isn't of the form.
#[derive(Drop, Debug)]
pub enum Reading {
    Program(FirstProgram),
    Fortran,
    C,
}

/// Reads the bytes of the Fortran file and of the C file of a program, which is to define the label of the Fortran file. Err comes only where memory is wanting.
pub fn read_pair(alloc: Global, fortran: &[u8], c: &[u8]) -> Result<Reading, Memory>
    ensures { IfOk result (IsReading fortran.now c.now) }
{
    let Some(FortranForm { label, calls }) = read_fortran(alloc, fortran)? else {
        return Ok(Reading::Fortran);
    };
    let Some(puts) = read_c(alloc, c, label.as_str().as_bytes())? else {
        return Ok(Reading::C);
    };
    Ok(Reading::Program(FirstProgram { label, calls, puts }))
}
