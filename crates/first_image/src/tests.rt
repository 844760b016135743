ghost use Rattle.jf_base.specs.Limits.{AreLimits, IsRegionSize};

use crate::compile;
use first_form::{Reading, read_pair};
use image_run::{Ended, run_image};
use jf_base::Limits;
use jf_outside::{MemorySink, MemorySource};
use program_image::Image;
use rv_machine::Machine;
use std::alloc::{AllocError, Global};
use std::test::Fail;

const HEAD: &str =
    "program one\nuse iso_c_binding\nimplicit none\ninterface\nsubroutine put(c) bind(c)\nimport\ninteger(c_int), value :: c\nend subroutine\nend interface\n";

const END: &str = "end program\n";

// The image of the program with these calls and this function.
fn image_of(alloc: Global, calls: &str, function: &str) -> Result<Image, AllocError> {
    let fortran = format!(in alloc; "{HEAD}{calls}{END}")?;
    let c = format!(in alloc; "#include <stdio.h>\n{function}\n")?;
    match read_pair(alloc, fortran.as_bytes(), c.as_bytes()) {
        Ok(Reading::Program(program)) => match compile(alloc, &program) {
            Ok(image) => Ok(image),
            Err(_) => Err(AllocError),
        },
        _ => Err(AllocError),
    }
}

// Small limits, and so many bytes of frames.
fn limits(frames: u64) -> Limits
    requires { IsRegionSize frames }
    ensures { AreLimits result }
{
    Limits {
        steps: 10_000,
        heap: 4096,
        objects: 4096,
        frames,
    }
}

// How a run of the image ends, and what it gives, over an input that has bytes.
fn run_of(alloc: Global, image: &Image, limits: Limits) -> Result<(Ended, Vec<u8>), AllocError>
    requires { AreLimits limits }
{
    let mut machine = Machine::load(alloc, image, limits).map_err(|_| AllocError)?;
    let bytes = vec![in alloc; 1, 2, 3]?;
    let mut input = MemorySource::new(bytes, Vec::new(alloc));
    let mut out = MemorySink::new(alloc, 100, Vec::new(alloc)).map_err(|_| AllocError)?;
    let ended = run_image(&mut machine, limits.steps, &mut input, &mut out);
    Ok((ended, Vec::from_slice(alloc, out.held())?))
}

#[test]
fn calls_and_numbers_come_out(rt: HostRuntime) -> Result<(), Fail> {
    let alloc = rt.alloc();
    let image = image_of(
        alloc,
        "call put(65_c_int)\ncall put(2147483647_c_int)\n",
        "void put(int c){putchar(c);putchar(66);}",
    )?;
    let (ended, bytes) = run_of(alloc, &image, limits(8192))?;
    assert_eq!(rt; ended, Ended::Stop(0));
    assert_eq!(rt; bytes.as_slice(), b"AB\xffB".as_slice());
    Ok(())
}

// The main program has 36 tokens and charges 3,328 bytes, and the function has 13 and charges 1,856.
#[test]
fn a_frame_too_many_is_the_limit(rt: HostRuntime) -> Result<(), Fail> {
    let alloc = rt.alloc();
    let image = image_of(
        alloc,
        "call put(65_c_int)\n",
        "void put(int c){putchar(c);}",
    )?;
    let (ended, bytes) = run_of(alloc, &image, limits(5184))?;
    assert_eq!(rt; ended, Ended::Stop(0));
    assert_eq!(rt; bytes.as_slice(), b"A".as_slice());
    let (ended, bytes) = run_of(alloc, &image, limits(5168))?;
    assert_eq!(rt; ended, Ended::Limited(0));
    assert_eq!(rt; bytes.as_slice(), b"".as_slice());
    Ok(())
}
