//! Where the places of units lie in an image.
ghost use Rattle.std.specs.Prelude.{◌≡◌, ◌<◌, ◌+◌, ◌^◌, length, IfOk};
ghost use Rattle.linker.specs.Layout.{code_size, laid};
ghost use Rattle.linker.specs.Starts.{AreStarts, place_in};

use rv_assemble::ObjUnit;
use std::alloc::{AllocError, Global};

/// The offsets of a unit's first byte of code and of its first image byte.
#[derive(Clone, Copy, Debug)]
pub(crate) struct Start {
    pub(crate) code: u64,
    pub(crate) image: u64,
}

pub(crate) fn starts_of(
    alloc: Global,
    units: &[ObjUnit],
    code_len: u64,
) -> Result<Vec<Start>, AllocError>
    requires code { code_len ≡ code_size units.now }
    requires small { length (laid units.now) < 2000000000 }
    ensures { IfOk result (λ starts. AreStarts units.now starts.items) }
{
    let mut starts = Vec::new(alloc);
    let mut code = 0;
    let mut image = code_len;
    for u in units {
        starts.push(Start { code, image })?;
        code += u.code.len() as u64;
        image += u.image.len() as u64;
    }
    Ok(starts)
}

/// The offset of a place of a unit.
pub(crate) fn offset_in(u: &ObjUnit, start: &Start, place: u64) -> u64
    requires { start.now.code + start.now.image + place < 2 ^ 63 }
    ensures { result ≡ place_in u.now start.now place }
{
    let code_len = u.code.len() as u64;
    if place < code_len {
        start.code + place
    } else {
        start.image + (place - code_len)
    }
}
