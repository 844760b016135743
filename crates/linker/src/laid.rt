//! The bytes of all units, one behind the other.
ghost use Rattle.std.specs.Prelude.{◌≡◌, ◌<◌, ◌+◌, ◌++◌, IfOk, OnOk, length};
ghost use Rattle.linker.specs.Layout.{codes, images, zeros, code_size, laid};

use rv_assemble::ObjUnit;
use std::alloc::{AllocError, Global};

/// Units with so many bytes count as want of memory.
const LIMIT: usize = 2_000_000_000;

fn put_codes(bytes: &mut Vec<u8>, units: &[ObjUnit]) -> Result<(), AllocError>
    ensures { OnOk result (bytes.new.items ≡ bytes.old.items ++ codes units.now) }
{
    for u in units {
        bytes.extend_from_slice(u.code.as_slice())?;
    }
    Ok(())
}

fn put_images(bytes: &mut Vec<u8>, units: &[ObjUnit]) -> Result<(), AllocError>
    ensures { OnOk result (bytes.new.items ≡ bytes.old.items ++ images units.now) }
{
    for u in units {
        bytes.extend_from_slice(u.image.as_slice())?;
    }
    Ok(())
}

fn put_zeros(bytes: &mut Vec<u8>, count: usize) -> Result<(), AllocError>
    ensures { OnOk result (bytes.new.items ≡ bytes.old.items ++ zeros count) }
{
    for _ in 0..count {
        bytes.push(0)?;
    }
    Ok(())
}

/// The bytes as they were assembled, with the number of those that can't be written.
pub(crate) fn bytes_of(alloc: Global, units: &[ObjUnit]) -> Result<(Vec<u8>, u64), AllocError>
    ensures bytes { IfOk result (λ r. r.0.items ≡ laid units.now) }
    ensures code { IfOk result (λ r. r.1 ≡ code_size units.now) }
    ensures small { IfOk result (λ r. length r.0.items < 2000000000) }
{
    let mut bytes = Vec::new(alloc);
    put_codes(&mut bytes, units)?;
    let end = bytes.len();
    if end >= LIMIT {
        return Err(AllocError);
    }
    let code_len = (end + 15) / 16 * 16;
    put_zeros(&mut bytes, code_len - end)?;
    put_images(&mut bytes, units)?;
    if bytes.len() >= LIMIT {
        return Err(AllocError);
    }
    Ok((bytes, code_len as u64))
}
