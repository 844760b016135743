ghost use Rattle.std.specs.Prelude.{ℕ, ◌<◌, List, length, IfOk, IfErr};
ghost use Rattle.linker.specs.Linked.{IsLinked, IsFaulty, AreLinkable};
ghost use Rattle.linker.specs.Told.{IsFault};

use crate::fault::{LinkFault, fault_of};
use crate::laid::bytes_of;
use crate::names::{missing_of, table_of};
use crate::offsets::starts_of;
use crate::resolve::{resolve_all, target_of};
use jf_base::List;
use program_image::Image;
use rv_assemble::ObjUnit;
use std::alloc::Global;

/// Puts units together into the image of a program: first the code of all units, zeros up to a multiple of 16, then the images of all units.
/// Each relocation is resolved as the RISC-V ELF psABI says (R_RISCV_PCREL_HI20 with R_RISCV_PCREL_LO12_I, and R_RISCV_64), all other bytes stay as assembled,
/// and the image is entered at `main`.
///
/// `Missing` and `Twice` come exactly where a name that is asked for, `main` among them, has no definition or a name has two: the first such in the order of bytes.
/// Units of 2,000,000,000 bytes or more together count as want of memory.
pub fn link(alloc: Global, units: &[ObjUnit]) -> Result<Image, LinkFault>
    requires { AreLinkable units.now }
    ensures linked { IfOk result (λ image. IsLinked units.now image) }
    ensures small { IfOk result (λ image. length image.bytes < 2000000000) }
    ensures sound { IfOk result (λ image. (name : List ℕ) → IsFaulty units.now name → ⊥) }
    ensures fault { IfErr result (λ fault. IsFault units.now fault) }
{
    let (table, twice) = table_of(alloc, units)?;
    let missing = missing_of(alloc, &table, units)?;
    if let Some(fault) = fault_of(missing.as_slice(), twice.as_slice())? {
        return Err(fault);
    }
    let (mut bytes, code_len) = bytes_of(alloc, units)?;
    let starts = starts_of(alloc, units, code_len)?;
    resolve_all(bytes.as_mut_slice(), units, starts.as_slice(), &table);
    let entry = target_of(units, starts.as_slice(), &table, "main", 0);
    Ok(Image {
        bytes: List::from_vec(bytes),
        code_len,
        entry,
    })
}
