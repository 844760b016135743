//! Units assembled and linked.
ghost use Rattle.std.specs.Prelude.{◌≡◌, ℕ, List, [], ◌∷◌, ◌++◌, IfOk, OnOk};
ghost use Rattle.rv_assemble.specs.declared.object.ObjUnit.{ObjUnit};
ghost use Rattle.linker.specs.Linked.{IsFaulty, AreLinkable};
ghost use Rattle.assembled_run.specs.Program.{AreProper, AreAssembled, AreClosed, StayWithin, IsImageOf};

use jf_base::Memory;
use linker::{LinkFault, link};
use program_image::Image;
use rv_assemble::{AsmUnit, ObjUnit, assemble};
use std::alloc::{AllocError, Global};

fn add(objects: &mut Vec<ObjUnit>, object: ObjUnit) -> Result<(), AllocError>
    ensures { OnOk result (objects.new.items ≡ objects.old.items ++ object ∷ []) }
{
    objects.push(object)?;
    Ok(())
}

/// The objects of units.
fn objects_of(alloc: Global, units: &[AsmUnit]) -> Result<Vec<ObjUnit>, Memory>
    requires { AreProper units.now }
    ensures { IfOk result (λ objects. AreAssembled units.now objects.items) }
{
    let mut objects = Vec::new(alloc);
    for u in units {
        let object = assemble(alloc, u)?;
        add(&mut objects, object)?;
    }
    Ok(objects)
}

/// The image of units: each assembled, and all linked. The units are proper, the names that they ask for are their own, and no address that they ask for
/// is behind the unit of its name. The answer is the image, or that memory was wanting.
pub fn image_of(alloc: Global, units: &[AsmUnit]) -> Result<Image, Memory>
    requires proper { AreProper units.now }
    requires closed { AreClosed units.now }
    requires within { (os : List ObjUnit) → AreAssembled units.now os → StayWithin units.now os }
    ensures { IfOk result (λ image. IsImageOf units.now image) }
{
    let objects = objects_of(alloc, units)?;
    match link(alloc, objects.as_slice()) {
        Ok(image) => Ok(image),
        Err(fault) => match fault {
            LinkFault::Memory => Err(Memory),
            _ => unreachable!(),
        },
    }
}
