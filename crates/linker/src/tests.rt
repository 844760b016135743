//! Units of which the RISC-V ELF psABI tells the image.
ghost use Rattle.std.specs.Prelude.{◌≡◌, ◌∷◌, [], length, IfOk};
ghost use Rattle.linker.specs.Linked.{AreLinkable};
ghost use Rattle.linker.specs.Trial.{IsTrial, asked_of};

use crate::{Image, LinkFault, link};
use jf_base::{List, Text};
use rv_assemble::{ObjUnit, Relocation, RelocationKind};
use std::alloc::{AllocError, Global};
use std::test::Fail;

/// A unit of one instruction that does nothing.
fn leaf(alloc: Global, name: &str) -> Result<ObjUnit, AllocError>
    ensures { IfOk result (λ u. IsTrial u) }
{
    let code = [19, 0, 0, 0].to_vec(alloc)?;
    let mut names = Vec::new(alloc);
    names.push((Text::from_text(alloc, name)?, 0))?;
    Ok(ObjUnit {
        code: List::from_vec(code),
        image: List::from_vec(Vec::new(alloc)),
        names: List::from_vec(names),
        relocations: List::from_vec(Vec::new(alloc)),
    })
}

fn asking(alloc: Global, callee: &str) -> Result<Vec<Relocation>, AllocError>
    ensures { IfOk result (λ r. r.items ≡ asked_of callee.now) }
{
    let mut relocations = Vec::new(alloc);
    relocations.push(Relocation {
        at: 0,
        name: Text::from_text(alloc, callee)?,
        offset: 0,
        kind: RelocationKind::Pair,
    })?;
    relocations.push(Relocation {
        at: 8,
        name: Text::from_text(alloc, callee)?,
        offset: 0,
        kind: RelocationKind::Word,
    })?;
    Ok(relocations)
}

/// A unit that calls another and has its address.
fn caller(alloc: Global, name: &str, callee: &str) -> Result<ObjUnit, AllocError>
    ensures { IfOk result (λ u. IsTrial u) }
{
    let code = [151, 0, 0, 0, 231, 128, 0, 0].to_vec(alloc)?;
    let image = [0, 0, 0, 0, 0, 0, 0, 0].to_vec(alloc)?;
    let mut names = Vec::new(alloc);
    names.push((Text::from_text(alloc, name)?, 0))?;
    let relocations = asking(alloc, callee)?;
    Ok(ObjUnit {
        code: List::from_vec(code),
        image: List::from_vec(image),
        names: List::from_vec(names),
        relocations: List::from_vec(relocations),
    })
}

fn both(alloc: Global, first: ObjUnit, second: ObjUnit) -> Result<Vec<ObjUnit>, AllocError>
    requires first { IsTrial first }
    requires second { IsTrial second }
    ensures { IfOk result (λ units. AreLinkable units.items) }
{
    let mut units = Vec::new(alloc);
    units.push(first)?;
    units.push(second)?;
    Ok(units)
}

/// What linking gives, in one line.
fn told(linked: Result<Image, LinkFault>) -> Result<Image, Fail> {
    Ok(linked?)
}

#[test]
fn no_unit(rt: HostRuntime) -> Result<(), Fail> {
    let alloc = rt.alloc();
    let units = Vec::new(alloc);
    match link(alloc, units.as_slice()) {
        Err(LinkFault::Missing(name)) => assert_eq!(rt; name.as_str(), "main"),
        _ => panic!(rt; "main is missing"),
    }
    Ok(())
}

#[test]
fn two_definitions(rt: HostRuntime) -> Result<(), Fail> {
    let alloc = rt.alloc();
    let units = both(alloc, leaf(alloc, "main")?, leaf(alloc, "main")?)?;
    match link(alloc, units.as_slice()) {
        Err(LinkFault::Twice(name)) => assert_eq!(rt; name.as_str(), "main"),
        _ => panic!(rt; "main is there twice"),
    }
    Ok(())
}

#[test]
fn the_first_name(rt: HostRuntime) -> Result<(), Fail> {
    let alloc = rt.alloc();
    let units = both(
        alloc,
        caller(alloc, "zeta", "nought")?,
        caller(alloc, "zeta", "never")?,
    )?;
    match link(alloc, units.as_slice()) {
        Err(LinkFault::Missing(name)) => assert_eq!(rt; name.as_str(), "main"),
        _ => panic!(rt; "main is missing"),
    }
    Ok(())
}

#[test]
fn forward(rt: HostRuntime) -> Result<(), Fail> {
    let alloc = rt.alloc();
    let units = both(alloc, caller(alloc, "main", "f")?, leaf(alloc, "f")?)?;
    let image = told(link(alloc, units.as_slice()))?;
    assert_eq!(rt; image.entry, 0);
    assert_eq!(rt; image.code_len, 16);
    assert_eq!(rt;
        image.bytes.as_slice(),
        [
            151, 0, 0, 0, 231, 128, 128, 0, 19, 0, 0, 0, 0, 0, 0, 0, 8, 0, 1, 0, 0, 0, 0, 0
        ]
        .as_slice()
    );
    Ok(())
}

#[test]
fn backward(rt: HostRuntime) -> Result<(), Fail> {
    let alloc = rt.alloc();
    let units = both(alloc, leaf(alloc, "f")?, caller(alloc, "main", "f")?)?;
    let image = told(link(alloc, units.as_slice()))?;
    assert_eq!(rt; image.entry, 4);
    assert_eq!(rt;
        image.bytes.as_slice(),
        [
            19, 0, 0, 0, 151, 0, 0, 0, 231, 128, 192, 255, 0, 0, 0, 0, 0, 0, 1, 0, 0, 0, 0, 0
        ]
        .as_slice()
    );
    Ok(())
}
