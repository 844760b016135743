//! A unit's object: its code at its places, and what it asks of the linker.
ghost use Rattle.std.specs.Prelude.{◌≡◌, ℕ, ◌<◌, ◌+◌, ◌++◌, [], ◌∷◌, slice_get, Some, IfOk, OnOk, length, slice_index};
ghost use Rattle.rv_assemble.specs.Lines.{AreProperLines, asked_by, asked_by_lines, asked_by_fixes, IsProperUnit, IsAssembled};
ghost use Rattle.rv_assemble.specs.declared.unit.NamedFix.{NamedFix};
ghost use Rattle.rv_assemble.specs.Places.{AreFitting, IsCodeTo};

use crate::labels::targets;
use crate::object::{ObjUnit, Relocation, RelocationKind};
use crate::places::{LIMIT, places, wide_places};
use crate::unit::{AsmLine, AsmUnit, NamedFix};
use crate::words::put_line;
use jf_base::{List, Memory, Text};
use std::alloc::{AllocError, Global};

/// The code of lines at their places.
fn code_of(
    alloc: Global,
    lines: &[AsmLine],
    targets: &[u64],
    places: &[u64],
) -> Result<Vec<u8>, AllocError>
    requires proper { AreProperLines lines.now }
    requires fitting { AreFitting lines.now targets.now places.now }
    ensures { IfOk result (λ code. IsCodeTo lines.now targets.now places.now (length lines.now) code.items) }
{
    let mut code = Vec::new(alloc);
    for (k, line) in lines.iter().enumerate() {
        let next = places[k + 1];
        let target = places[targets[k] as usize];
        put_line(&mut code, line, next, target)?;
    }
    Ok(code)
}

/// What a line at this place asks of the linker.
fn ask(asked: &mut Vec<Relocation>, line: &AsmLine, place: u64) -> Result<(), AllocError>
    ensures { OnOk result (asked.new.items ≡ asked.old.items ++ asked_by place line.now) }
{
    match line {
        AsmLine::Call { name } => asked.push(Relocation {
            at: place,
            name: name.clone()?,
            offset: 0,
            kind: RelocationKind::Pair,
        })?,
        AsmLine::Address { name, offset, .. } => asked.push(Relocation {
            at: place,
            name: name.clone()?,
            offset: *offset,
            kind: RelocationKind::Pair,
        })?,
        _ => {}
    }
    Ok(())
}

/// What the lines ask of the linker.
fn asked_of_lines(
    alloc: Global,
    lines: &[AsmLine],
    places: &[u64],
) -> Result<Vec<Relocation>, AllocError>
    requires { length places.now ≡ length lines.now + 1 }
    ensures { IfOk result (λ asked. asked.items ≡ asked_by_lines 0 lines.now places.now) }
{
    let mut asked = Vec::new(alloc);
    for (k, line) in lines.iter().enumerate() {
        ask(&mut asked, line, places[k])?;
    }
    Ok(asked)
}

/// Adds what the fixes ask, behind so much code.
fn ask_fixes(
    asked: &mut Vec<Relocation>,
    fixes: &[NamedFix],
    code_len: u64,
) -> Result<(), AllocError>
    requires code { code_len < 2000000000 }
    requires fixes { (k : ℕ) (fix : NamedFix) → slice_get fixes.now k ≡ Some fix → fix.at < 2000000000 }
    ensures { OnOk result (asked.new.items ≡ asked.old.items ++ asked_by_fixes code_len fixes.now) }
{
    for fix in fixes {
        let name = fix.name.clone()?;
        asked.push(Relocation {
            at: code_len + fix.at,
            name,
            offset: fix.offset,
            kind: RelocationKind::Word,
        })?;
    }
    Ok(())
}

fn names_of(alloc: Global, u: &AsmUnit) -> Result<Vec<(Text, u64)>, AllocError>
    ensures { IfOk result (λ names. names.items ≡ (u.now.name, 0) ∷ []) }
{
    let name = u.name.clone()?;
    let mut names = Vec::new(alloc);
    names.push((name, 0))?;
    Ok(names)
}

fn object_of(alloc: Global, u: &AsmUnit) -> Result<ObjUnit, AllocError>
    requires { IsProperUnit u.now }
    ensures assembled { IfOk result (λ o. IsAssembled u.now o) }
    ensures size { IfOk result (λ o. length o.code + length o.image < 2000000000) }
{
    let lines = u.lines.as_slice();
    let targets = targets(alloc, lines)?;
    let wide = wide_places(alloc, lines)?;
    let places = places(alloc, lines, &targets, &wide)?;
    let code = code_of(alloc, lines, &targets, &places)?;
    let code_len = code.len() as u64;
    let image_len = u.image.len() as u64;
    if image_len >= LIMIT || code_len >= LIMIT - image_len {
        return Err(AllocError);
    }
    let mut asked = asked_of_lines(alloc, lines, &places)?;
    ask_fixes(&mut asked, u.fixes.as_slice(), code_len)?;
    let names = names_of(alloc, u)?;
    let image = Vec::from_slice(alloc, u.image.as_slice())?;
    Ok(ObjUnit {
        code: List::from_vec(code),
        image: List::from_vec(image),
        names: List::from_vec(names),
        relocations: List::from_vec(asked),
    })
}

/// The object of a unit of assembly, whose labels that are named stand on lines and whose fixes lie in its image and apart.
/// A conditional branch further than 4 KiB goes over a jump, and a jump further than 1 MiB over x6.
/// Memory is wanting too where the unit has 2,000,000,000 bytes or more.
pub fn assemble(alloc: Global, u: &AsmUnit) -> Result<ObjUnit, Memory>
    requires { IsProperUnit u.now }
    ensures assembled { IfOk result (λ o. IsAssembled u.now o) }
    ensures size { IfOk result (λ o. length o.code + length o.image < 2000000000) }
{
    let object = object_of(alloc, u)?;
    Ok(object)
}
