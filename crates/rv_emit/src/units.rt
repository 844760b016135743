//! The units of a program.

ghost use Rattle.std.specs.Prelude.{◌≡◌, ◌++◌, ◌∷◌, [], map, slice_get, IfOk, OnOk};
ghost use Rattle.block_homes.specs.Held.{homes_in};
ghost use Rattle.emitted_code.specs.Units.{proc_unit, proc_units, first_size, start_lines, named_fix, image_unit, program_units};

use crate::frame::{frame_size, is_charged};
use crate::machine::{A4, GP};
use crate::names::{name_of, name_of_image, place_of};
use crate::procedures::lines_of;
use crate::writer::Writer;
use block_homes::{Assignment, Home};
use flat_ir::{Fix, Target};
use flatten::{BlockProc, BlockProgram};
use jf_base::{List, Memory};
use rv_assemble::{AsmLine, AsmUnit, NamedFix};
use rv_isa::Insn;
use std::alloc::{AllocError, Global};

/// The bytes that frames have beside their limit.
const RESERVE: u64 = 8192;

fn homes_in(assignments: &[Assignment], p: usize) -> &[Home]
    ensures { result.now ≡ homes_in (slice_get assignments.now p) }
{
    match assignments.get(p) {
        Some(a) => a.homes.as_slice(),
        None => &[],
    }
}

// The unit of the procedure of this number.
fn unit_of(
    alloc: Global,
    p: usize,
    f: &BlockProc,
    assignments: &[Assignment],
) -> Result<AsmUnit, AllocError>
    ensures { IfOk result (λ u. u ≡ proc_unit p f.now (slice_get assignments.now p)) }
{
    let homes = homes_in(assignments, p);
    let number = u32::try_from(p).map_err(|_| AllocError)?;
    let name = name_of(alloc, number)?;
    let lines = lines_of(alloc, f, homes)?;
    Ok(AsmUnit {
        name,
        lines,
        image: List::from_vec(Vec::new(alloc)),
        fixes: List::from_vec(Vec::new(alloc)),
    })
}

fn add(units: &mut Vec<AsmUnit>, unit: AsmUnit) -> Result<(), AllocError>
    ensures { OnOk result (units.new.items ≡ units.old.items ++ unit ∷ []) }
{
    units.push(unit)?;
    Ok(())
}

// The units of all procedures.
fn units_of(
    alloc: Global,
    procs: &[BlockProc],
    assignments: &[Assignment],
) -> Result<Vec<AsmUnit>, AllocError>
    ensures { IfOk result (λ units. units.items ≡ proc_units 0 procs.now assignments.now) }
{
    let mut units = Vec::new(alloc);
    for p in 0..procs.len() {
        let unit = unit_of(alloc, p, &procs[p], assignments)?;
        add(&mut units, unit)?;
    }
    Ok(units)
}

// The bytes that an entry takes that is charged nothing.
fn first_size(procs: &[BlockProc], entry: u32) -> Result<u64, AllocError>
    ensures { IfOk result (λ n. n ≡ first_size (slice_get procs.now entry)) }
{
    match procs.get(entry as usize) {
        None => Ok(0),
        Some(f) => {
            if is_charged(f) {
                return Ok(0);
            }
            frame_size(f)
        }
    }
}

// The lines with which a program begins.
#[tactic(auto, using(crate::proofs::Pieces::append))]
fn start_lines(alloc: Global, first: u64, entry: u32) -> Result<List<AsmLine>, AllocError>
    ensures { IfOk result (λ lines. lines ≡ start_lines first entry) }
{
    let mut out = Writer::new(alloc);
    let name = name_of(alloc, entry)?;
    out.put(AsmLine::Call { name })?;
    out.plain(Insn::Add {
        rd: GP,
        rs1: GP,
        rs2: A4,
    })?;
    out.load_pair(GP, RESERVE.saturating_sub(first) as u32)?;
    Ok(out.into_lines())
}

fn fix_to(alloc: Global, fix: &Fix) -> Result<NamedFix, AllocError>
    ensures { IfOk result (λ named. named ≡ named_fix fix.now) }
{
    match fix.target {
        Target::Proc(p) => Ok(NamedFix {
            at: fix.at,
            name: name_of(alloc, p)?,
            offset: 0,
        }),
        Target::Image(n) => Ok(NamedFix {
            at: fix.at,
            name: name_of_image(alloc)?,
            offset: place_of(n)?,
        }),
    }
}

fn fixes_to(alloc: Global, fixes: &[Fix]) -> Result<List<NamedFix>, AllocError>
    ensures { IfOk result (λ named. named ≡ map named_fix fixes.now) }
{
    let mut named = Vec::new(alloc);
    for fix in fixes {
        named.push(fix_to(alloc, fix)?)?;
    }
    Ok(List::from_vec(named))
}

// The unit with the start and the image.
fn last_unit(alloc: Global, q: &BlockProgram) -> Result<AsmUnit, AllocError>
    ensures { IfOk result (λ u. u ≡ image_unit q.now) }
{
    let first = first_size(q.procs.as_slice(), q.entry)?;
    let lines = start_lines(alloc, first, q.entry)?;
    let image = Vec::from_slice(alloc, q.image.as_slice())?;
    let fixes = fixes_to(alloc, q.fixes.as_slice())?;
    Ok(AsmUnit {
        name: name_of_image(alloc)?,
        lines,
        image: List::from_vec(image),
        fixes,
    })
}

fn units_in(
    alloc: Global,
    q: &BlockProgram,
    assignments: &[Assignment],
) -> Result<Vec<AsmUnit>, AllocError>
    ensures { IfOk result (λ units. units.items ≡ program_units q.now assignments.now) }
{
    let mut units = units_of(alloc, q.procs.as_slice(), assignments)?;
    let last = last_unit(alloc, q)?;
    add(&mut units, last)?;
    Ok(units)
}

/// The units of assembly of a program whose procedures' values have these homes, by the procedures' numbers: one for each procedure, and a last one with the start and the image.
/// A program with more than 2^32 procedures, blocks of one or words that one passes, with more than 246 results of a call, or with a frame or an image that ends beyond 64 bits, is want of memory too.
pub fn emit(
    alloc: Global,
    q: &BlockProgram,
    assignments: &[Assignment],
) -> Result<Vec<AsmUnit>, Memory>
    ensures { IfOk result (λ units. units.items ≡ program_units q.now assignments.now) }
{
    let units = units_in(alloc, q, assignments)?;
    Ok(units)
}
