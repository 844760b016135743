//! The stages of the back end, one behind the other.

ghost use Rattle.std.specs.Prelude.{◌≡◌, true, All, IfOk};
ghost use Rattle.flat_ir.specs.Checked.{is_ok};
ghost use Rattle.block_homes.specs.Valid.{IsNamed};
ghost use Rattle.block_image.specs.Images.{AreAssigned, HoldTogether};
ghost use Rattle.reg_alloc.specs.All.{AreAssigned as AllAssigned};

use anyhow::bail;
use block_image::image_of_blocks;
use flat_ir::{FlatProgram, flat_ok};
use flatten::{BlockProc, BlockProgram, flatten};
use program_image::Image;
use reg_alloc::{Assignment, Home, Verdict, assign_all, validate};
use rv_assemble::AsmUnit;
use rv_emit::emit;
use std::alloc::Global;
use std::time::Instant;

/// A stage, by what it makes.
#[derive(Clone, Copy, PartialEq, Eq)]
pub enum Stage {
    Blocks,
    Homes,
    Verdicts,
    Lines,
    Image,
}

/// The stage of this name, if there is one.
pub fn stage_of(name: &str) -> Option<Stage> {
    if name == "blocks" {
        return Some(Stage::Blocks);
    }
    if name == "homes" {
        return Some(Stage::Homes);
    }
    if name == "verdicts" {
        return Some(Stage::Verdicts);
    }
    if name == "lines" {
        return Some(Stage::Lines);
    }
    if name == "image" {
        return Some(Stage::Image);
    }
    None
}

/// When the stage that runs began, where times are told.
#[derive(Drop)]
struct Clock {
    since: Option<Instant>,
}

/// Tells how long a stage took that ends now.
fn lap(rt: &HostRuntime, clock: &mut Clock, stage: &str) -> anyhow::Result<()> {
    let Some(since) = clock.since else {
        return Ok(());
    };
    let now = Instant::now(rt)?;
    let taken = now.saturating_duration_since(since).as_micros();
    eprintln!(rt; "{stage} {taken} microseconds")?;
    clock.since = Some(Instant::now(rt)?);
    Ok(())
}

fn tell_blocks(rt: &HostRuntime, q: &BlockProgram) -> anyhow::Result<()> {
    let mut blocks: usize = 0;
    let mut values: usize = 0;
    for f in q.procs.as_slice() {
        blocks = blocks.saturating_add(f.blocks.len());
        values = values.saturating_add(f.values as usize);
    }
    println!(rt;
        "{} procedures, {blocks} blocks, {values} values",
        q.procs.len()
    )?;
    Ok(())
}

fn slots_of(a: &Assignment) -> usize {
    a.homes
        .as_slice()
        .iter()
        .filter(|home| matches!(home, Home::Slot(_)))
        .count()
}

fn tell_homes(rt: &HostRuntime, assignments: &[Assignment]) -> anyhow::Result<()> {
    let mut slots: usize = 0;
    for a in assignments {
        slots = slots.saturating_add(slots_of(a));
    }
    println!(rt; "{slots} slots")?;
    Ok(())
}

/// How many procedures keep each value.
fn valid_of(alloc: Global, procs: &[BlockProc], assignments: &[Assignment]) -> anyhow::Result<usize>
    requires named { All IsNamed procs.now }
    requires assigned { AllAssigned procs.now assignments.now }
{
    let mut valid: usize = 0;
    for f in 0..procs.len() {
        let p = &procs[f];
        let a = &assignments[f];
        let verdict = match validate(alloc, p, a) {
            Ok(verdict) => verdict,
            Err(_) => bail!("there isn't the memory"),
        };
        if verdict == Verdict::Yes {
            valid = valid.saturating_add(1);
        }
    }
    Ok(valid)
}

fn tell_lines(rt: &HostRuntime, units: &[AsmUnit]) -> anyhow::Result<()> {
    let mut lines: usize = 0;
    for unit in units {
        lines = lines.saturating_add(unit.lines.len());
    }
    println!(rt; "{} units, {lines} lines", units.len())?;
    Ok(())
}

fn tell_image(rt: &HostRuntime, image: &Image) -> anyhow::Result<()> {
    println!(rt;
        "{} instructions, {} bytes",
        image.code_len / 4,
        image.bytes.len()
    )?;
    Ok(())
}

/// The stages behind the homes.
fn emit_and_link(
    rt: &HostRuntime,
    alloc: Global,
    q: &BlockProgram,
    assignments: &[Assignment],
    last: Stage,
    clock: &mut Clock,
) -> anyhow::Result<()>
    requires holds { HoldTogether q.now }
    requires assigned { AreAssigned q.now.procs assignments.now }
{
    if last == Stage::Lines {
        let Ok(units) = emit(alloc, q, assignments) else {
            bail!("there isn't the memory");
        };
        lap(rt, clock, "lines")?;
        return tell_lines(rt, units.as_slice());
    }
    let Ok(image) = image_of_blocks(alloc, q, assignments) else {
        bail!("there isn't the memory");
    };
    lap(rt, clock, "image")?;
    tell_image(rt, &image)
}

/// The stages behind the blocks.
fn place(
    rt: &HostRuntime,
    alloc: Global,
    q: &BlockProgram,
    last: Stage,
    clock: &mut Clock,
) -> anyhow::Result<()>
    requires { HoldTogether q.now }
{
    let procs = q.procs.as_slice();
    let assignments = match assign_all(alloc, procs) {
        Ok(assignments) => assignments,
        Err(_) => bail!("there isn't the memory"),
    };
    lap(rt, clock, "homes")?;
    tell_homes(rt, assignments.as_slice())?;
    if last == Stage::Homes {
        return Ok(());
    }
    let valid = valid_of(alloc, procs, assignments.as_slice())?;
    lap(rt, clock, "verdicts")?;
    println!(rt; "{valid} valid")?;
    if last == Stage::Verdicts {
        return Ok(());
    }
    emit_and_link(rt, alloc, q, assignments.as_slice(), last, clock)
}

/// The blocks of a program that holds together.
fn blocks_of(alloc: Global, p: &FlatProgram) -> anyhow::Result<BlockProgram>
    requires { is_ok p.now ≡ true }
    ensures { IfOk result (λ q. HoldTogether q) }
{
    let q = match flatten(alloc, p) {
        Ok(q) => q,
        Err(_) => bail!("there isn't the memory"),
    };
    Ok(q)
}

/// Takes a program up to the last stage.
pub fn run(
    rt: &HostRuntime,
    alloc: Global,
    p: &FlatProgram,
    last: Stage,
    is_timed: bool,
) -> anyhow::Result<()> {
    let mut clock = Clock { since: None };
    if is_timed {
        clock.since = Some(Instant::now(rt)?);
    }
    if !flat_ok(p) {
        bail!("the program doesn't hold together");
    }
    lap(rt, &mut clock, "check")?;
    let q = blocks_of(alloc, p)?;
    lap(rt, &mut clock, "blocks")?;
    tell_blocks(rt, &q)?;
    if last == Stage::Blocks {
        return Ok(());
    }
    place(rt, alloc, &q, last, &mut clock)
}
