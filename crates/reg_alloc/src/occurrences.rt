//! Where each value is named, and from where each block is reached.

ghost use Rattle.std.specs.Prelude.{◌≡◌, ℕ, ◌+◌, ◌<◌, ◌^◌, [], ◌∷◌, false, length, slice_index, All, IfOk, OnOk};
ghost use Rattle.flatten.specs.Named.{AllBelow};
ghost use Rattle.flatten.specs.Paths.{end_uses, goes_to};
ghost use Rattle.block_homes.specs.Held.{total};
ghost use Rattle.block_homes.specs.Valid.{InsnBelow, IsNamed};
ghost use Rattle.reg_alloc.specs.Occurs.{occurrence, row, add, all_by, add_all, insn_by, insns_by, OccurrencesBy, Occurrences, Sources, BlockStarts};
ghost use Rattle.reg_alloc.specs.Rows.{Places};

use flatten::{BlockEnd, BlockInsn, BlockProc};
use jf_base::List;
use std::alloc::{AllocError, Global};

/// An instruction, by the number of its block and its own, that sets or uses the value `named`, or an end that goes to the block `named`.
#[derive(Clone, Copy, Debug)]
pub struct Occurrence {
    pub block: u32,
    pub insn: u32,
    pub sets: bool,
    pub named: u32,
}

/// An instruction as it sets or uses one value after the other.
#[derive(Clone, Copy, Debug)]
struct At {
    block: u32,
    insn: u32,
    sets: bool,
}

impl At {
    fn naming(&self, named: u32) -> Occurrence
        ensures { result ≡ occurrence self.now.block self.now.insn self.now.sets named }
    {
        Occurrence {
            block: self.block,
            insn: self.insn,
            sets: self.sets,
            named,
        }
    }
}

fn add_one(rows: &mut Vec<List<Occurrence>>, o: Occurrence, row: usize) -> Result<(), AllocError>
    requires { row < length rows.old.items }
    ensures len { OnOk result (length rows.new.items ≡ length rows.old.items) }
    ensures rows { OnOk result (rows.new.items ≡ add o row rows.old.items) }
{
    rows[row].push(o)
}

// Adds the instruction to the row of a value that it names.
fn note(rows: &mut Vec<List<Occurrence>>, keys: &[usize], at: &At, v: u32) -> Result<(), AllocError>
    requires value { v < length keys.now }
    requires keys { Places (length keys.now) (length rows.old.items) keys.now }
    ensures len { OnOk result (length rows.new.items ≡ length rows.old.items) }
    ensures rows { OnOk result (rows.new.items ≡ all_by keys.now at.now.block at.now.insn at.now.sets (v ∷ []) rows.old.items) }
{
    add_one(rows, at.naming(v), keys[v as usize])
}

#[tactic(auto, unfolding(crate::specs::Occurs::all_by))]
fn note_all(
    rows: &mut Vec<List<Occurrence>>,
    keys: &[usize],
    at: &At,
    values: &[u32],
) -> Result<(), AllocError>
    requires values { AllBelow (length keys.now) values.now }
    requires keys { Places (length keys.now) (length rows.old.items) keys.now }
    ensures len { OnOk result (length rows.new.items ≡ length rows.old.items) }
    ensures rows { OnOk result (rows.new.items ≡ all_by keys.now at.now.block at.now.insn at.now.sets values.now rows.old.items) }
{
    let mut rest = values;
    while let Some((v, tail)) = rest.split_first() {
        note(rows, keys, at, *v)?;
        rest = tail;
    }
    Ok(())
}

// The instruction's uses, and then what it sets.
fn note_insn(
    rows: &mut Vec<List<Occurrence>>,
    keys: &[usize],
    insn: &BlockInsn,
    block: u32,
    k: u32,
) -> Result<(), AllocError>
    requires values { InsnBelow (length keys.now) insn.now }
    requires keys { Places (length keys.now) (length rows.old.items) keys.now }
    ensures len { OnOk result (length rows.new.items ≡ length rows.old.items) }
    ensures rows { OnOk result (rows.new.items ≡ insn_by keys.now block k insn.now rows.old.items) }
{
    let using = &At {
        block,
        insn: k,
        sets: false,
    };
    let setting = &At {
        block,
        insn: k,
        sets: true,
    };
    match insn {
        BlockInsn::Number(x, _) => note(rows, keys, setting, *x),
        BlockInsn::Copy(x, y) => {
            note(rows, keys, using, *y)?;
            note(rows, keys, setting, *x)
        }
        BlockInsn::Binary(_, x, y, z) => {
            note(rows, keys, using, *y)?;
            note(rows, keys, using, *z)?;
            note(rows, keys, setting, *x)
        }
        BlockInsn::Load(x, _, _, y) => {
            note(rows, keys, using, *y)?;
            note(rows, keys, setting, *x)
        }
        BlockInsn::Store(_, y, z) => {
            note(rows, keys, using, *y)?;
            note(rows, keys, using, *z)
        }
        BlockInsn::ProcAddress(x, _) => note(rows, keys, setting, *x),
        BlockInsn::ImageAddress(x, _) => note(rows, keys, setting, *x),
        BlockInsn::Call(xs, _, ys) => {
            note_all(rows, keys, using, ys.as_slice())?;
            note_all(rows, keys, setting, xs.as_slice())
        }
        BlockInsn::CallAt(xs, y, ys) => {
            note(rows, keys, using, *y)?;
            note_all(rows, keys, using, ys.as_slice())?;
            note_all(rows, keys, setting, xs.as_slice())
        }
        BlockInsn::Take(x) => note(rows, keys, setting, *x),
        BlockInsn::Give(y) => note(rows, keys, using, *y),
    }
}

fn note_end(
    rows: &mut Vec<List<Occurrence>>,
    keys: &[usize],
    end: &BlockEnd,
    at: &At,
) -> Result<(), AllocError>
    requires values { AllBelow (length keys.now) (end_uses end.now) }
    requires keys { Places (length keys.now) (length rows.old.items) keys.now }
    ensures len { OnOk result (length rows.new.items ≡ length rows.old.items) }
    ensures rows { OnOk result (rows.new.items ≡ all_by keys.now at.now.block at.now.insn at.now.sets (end_uses end.now) rows.old.items) }
{
    match end {
        BlockEnd::Jump(_) => Ok(()),
        BlockEnd::Branch(y, _, _) => note(rows, keys, at, *y),
        BlockEnd::Return(ys) => note_all(rows, keys, at, ys.as_slice()),
        BlockEnd::Stop(y) => note(rows, keys, at, *y),
        BlockEnd::Limit(_) => Ok(()),
    }
}

fn add_targets(rows: &mut Vec<List<Occurrence>>, end: &BlockEnd, at: &At) -> Result<(), AllocError>
    requires targets { AllBelow (length rows.old.items) (goes_to end.now) }
    requires uses { at.now.sets ≡ false }
    ensures len { OnOk result (length rows.new.items ≡ length rows.old.items) }
    ensures rows { OnOk result (rows.new.items ≡ add_all at.now.block at.now.insn (goes_to end.now) rows.old.items) }
{
    match end {
        BlockEnd::Jump(t) => add_one(rows, at.naming(*t), *t as usize),
        BlockEnd::Branch(_, t, u) => {
            add_one(rows, at.naming(*t), *t as usize)?;
            add_one(rows, at.naming(*u), *u as usize)
        }
        BlockEnd::Return(_) => Ok(()),
        BlockEnd::Stop(_) => Ok(()),
        BlockEnd::Limit(_) => Ok(()),
    }
}

// The block's instructions from the number `start` on, and its end.
fn note_block(
    rows: &mut Vec<List<Occurrence>>,
    keys: &[usize],
    insns: &[BlockInsn],
    end: &BlockEnd,
    block: u32,
    start: u32,
) -> Result<(), AllocError>
    requires values { All (InsnBelow (length keys.now)) insns.now }
    requires ends { AllBelow (length keys.now) (end_uses end.now) }
    requires keys { Places (length keys.now) (length rows.old.items) keys.now }
    requires size { start + length insns.now < 2 ^ 32 }
    ensures len { OnOk result (length rows.new.items ≡ length rows.old.items) }
    ensures rows { OnOk result (rows.new.items ≡ insns_by keys.now block start insns.now end.now rows.old.items) }
{
    for (i, insn) in insns.iter().enumerate() {
        note_insn(rows, keys, insn, block, start + i as u32)?;
    }
    let last = At {
        block,
        insn: start + insns.len() as u32,
        sets: false,
    };
    note_end(rows, keys, end, &last)
}

fn empty_rows(alloc: Global, len: usize) -> Result<Vec<List<Occurrence>>, AllocError>
    ensures len { IfOk result (λ rows. length rows.items ≡ len) }
    ensures rows { IfOk result (λ rows. (v : ℕ) → row rows.items v ≡ []) }
{
    let mut rows = Vec::with_capacity(alloc, len)?;
    for _ in 0..len {
        rows.push(List::from_vec(Vec::new(alloc)))?;
    }
    Ok(rows)
}

fn numbers(alloc: Global, count: usize) -> Result<Vec<usize>, AllocError>
    ensures len { IfOk result (λ v. length v.items ≡ count) }
    ensures each { IfOk result (λ v. (n : ℕ) → n < count → slice_index v.items n ≡ n) }
{
    let mut numbers = Vec::with_capacity(alloc, count)?;
    for n in 0..count {
        numbers.push(n)?;
    }
    Ok(numbers)
}

/// The occurrences of the values with each key, in order; the keys are below `count`.
pub fn occurrences_by(
    alloc: Global,
    p: &BlockProc,
    keys: &[usize],
    count: usize,
) -> Result<Vec<List<Occurrence>>, AllocError>
    requires named { IsNamed p.now }
    requires keys { Places p.now.values count keys.now }
    requires size { total p.now.blocks < 2 ^ 32 }
    ensures { IfOk result (λ rows. OccurrencesBy keys.now count p.now rows.items) }
{
    let mut rows = empty_rows(alloc, count)?;
    let mut start: u32 = 0;
    for (b, block) in p.blocks.as_slice().iter().enumerate() {
        note_block(
            &mut rows,
            keys,
            block.insns.as_slice(),
            &block.end,
            b as u32,
            start,
        )?;
        start += block.insns.len() as u32 + 1;
    }
    Ok(rows)
}

/// The occurrences of each value, in order.
pub fn occurrences_of(alloc: Global, p: &BlockProc) -> Result<Vec<List<Occurrence>>, AllocError>
    requires named { IsNamed p.now }
    requires size { total p.now.blocks < 2 ^ 32 }
    ensures { IfOk result (λ rows. Occurrences p.now rows.items) }
{
    let count = p.values as usize;
    let own = numbers(alloc, count)?;
    let rows = occurrences_by(alloc, p, own.as_slice(), count)?;
    Ok(rows)
}

/// Of each block the ends that go to it.
pub fn sources_of(alloc: Global, p: &BlockProc) -> Result<Vec<List<Occurrence>>, AllocError>
    requires named { IsNamed p.now }
    requires size { total p.now.blocks < 2 ^ 32 }
    ensures { IfOk result (λ rows. Sources p.now rows.items) }
{
    let mut rows = empty_rows(alloc, p.blocks.len())?;
    let mut start: u32 = 0;
    for (b, block) in p.blocks.as_slice().iter().enumerate() {
        let end = start + block.insns.len() as u32;
        let last = At {
            block: b as u32,
            insn: end,
            sets: false,
        };
        add_targets(&mut rows, &block.end, &last)?;
        start = end + 1;
    }
    Ok(rows)
}

/// The number of the first instruction of each block.
pub fn starts_of(alloc: Global, p: &BlockProc) -> Result<Vec<u32>, AllocError>
    requires size { total p.now.blocks < 2 ^ 32 }
    ensures { IfOk result (λ starts. BlockStarts p.now starts.items) }
{
    let mut starts = Vec::with_capacity(alloc, p.blocks.len())?;
    let mut start: u32 = 0;
    for block in p.blocks.as_slice() {
        starts.push(start)?;
        start += block.insns.len() as u32 + 1;
    }
    Ok(starts)
}
