//! The frame of a procedure: how large it is, and where its parts lie.

ghost use Rattle.std.specs.Prelude.{◌≡◌, ◌<◌, ◌∷◌, ◌++◌, [], ◌||◌, cond, ℕ, length, slice_index_or, false, IfOk, OnOk};
ghost use Rattle.emitted_code.specs.Frames.{words_of, most_words, words_of_blocks, is_charged, frame_size, layout_of, home_of, save_at, slot_at, is_register, is_used, used_of, kept_registers, saved_of};

use crate::machine::RA;
use block_homes::Home;
use flatten::{Block, BlockInsn, BlockProc};
use jf_base::List as Items;
use std::alloc::{AllocError, Global};
use std::marker::Model;

/// What code has to know of its procedure: the home of each value, the words that are passed on the stack, the bytes of the frame, and the registers that are saved.
#[derive(Drop)]
pub struct Frame<'a> {
    homes: &'a [Home],
    words: u32,
    size: u64,
    saved: Items<u8>,
}

impl<'a> Model for Frame<'a> {
    ghost use Rattle.std.specs.Prelude.{◌≡◌};
    ghost use Rattle.emitted_code.specs.Frames.{Layout, saved_of};

    ghost Value = { Layout };

    ghost view = { λ f. record { homes = f.homes.now; words = f.words; size = f.size } };

    ghost invariant = { λ f. f.saved ≡ saved_of (record { homes = f.homes.now; words = f.words; size = f.size }) };
}

/// The registers that a callee keeps.
const KEPT: [u8; 12] = [8, 9, 18, 19, 20, 21, 22, 23, 24, 25, 26, 27];

fn words_of(insn: &BlockInsn) -> Result<u32, AllocError>
    ensures { IfOk result (λ n. n ≡ words_of insn.now) }
{
    let arguments = match insn {
        BlockInsn::Call(_, _, ys) => ys.len(),
        BlockInsn::CallAt(_, _, ys) => ys.len(),
        _ => 0,
    };
    u32::try_from(arguments.saturating_sub(8)).map_err(|_| AllocError)
}

fn most_words(insns: &[BlockInsn]) -> Result<u32, AllocError>
    ensures { IfOk result (λ n. n ≡ most_words insns.now) }
{
    let mut most = 0;
    for i in (0..insns.len()).rev() {
        let words = words_of(&insns[i])?;
        most = words.max(most);
    }
    Ok(most)
}

fn words_of_blocks(blocks: &[Block]) -> Result<u32, AllocError>
    ensures { IfOk result (λ n. n ≡ words_of_blocks blocks.now) }
{
    let mut most = 0;
    for i in (0..blocks.len()).rev() {
        let words = most_words(blocks[i].insns.as_slice())?;
        most = words.max(most);
    }
    Ok(most)
}

/// Whether a procedure is charged for its frame.
pub fn is_charged(f: &BlockProc) -> bool
    ensures { result ≡ is_charged f.now }
{
    f.frame != 0
}

fn size_with(f: &BlockProc, words: u32) -> u64
    requires { words ≡ words_of_blocks f.now.blocks }
    ensures { result ≡ frame_size f.now }
{
    if is_charged(f) {
        return f.frame;
    }
    let need = 8 * (f.values as u64 + words as u64) + 112;
    need / 16 * 16
}

/// The bytes that the frame of a procedure takes.
pub fn frame_size(f: &BlockProc) -> Result<u64, AllocError>
    ensures { IfOk result (λ n. n ≡ frame_size f.now) }
{
    let words = words_of_blocks(f.blocks.as_slice())?;
    Ok(size_with(f, words))
}

fn mark(used: &mut [bool], home: Home)
    requires { length used.old ≡ 256 }
    ensures { (r : ℕ) → r < 256 → slice_index_or used.new r false ≡ (is_register r home || slice_index_or used.old r false) }
{
    if let Home::Register(r) = home {
        used[r as usize] = true;
    }
}

// By the numbers of registers, whether they are homes; none is marked before.
fn mark_all(used: &mut [bool], homes: &[Home])
    requires count { length used.old ≡ 256 }
    requires none { (r : ℕ) → r < 256 → slice_index_or used.old r false ≡ false }
    ensures { (r : ℕ) → r < 256 → slice_index_or used.new r false ≡ is_used r homes.now }
{
    for i in (0..homes.len()).rev() {
        mark(used, homes[i]);
    }
}

fn push_if(registers: &mut Vec<u8>, is_used: bool, r: u8) -> Result<(), AllocError>
    ensures { OnOk result (registers.new.items ≡ registers.old.items ++ cond is_used (r ∷ []) []) }
{
    if is_used {
        registers.push(r)?;
    }
    Ok(())
}

// Those of the registers that are marked.
fn push_used(
    registers: &mut Vec<u8>,
    used: &[bool],
    kept: &[u8],
    _homes: &[Home],
) -> Result<(), AllocError>
    requires count { length used.now ≡ 256 }
    requires marked { (r : ℕ) → r < 256 → slice_index_or used.now r false ≡ is_used r _homes.now }
    ensures { OnOk result (registers.new.items ≡ registers.old.items ++ used_of kept.now _homes.now) }
{
    for i in 0..kept.len() {
        let r = kept[i];
        push_if(registers, used[r as usize], r)?;
    }
    Ok(())
}

fn saved_by(alloc: Global, homes: &[Home]) -> Result<Items<u8>, AllocError>
    ensures { IfOk result (λ registers. registers ≡ 1 ∷ used_of kept_registers homes.now) }
{
    let mut used = [false; 256];
    mark_all(&mut used, homes);
    let mut registers = Vec::new(alloc);
    registers.push(RA)?;
    push_used(&mut registers, &used, &KEPT, homes)?;
    Ok(Items::from_vec(registers))
}

impl<'a> Frame<'a> {
    /// The frame of a procedure with these homes. More than 2^32 words that are passed are want of memory.
    pub fn of(alloc: Global, f: &BlockProc, homes: &'a [Home]) -> Result<Frame<'a>, AllocError>
        ensures { IfOk result (λ l. l ≡ layout_of f.now homes.now) }
    {
        let words = words_of_blocks(f.blocks.as_slice())?;
        let size = size_with(f, words);
        let saved = saved_by(alloc, homes)?;
        Ok(Frame {
            homes,
            words,
            size,
            saved,
        })
    }

    /// The home of a value.
    pub fn home(&self, x: u32) -> Home
        ensures { result ≡ home_of self.now x }
    {
        match self.homes.get(x as usize) {
            Some(home) => *home,
            None => Home::Slot(0),
        }
    }

    /// Where the slot of this number lies.
    pub fn slot(&self, k: u32) -> u64
        ensures { result ≡ slot_at self.now k }
    {
        8 * self.words as u64 + 104 + 8 * k as u64
    }

    /// Where a register is saved.
    pub fn save(&self, register: u8) -> u64
        ensures { result ≡ save_at self.now register }
    {
        let number = if register < 8 {
            0
        } else if register < 18 {
            register as u64 - 7
        } else {
            register as u64 - 15
        };
        8 * self.words as u64 + 8 * number
    }

    /// The registers that are saved.
    pub fn saved(&self) -> &[u8]
        ensures { result.now ≡ saved_of self.now }
    {
        self.saved.as_slice()
    }

    /// The bytes of the frame.
    pub fn size(&self) -> u64
        ensures { result ≡ self.now.size }
    {
        self.size
    }
}
