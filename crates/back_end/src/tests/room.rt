//! A test by which the frames of a program have room.

ghost use Rattle.std.specs.Prelude.{◌≡◌, ◌==◌, true};
ghost use Rattle.std.specs.List.{list_all};
ghost use Rattle.emitted_code.specs.Frames.{words_of, most_words, words_of_blocks, need};
ghost use Rattle.emitted_code.specs.Room.{HasRoom};
ghost use Rattle.back_end.specs.Suffices.{has_frame, is_no_call, names_other, aims_elsewhere, each_insn, is_small, has_place, all_placed, is_entry_alone, suffices};

use flat_ir::{Fix, Target};
use flatten::{Block, BlockInsn, BlockProc, BlockProgram};

fn words_of(insn: &BlockInsn) -> usize
    ensures { result ≡ words_of insn.now }
{
    match insn {
        BlockInsn::Call(_, _, ys) => ys.len().saturating_sub(8),
        BlockInsn::CallAt(_, _, ys) => ys.len().saturating_sub(8),
        _ => 0,
    }
}

fn most_words(insns: &[BlockInsn]) -> usize
    ensures { result ≡ most_words insns.now }
{
    let mut most = 0;
    for i in (0..insns.len()).rev() {
        most = words_of(&insns[i]).max(most);
    }
    most
}

fn words_of_blocks(blocks: &[Block]) -> usize
    ensures { result ≡ words_of_blocks blocks.now }
{
    let mut most = 0;
    for i in (0..blocks.len()).rev() {
        most = most_words(blocks[i].insns.as_slice()).max(most);
    }
    most
}

fn need(f: &BlockProc) -> u128
    ensures { result ≡ need f.now }
{
    let words = words_of_blocks(f.blocks.as_slice());
    8 * (f.values as u128 + words as u128) + 112
}

fn has_frame(f: &BlockProc) -> bool
    ensures { result ≡ has_frame f.now }
{
    let frame = f.frame as u128;
    f.frame % 16 == 0 && need(f) <= frame && frame < 1 << 64
}

fn is_no_call(insn: &BlockInsn) -> bool
    ensures { result ≡ is_no_call insn.now }
{
    match insn {
        BlockInsn::Call(_, _, _) => false,
        BlockInsn::CallAt(_, _, _) => false,
        _ => true,
    }
}

fn names_other(e: u32, insn: &BlockInsn) -> bool
    ensures { result ≡ names_other e insn.now }
{
    match insn {
        BlockInsn::Call(_, p, _) => *p != e,
        BlockInsn::ProcAddress(_, p) => *p != e,
        _ => true,
    }
}

fn block_calls_nothing(b: &Block) -> bool
    ensures { result ≡ list_all is_no_call b.now.insns }
{
    b.insns.as_slice().iter().all(|i| is_no_call(i))
}

fn calls_nothing(f: &BlockProc) -> bool
    ensures { result ≡ each_insn is_no_call f.now }
{
    f.blocks.as_slice().iter().all(|b| block_calls_nothing(b))
}

fn block_names_other(e: u32, b: &Block) -> bool
    ensures { result ≡ list_all (names_other e) b.now.insns }
{
    b.insns.as_slice().iter().all(|i| names_other(e, i))
}

fn proc_names_other(e: u32, f: &BlockProc) -> bool
    ensures { result ≡ each_insn (names_other e) f.now }
{
    f.blocks.as_slice().iter().all(|b| block_names_other(e, b))
}

fn aims_elsewhere(e: u32, fix: &Fix) -> bool
    ensures { result ≡ aims_elsewhere e fix.now.target }
{
    match fix.target {
        Target::Proc(p) => p != e,
        Target::Image(_) => true,
    }
}

fn all_name_other(e: u32, procs: &[BlockProc]) -> bool
    ensures { result ≡ list_all (each_insn (names_other e)) procs.now }
{
    procs.iter().all(|f| proc_names_other(e, f))
}

fn all_aim_elsewhere(e: u32, fixes: &[Fix]) -> bool
    ensures { result ≡ list_all (λ fix. aims_elsewhere e fix.target) fixes.now }
{
    fixes.iter().all(|fix| aims_elsewhere(e, fix))
}

fn is_entry_alone(q: &BlockProgram) -> bool
    ensures { result ≡ is_entry_alone q.now }
{
    all_name_other(q.entry, q.procs.as_slice()) && all_aim_elsewhere(q.entry, q.fixes.as_slice())
}

fn is_small(is_entry: bool, f: &BlockProc) -> bool
    ensures { result ≡ is_small is_entry f.now }
{
    need(f) <= 4096 && (is_entry || calls_nothing(f))
}

fn has_place(is_entry: bool, f: &BlockProc) -> bool
    ensures { result ≡ has_place is_entry f.now }
{
    if f.frame != 0 {
        has_frame(f)
    } else {
        is_small(is_entry, f)
    }
}

fn all_placed(e: u32, procs: &[BlockProc]) -> bool
    ensures { result ≡ all_placed e 0 procs.now }
{
    let mut all = true;
    for p in (0..procs.len()).rev() {
        all = has_place(p == e as usize, &procs[p]) && all;
    }
    all
}

fn suffices(q: &BlockProgram) -> bool
    ensures { result ≡ suffices q.now }
{
    all_placed(q.entry, q.procs.as_slice()) && is_entry_alone(q)
}

/// Whether the frames of a program have room by a test that suffices.
pub fn has_room(q: &BlockProgram) -> bool
    ensures { result ≡ true → HasRoom q.now }
{
    suffices(q)
}
