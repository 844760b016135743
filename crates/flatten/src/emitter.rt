//! Blocks that are written from the last to the first.

ghost use Rattle.std.specs.Prelude.{◌≡◌, ◌-◌, ◌∷◌, [], slice_index, IfOk, OnOk};
ghost use Rattle.flatten.specs.Code.{before, only};
ghost use Rattle.flatten.specs.Emission.{Emission, changed, finished, turning, looping};
ghost use Rattle.flatten.specs.declared.blocks.BlockEnd.TheVariants as E;

use crate::blocks::{Block, BlockEnd, BlockInsn};
use crate::stack::Stack;
use jf_base::List;
use std::alloc::{AllocError, Global};
use std::marker::Model;
use std::mem;

/// The blocks of a procedure as far as they are written: one that is being written, and finished ones behind it.
#[derive(Drop)]
pub struct Emitter {
    alloc: Global,
    // the first spare value
    spare: u32,
    // the current block, whose instructions lie from the last to the first
    insns: Vec<BlockInsn>,
    end: BlockEnd,
    // the finished blocks, from the last to the first, and the number of the first
    blocks: Vec<Block>,
    at: u32,
    // of each loop that is still to be written how many blocks its body has beside its first one, the last loop first
    turns: Stack,
    // the numbers of the blocks behind the loops around what is written, the innermost first
    exits: Stack,
}

impl Model for Emitter {
    ghost use Rattle.std.specs.Prelude.{reverse};
    ghost use Rattle.flatten.specs.Emission.{Emission};

    ghost Value = { Emission };

    ghost view = { λ e. record { spare = e.spare; current = record { insns = reverse e.insns.items; end = e.end }; others = reverse e.blocks.items; at = e.at; turns = e.turns; exits = e.exits } };
}

impl Emitter {
    /// A procedure without blocks, in front of a block that is only an end. The values from `spare` on are spare, and the blocks behind the first end before the number `at`.
    pub fn new(alloc: Global, spare: u32, at: u32, turns: Stack, end: BlockEnd) -> Emitter
        ensures { result ≡ record { spare = spare; current = only end; others = []; at = at; turns = turns; exits = [] } }
    {
        Emitter {
            alloc,
            spare,
            insns: Vec::new(alloc),
            end,
            blocks: Vec::new(alloc),
            at,
            turns,
            exits: Stack::new(alloc),
        }
    }

    /// An instruction in front of the current block.
    pub fn put(&mut self, insn: BlockInsn) -> Result<(), AllocError>
        ensures { OnOk result (self.new ≡ changed (before insn self.old.current) self.old) }
    {
        self.insns.push(insn)?;
        Ok(())
    }

    /// Drops the current block, and begins one that is only this end.
    pub fn restart(&mut self, end: BlockEnd)
        ensures { self.new ≡ changed (only end) self.old }
    {
        self.insns.clear();
        self.end = end;
    }

    /// The number that the current block gets.
    pub fn next_number(&self) -> u32
        ensures { result ≡ self.now.at - 1 }
    {
        self.at.saturating_sub(1)
    }

    /// Finishes the current block, and begins the one in front of it, which is only this end.
    pub fn finish(&mut self, end: BlockEnd) -> Result<(), AllocError>
        ensures { OnOk result (self.new ≡ finished end self.old) }
    {
        let mut insns = mem::replace(&mut self.insns, Vec::new(self.alloc));
        insns.reverse();
        let end = mem::replace(&mut self.end, end);
        self.blocks.push(Block {
            insns: List::from_vec(insns),
            end,
        })?;
        self.at = self.at.saturating_sub(1);
        Ok(())
    }

    /// Ends what is finished, the current block included, and begins a loop from its end: the block behind the loop is that which was current.
    pub fn end_loop(&mut self) -> Result<(), AllocError>
        ensures { OnOk result (self.new ≡ turning self.old) }
    {
        let join = self.next_number();
        let blocks = self.turns.pop();
        let head = join.saturating_sub(blocks).saturating_sub(1);
        self.exits.push(join)?;
        self.finish(BlockEnd::Jump(head))
    }

    /// Begins what is in front of a loop, whose turn begins with the current block.
    pub fn begin_loop(&mut self) -> Result<(), AllocError>
        ensures { OnOk result (self.new ≡ looping self.old) }
    {
        let head = self.next_number();
        self.exits.pop();
        self.finish(BlockEnd::Jump(head))
    }

    /// The number of the block behind a loop, counted from 0 at the innermost one, or 0 where there is none.
    pub fn exit(&self, k: u32) -> u32
        ensures { result ≡ slice_index self.now.exits k }
    {
        self.exits.get(k)
    }

    /// The first spare value.
    pub fn first_spare(&self) -> u32
        ensures { result ≡ self.now.spare }
    {
        self.spare
    }

    /// What gives the memory.
    pub fn allocator(&self) -> Global {
        self.alloc
    }

    /// All blocks, the current one first.
    pub fn into_blocks(self) -> Result<List<Block>, AllocError>
        ensures { IfOk result (λ blocks. blocks ≡ self.current ∷ self.others) }
    {
        let mut insns = self.insns;
        insns.reverse();
        let mut blocks = self.blocks;
        blocks.push(Block {
            insns: List::from_vec(insns),
            end: self.end,
        })?;
        blocks.reverse();
        Ok(List::from_vec(blocks))
    }
}
