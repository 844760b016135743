//! Which blocks are reached from the start of a procedure.

ghost use Rattle.std.specs.Prelude.{◌≡◌, ℕ, ◌<◌, ◌∷◌, ◌++◌, [], true, false, cond, length, slice_index_or, slice_set, IfOk, OnOk};
ghost use Rattle.flatten.specs.Named.{AllBelow};
ghost use Rattle.flatten.specs.Paths.{goes_to};
ghost use Rattle.block_homes.specs.Valid.{IsNamed};
ghost use Rattle.reg_alloc.specs.Trace.{Reach, entered, entering};

use flatten::{BlockEnd, BlockProc};
use std::alloc::{AllocError, Global};

// A block that wasn't reached before is put on the stack.
fn enter(reached: &mut Vec<bool>, stack: &mut Vec<u32>, t: u32) -> Result<(), AllocError>
    requires { t < length reached.old.items }
    ensures reached { OnOk result (reached.new.items ≡ slice_set reached.old.items t true) }
    ensures stack { OnOk result (stack.new.items ≡ cond (slice_index_or reached.old.items t false) stack.old.items (stack.old.items ++ t ∷ [])) }
{
    let is_known = reached[t as usize];
    reached[t as usize] = true;
    if !is_known {
        stack.push(t)?;
    }
    Ok(())
}

// Enters each block that the end goes on to.
#[tactic(auto, unfolding(crate::specs::Trace::entered, crate::specs::Trace::entering))]
fn enter_all(
    reached: &mut Vec<bool>,
    stack: &mut Vec<u32>,
    end: &BlockEnd,
) -> Result<(), AllocError>
    requires { AllBelow (length reached.old.items) (goes_to end.now) }
    ensures reached { OnOk result (reached.new.items ≡ entered (goes_to end.now) reached.old.items) }
    ensures stack { OnOk result (stack.new.items ≡ entering (goes_to end.now) reached.old.items stack.old.items) }
{
    match end {
        BlockEnd::Jump(t) => {
            enter(reached, stack, *t)?;
        }
        BlockEnd::Branch(_, t, u) => {
            enter(reached, stack, *t)?;
            enter(reached, stack, *u)?;
        }
        BlockEnd::Return(_) => {}
        BlockEnd::Stop(_) => {}
        BlockEnd::Limit(_) => {}
    }
    Ok(())
}

fn none_reached(alloc: Global, len: usize) -> Result<Vec<bool>, AllocError>
    ensures len { IfOk result (λ v. length v.items ≡ len) }
    ensures none { IfOk result (λ v. (c : ℕ) → c < len → slice_index_or v.items c false ≡ false) }
{
    let mut items = Vec::with_capacity(alloc, len)?;
    for _ in 0..len {
        items.push(false)?;
    }
    Ok(items)
}

/// Of each block whether a path leads to it.
pub fn reached_of(alloc: Global, p: &BlockProc) -> Result<Vec<bool>, AllocError>
    requires some { 0 < length p.now.blocks }
    requires named { IsNamed p.now }
    ensures { IfOk result (λ reached. Reach p.now reached.items) }
{
    let blocks = p.blocks.as_slice();
    let mut reached = none_reached(alloc, blocks.len())?;
    reached[0] = true;
    let mut stack = Vec::new(alloc);
    stack.push(0u32)?;
    while let Some(b) = stack.pop() {
        let block = &blocks[b as usize];
        enter_all(&mut reached, &mut stack, &block.end)?;
    }
    Ok(reached)
}
