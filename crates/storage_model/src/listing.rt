ghost use Rattle.std.specs.Prelude.{◌≡◌, ◌≢◌, ◌<◌, length, ℕ, true, OnOk, false, get_or};
ghost use Rattle.storage_model.specs.Storage.{Good, is_live, IsHome};
ghost use Rattle.storage_model.specs.Chain.{home_of};
ghost use Rattle.storage_model.specs.Held.{in_stack, nth_stack, stack_at};
ghost use Rattle.storage_model.specs.Listings.{KeepsTable, KeepsOthersInTable, KeepsStacks, PlacesGood, PlacesListed, KeepsOthers};
ghost use Rattle.storage_model.specs.Model.{model};

use crate::cell::{Place, View};
use crate::held::{Cover, LoanByte};
use crate::storage::Storage;
use std::alloc::{AllocError, Global};

/// Lists a byte of a loan at a byte of a table. What was listed stays.
fn push_cover(
    alloc: Global,
    table: &mut Vec<Vec<Cover>>,
    byte: u64,
    cover: Cover,
) -> Result<(), AllocError>
    ensures kept { KeepsTable table.old.items table.new.items }
    ensures listed { OnOk result (in_stack cover.loan cover.byte (nth_stack table.new.items byte) ≡ true) }
{
    while table.len() <= byte as usize {
        table.push(Vec::new(alloc))?;
    }
    table[byte as usize].push(cover)?;
    Ok(())
}

/// Takes the bytes of a loan from the end of a list. What is listed of other loans stays.
fn drop_loan(stack: &mut Vec<Cover>, loan: u32)
    ensures { (l k : ℕ) → l ≢ loan → in_stack l k stack.old.items ≡ true → in_stack l k stack.new.items ≡ true }
{
    while stack.len() > 0 && stack[stack.len() - 1].loan == loan {
        stack.pop();
    }
}

/// Takes the bytes of a loan from the end of the list at a byte of a table.
fn drop_cover(table: &mut Vec<Vec<Cover>>, byte: u64, loan: u32)
    ensures { KeepsOthersInTable table.old.items table.new.items loan }
{
    if (byte as usize) < table.len() {
        drop_loan(&mut table[byte as usize], loan);
    }
}

impl Storage {
    /// Lists a byte of a loan at a home byte.
    pub(crate) fn list_cover(&mut self, home: Place, cover: Cover) -> Result<(), AllocError>
        requires live { is_live (model self.old) home.view ≡ true }
        requires home { IsHome home.view }
        ensures model { model self.new ≡ model self.old }
        ensures kept { KeepsStacks self.old.covers.items self.new.covers.items }
        ensures listed { OnOk result (in_stack cover.loan cover.byte (stack_at self.new.covers.items home) ≡ true) }
    {
        match home.view {
            View::Home(o) => {
                let table = &mut self.covers[o as usize];
                push_cover(self.alloc, table, home.offset, cover)
            }
            View::Loan(_) => unreachable!(),
        }
    }

    /// Takes the bytes of a loan that isn't open from the list at a home byte.
    pub(crate) fn unlist(&mut self, home: Place, loan: u32)
        requires { ((model self.old).loan loan).is_open ≡ false }
        ensures { model self.new ≡ model self.old }
    {
        if let View::Home(o) = home.view {
            if (o as usize) < self.covers.len() {
                drop_cover(&mut self.covers[o as usize], home.offset, loan);
            }
        }
    }
}
