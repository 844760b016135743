ghost use Rattle.std.specs.Prelude.{◌≡◌, ◌≤◌, ◌<◌, ◌^◌, [], length, IfOk, OnOk, OnErr, true, false, if◌then◌else◌, get_or, ℕ};
ghost use Rattle.storage_model.specs.declared.cell.Cell.TheVariants.{Undefined};
ghost use Rattle.storage_model.specs.Storage.{has_cells, is_live, at};
ghost use Rattle.storage_model.specs.Chain.{each_below, none_beside, any_mark};
ghost use Rattle.storage_model.specs.Held.{object_of, cell_count};
ghost use Rattle.storage_model.specs.Reach.{IsUncovered};
ghost use Rattle.storage_model.specs.Ends.{new_object, make_one, check_end, end_one};
ghost use Rattle.storage_model.specs.Answers.{Answers, IfDone, UnlessDone, WantsNothing};
ghost use Rattle.storage_model.specs.Model.{model};

use crate::access::V07;
use crate::cell::{Cell, Did, Kind, Place, View};
use crate::held::HeldObject;
use crate::pointer::V02;
use crate::storage::Storage;
use jf_base::Memory;
use std::alloc::{AllocError, Global};

/// The largest size of an object: each offset in it is an `i64`.
const LARGEST: u64 = 9_223_372_036_854_775_807;

/// `size` cells that begin with those of `first` and are undefined behind them.
fn filled(alloc: Global, size: u64, first: &[Cell]) -> Result<Vec<Cell>, AllocError>
    requires { length first.now ≤ size }
    ensures length { IfOk result (λ v. length v.items ≡ size) }
    ensures cells { IfOk result (λ v. (i : ℕ) → get_or v.items i Undefined ≡ get_or first.now i Undefined) }
{
    let mut cells = Vec::with_capacity(alloc, size as usize)?;
    cells.extend_from_slice(first)?;
    while (cells.len() as u64) < size {
        cells.push(Cell::Undefined)?;
    }
    Ok(cells)
}

/// The cells of a new object.
fn cells_for(alloc: Global, size: u64, kind: Kind, first: &[Cell]) -> Result<Vec<Cell>, AllocError>
    requires fits { length first.now ≤ size }
    requires described { has_cells kind ≡ false → first.now ≡ [] }
    ensures length { IfOk result (λ v. length v.items ≡ (if has_cells kind then size else 0)) }
    ensures cells { IfOk result (λ v. (i : ℕ) → get_or v.items i Undefined ≡ get_or first.now i Undefined) }
{
    if kind.has_cells() {
        filled(alloc, size, first)
    } else {
        Ok(Vec::new(alloc))
    }
}

impl Storage {
    /// One more object.
    fn add_object(&mut self, object: HeldObject) -> Result<(), AllocError>
        requires alive { object.alive ≡ true }
        requires sized { length object.cells.items ≡ cell_count object }
        requires small { object.size < 2 ^ 63 }
        ensures made { OnOk result (model self.new ≡ make_one (model self.old) (object_of object)) }
        ensures unchanged { OnErr result (model self.new ≡ model self.old) }
    {
        self.covers.push(Vec::new(self.alloc))?;
        self.objects.push(object)?;
        Ok(())
    }

    /// The number of a new object, whose first bytes have the cells of `first`, and whose other bytes are undefined. Want of memory changes nothing;
    /// sizes from 2^63 on, and numbers from 2^32 on, are never to be had.
    pub fn make(&mut self, size: u64, kind: Kind, first: &[Cell]) -> Result<u32, Memory>
        requires fits { length first.now ≤ size }
        requires described { has_cells kind ≡ false → first.now ≡ [] }
        ensures number { IfOk result (λ o. o ≡ (model self.old).made) }
        ensures made { IfOk result (λ o. model self.new ≡ make_one (model self.old) (new_object size kind first.now)) }
        ensures unchanged { OnErr result (model self.new ≡ model self.old) }
    {
        let number = self.objects.len();
        if number > u32::MAX as usize || size > LARGEST {
            return Err(Memory);
        }
        let cells = cells_for(self.alloc, size, kind, first)?;
        self.add_object(HeldObject {
            size,
            alive: true,
            kind,
            cells,
        })?;
        Ok(number as u32)
    }

    /// The object is no longer alive.
    fn set_ended(&mut self, object: u32)
        requires live { is_live (model self.old) (View.Home object) ≡ true }
        requires alone { IsUncovered (model self.old) object }
        ensures { model self.new ≡ end_one (model self.old) object }
    {
        let held = &mut self.objects[object as usize];
        held.alive = false;
    }

    /// Whether no open loan covers a byte of the live object.
    fn is_alone(&self, object: u32) -> bool
        requires { is_live (model self.now) (View.Home object) ≡ true }
        ensures { result ≡ each_below (λ i. none_beside (model self.now) any_mark (at (View.Home object) i)) ((model self.now).object object).size }
    {
        let view = View::Home(object);
        let size = self.size_of(view);
        size == 0 || self.all_alone(false, Place { view, offset: 0 }, size)
    }

    /// Ends an object. What isn't alive is V02, and an object of which an open loan covers a byte is V07. A violation changes nothing.
    pub fn end(&mut self, object: u32) -> Did<()>
        ensures answer { Answers result (check_end (model self.old) object) }
        ensures memory { WantsNothing result }
        ensures done { IfDone result (λ _. model self.new ≡ end_one (model self.old) object) }
        ensures unchanged { UnlessDone result (model self.new ≡ model self.old) }
    {
        if !self.is_live(View::Home(object)) {
            return Did::Violation(V02);
        }
        if !self.is_alone(object) {
            return Did::Violation(V07);
        }
        self.set_ended(object);
        Did::Done(())
    }
}
