ghost use Rattle.std.specs.Prelude.{◌≡◌, ◌<◌, true};
ghost use Rattle.storage_model.specs.Storage.{has_cells};
ghost use Rattle.storage_model.specs.Marks.{cell_set, written_set, read_set};
ghost use Rattle.storage_model.specs.Model.{model};

use crate::cell::Cell;
use crate::storage::Storage;

impl Storage {
    /// The byte of the loan is marked as read beside it.
    pub(crate) fn set_read(&mut self, loan: u32, byte: u64)
        requires { byte < ((model self.old).loan loan).bytes }
        ensures marks { model self.new ≡ read_set (model self.old) loan byte }
        ensures covers { self.new.covers ≡ self.old.covers }
    {
        let held = &mut self.loans[loan as usize];
        held.bytes[byte as usize].read = true;
    }

    /// The byte of the loan is marked as written through it.
    pub(crate) fn set_written(&mut self, loan: u32, byte: u64)
        requires { byte < ((model self.old).loan loan).bytes }
        ensures marks { model self.new ≡ written_set (model self.old) loan byte }
        ensures covers { self.new.covers ≡ self.old.covers }
    {
        let held = &mut self.loans[loan as usize];
        held.bytes[byte as usize].written = true;
    }

    /// The home byte gets the cell.
    pub(crate) fn set_cell(&mut self, object: u32, byte: u64, cell: Cell)
        requires within { byte < ((model self.old).object object).size }
        requires memory { has_cells ((model self.old).object object).kind ≡ true }
        ensures cells { model self.new ≡ cell_set (model self.old) object byte cell }
        ensures covers { self.new.covers ≡ self.old.covers }
    {
        let held = &mut self.objects[object as usize];
        held.cells[byte as usize] = cell;
    }
}
