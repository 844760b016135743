ghost use Rattle.std.specs.Prelude.{◌≡◌, ◌+◌, true, length, ℕ};
ghost use Rattle.storage_model.specs.Storage.{Good, is_memory};
ghost use Rattle.storage_model.specs.Access.{check_write, write_one, write_all, after_write};
ghost use Rattle.storage_model.specs.Reach.{GoodBytes};
ghost use Rattle.storage_model.specs.Answers.{Answers, IfDone, UnlessDone, WantsNothing};
ghost use Rattle.storage_model.specs.Model.{model};

use crate::access::Reach;
use crate::cell::{Cell, Did, Place, Pointer, View};
use crate::storage::Storage;

impl Storage {
    /// A cell is put at the home byte under a byte of a live view, and each loan above it is marked.
    fn write_byte(&mut self, to: Place, cell: Cell)
        requires good { Good (model self.old) to }
        requires memory { is_memory (model self.old) to ≡ true }
        ensures { model self.new ≡ write_one (model self.old) to cell }
    {
        let mut q = to;
        while let View::Loan(l) = q.view {
            let place = self.loans[l as usize].bytes[q.offset as usize].place;
            self.set_written(l, q.offset);
            q = place;
        }
        if let View::Home(o) = q.view {
            self.set_cell(o, q.offset, cell);
        }
    }

    fn write_bytes(&mut self, from: Place, cells: &[Cell])
        requires bytes { GoodBytes (model self.old) from.view from.offset (length cells.now) }
        requires memory { is_memory (model self.old) from ≡ true }
        ensures { model self.new ≡ write_all (model self.old) from.view from.offset cells.now }
    {
        for i in 0..cells.len() {
            let to = Place {
                view: from.view,
                offset: from.offset + i as u64,
            };
            self.write_byte(to, cells[i]);
        }
    }

    /// The cells are put at the bytes from a pointer on, by a write at the alignment. The first point that is broken is the violation: V04 null,
    /// V01 a procedure, V02 a view that isn't live, V01 out of range, V05 misaligned, V06 read-only, V21 a descriptor, V07 against an open loan
    /// (ISO/IEC 1539-1:2018 15.5.2.13). A violation changes nothing, and no memory is taken.
    pub fn write(&mut self, p: Pointer, align: u64, cells: &[Cell]) -> Did<()>
        ensures answer { Answers result (check_write (model self.old) p (length cells.now) align) }
        ensures memory { WantsNothing result }
        ensures done { IfDone result (λ _. model self.new ≡ after_write (model self.old) p cells.now) }
        ensures unchanged { UnlessDone result (model self.new ≡ model self.old) }
    {
        let n = cells.len() as u64;
        let from = match self.reach(p, n) {
            Reach::Broken(tag) => return Did::Violation(tag),
            Reach::Nothing => return Did::Done(()),
            Reach::From(from) => from,
        };
        match self.broken_writing(from, n, align) {
            Some(tag) => Did::Violation(tag),
            None => {
                self.write_bytes(from, cells);
                Did::Done(())
            }
        }
    }
}
