ghost use Rattle.std.specs.Prelude.{◌≡◌, ◌+◌, length, ℕ, IfOk};
ghost use Rattle.storage_model.specs.Storage.{Good};
ghost use Rattle.storage_model.specs.Access.{check_read, read_one, read_all, after_read, cells_from, cells_at};
ghost use Rattle.storage_model.specs.Reach.{GoodBytes};
ghost use Rattle.storage_model.specs.Answers.{Answers, IfDone, UnlessDone};
ghost use Rattle.storage_model.specs.Model.{model};

use crate::access::Reach;
use crate::cell::{Cell, Did, Place, Pointer};
use crate::storage::Storage;
use std::alloc::AllocError;

impl Storage {
    /// The bytes of loans beside a byte of a live view are marked as read.
    fn read_byte(&mut self, from: Place)
        requires { Good (model self.old) from }
        ensures { model self.new ≡ read_one (model self.old) from }
    {
        let home = self.walk(from, 1).home;
        let count = self.stack(home).len();
        for i in 0..count {
            let cover = self.stack(home)[i];
            if self.is_beside(from, home, cover) {
                self.set_read(cover.loan, cover.byte);
            }
        }
    }

    fn read_bytes(&mut self, from: Place, n: u64)
        requires { GoodBytes (model self.old) from.view from.offset n }
        ensures { model self.new ≡ read_all (model self.old) from.view from.offset n }
    {
        for x in 0..n {
            let at = Place {
                view: from.view,
                offset: from.offset + x,
            };
            self.read_byte(at);
        }
    }

    fn cells_of(&self, from: Place, n: u64) -> Result<Vec<Cell>, AllocError>
        requires { GoodBytes (model self.now) from.view from.offset n }
        ensures { IfOk result (λ v. v.items ≡ cells_from (model self.now) from.view from.offset n) }
    {
        let mut cells = Vec::new(self.alloc);
        for x in 0..n {
            let at = Place {
                view: from.view,
                offset: from.offset + x,
            };
            cells.push(self.cell_under(at))?;
        }
        Ok(cells)
    }

    /// The cells of `n` bytes from a pointer on, by a read at the alignment. The first point that is broken is the violation: V04 null, V01 a
    /// procedure, V02 a view that isn't live, V01 out of range, V05 misaligned, V21 a descriptor, V07 beside an open loan through which the byte
    /// was written (ISO/IEC 1539-1:2018 15.5.2.13). A violation, and want of memory, change nothing.
    pub fn read(&mut self, p: Pointer, n: u64, align: u64) -> Did<Vec<Cell>>
        ensures answer { Answers result (check_read (model self.old) p n align) }
        ensures done { IfDone result (λ _. model self.new ≡ after_read (model self.old) p n) }
        ensures cells { IfDone result (λ v. v.items ≡ cells_at (model self.old) p n) }
        ensures unchanged { UnlessDone result (model self.new ≡ model self.old) }
    {
        let from = match self.reach(p, n) {
            Reach::Broken(tag) => return Did::Violation(tag),
            Reach::Nothing => return Did::Done(Vec::new(self.alloc)),
            Reach::From(from) => from,
        };
        if let Some(tag) = self.broken_reading(from, n, align) {
            return Did::Violation(tag);
        }
        match self.cells_of(from, n) {
            Err(_) => Did::Memory,
            Ok(cells) => {
                self.read_bytes(from, n);
                Did::Done(cells)
            }
        }
    }
}
