ghost use Rattle.std.specs.Prelude.{◌≡◌};
ghost use Rattle.storage_model.specs.Storage.{Good, IsHome, cell_at};
ghost use Rattle.storage_model.specs.Chain.{cell_under};
ghost use Rattle.storage_model.specs.Access.{peeked, peek_at, by_offset};
ghost use Rattle.storage_model.specs.Model.{model};

use crate::access::start_of;
use crate::cell::{Cell, Place, Spot, View};
use crate::storage::Storage;

impl Storage {
    /// The cell of a home byte.
    fn cell_at(&self, home: Place) -> Cell
        ensures { result ≡ cell_at (model self.now) home }
    {
        match home.view {
            View::Home(o) => {
                if (o as usize) < self.objects.len() {
                    let object = &self.objects[o as usize];
                    if (home.offset as usize) < object.cells.len() {
                        return object.cells[home.offset as usize];
                    }
                }
                Cell::Undefined
            }
            View::Loan(_) => Cell::Undefined,
        }
    }

    /// The cell under a byte of a live view.
    pub(crate) fn cell_under(&self, at: Place) -> Cell
        requires { Good (model self.now) at }
        ensures { result ≡ cell_under (model self.now) at }
    {
        self.cell_at(self.walk(at, 1).home)
    }

    /// The cell of the home byte under a place, undefined in a descriptor object. It is none exactly where the view isn't live or the offset is
    /// outside it, and no mark is set.
    pub fn peek(&self, at: Spot) -> Option<Cell>
        ensures { result ≡ peeked (model self.now) at }
    {
        self.peek_in(at.view, at.offset)
    }

    fn peek_in(&self, view: View, offset: i64) -> Option<Cell>
        ensures { result ≡ by_offset (λ k. peek_at (model self.now) view k) None offset }
    {
        match start_of(offset) {
            None => None,
            Some(start) => {
                if self.is_live(view) && start < self.size_of(view) {
                    Some(self.cell_under(Place {
                        view,
                        offset: start,
                    }))
                } else {
                    None
                }
            }
        }
    }
}
