ghost use Rattle.std.specs.Prelude.{◌≡◌, ◌<◌, ◌^◌};
ghost use Rattle.storage_model.specs.Storage.{is_live, is_memory, size_of, has_cells, can_write, at};
ghost use Rattle.storage_model.specs.Model.{model};

use crate::cell::{Kind, View};
use crate::storage::Storage;

impl Kind {
    /// Whether objects of this kind have cells.
    pub(crate) fn has_cells(self) -> bool
        ensures { result ≡ has_cells self }
    {
        match self {
            Kind::Plain => true,
            Kind::ReadOnly => true,
            Kind::Descriptor(_) => false,
        }
    }

    /// Whether objects of this kind may be written.
    pub(crate) fn can_write(self) -> bool
        ensures { result ≡ can_write self }
    {
        match self {
            Kind::Plain => true,
            Kind::ReadOnly => false,
            Kind::Descriptor(_) => true,
        }
    }
}

impl Storage {
    /// Whether the view is an object that is alive, or a loan that is open.
    pub(crate) fn is_live(&self, view: View) -> bool
        ensures { result ≡ is_live (model self.now) view }
    {
        match view {
            View::Home(o) => {
                if (o as usize) < self.objects.len() {
                    self.objects[o as usize].alive
                } else {
                    false
                }
            }
            View::Loan(l) => {
                if (l as usize) < self.loans.len() {
                    self.loans[l as usize].is_open
                } else {
                    false
                }
            }
        }
    }

    /// How many bytes the view has; one that was never made has none.
    pub(crate) fn size_of(&self, view: View) -> u64
        ensures value { result ≡ size_of (model self.now) view }
        ensures small { result < 2 ^ 63 }
    {
        match view {
            View::Home(o) => {
                if (o as usize) < self.objects.len() {
                    self.objects[o as usize].size
                } else {
                    0
                }
            }
            View::Loan(l) => {
                if (l as usize) < self.loans.len() {
                    self.loans[l as usize].bytes.len() as u64
                } else {
                    0
                }
            }
        }
    }

    /// Whether the view is none of a descriptor object.
    pub(crate) fn is_memory(&self, view: View) -> bool
        ensures { result ≡ is_memory (model self.now) (at view 0) }
    {
        match view {
            View::Home(o) => {
                if (o as usize) < self.objects.len() {
                    self.objects[o as usize].kind.has_cells()
                } else {
                    true
                }
            }
            View::Loan(_) => true,
        }
    }
}
