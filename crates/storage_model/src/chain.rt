ghost use Rattle.std.specs.Prelude.{◌≡◌, ◌&&◌, length, IfSome, ℕ, ◌+◌, ◌<◌, ltb};
ghost use Rattle.std.specs.List.{list_all};
ghost use Rattle.storage_model.specs.Storage.{Good, IsHome, can_write};
ghost use Rattle.storage_model.specs.Chain.{home_of, chain_of, aligned_to, may_write, not_read, is_multiple, passes, same_place};
ghost use Rattle.storage_model.specs.Model.{model};

use crate::cell::{Place, View};
use crate::storage::Storage;

/// What is asked of the views of a chain.
#[derive(Clone, Copy)]
pub(crate) struct Walk {
    /// The home byte at its end.
    pub home: Place,
    /// Each offset is a multiple of the alignment.
    pub aligned: bool,
    /// No view is read-only.
    pub writable: bool,
    /// No byte of a loan was read beside it.
    pub unread: bool,
}

/// Both hold.
pub(crate) fn both(a: bool, b: bool) -> bool
    ensures { result ≡ a && b }
{
    a && b
}

fn is_multiple(align: u64, offset: u64) -> bool
    ensures { result ≡ is_multiple align offset }
{
    if align == 0 {
        offset == 0
    } else {
        offset % align == 0
    }
}

impl Place {
    /// Whether they are one byte.
    pub(crate) fn is(self, other: Place) -> bool
        ensures { result ≡ same_place self other }
    {
        self.view.is(other.view) && self.offset == other.offset
    }
}

impl Storage {
    /// Whether the home of an object may be written.
    fn may_write_home(&self, at: Place) -> bool
        requires { IsHome at.view }
        ensures { result ≡ may_write (model self.now) at }
    {
        match at.view {
            View::Home(o) => {
                if (o as usize) < self.objects.len() {
                    self.objects[o as usize].kind.can_write()
                } else {
                    true
                }
            }
            View::Loan(_) => unreachable!(),
        }
    }

    /// Goes down the chain of a byte of a live view.
    pub(crate) fn walk(&self, from: Place, align: u64) -> Walk
        requires { Good (model self.now) from }
        ensures home { result.home ≡ home_of (model self.now) from }
        ensures aligned { result.aligned ≡ list_all (aligned_to align) (chain_of (model self.now) from) }
        ensures writable { result.writable ≡ list_all (may_write (model self.now)) (chain_of (model self.now) from) }
        ensures unread { result.unread ≡ list_all (not_read (model self.now)) (chain_of (model self.now) from) }
    {
        let mut at = from;
        let mut aligned = true;
        let mut writable = true;
        let mut unread = true;
        while let View::Loan(l) = at.view {
            let loan = &self.loans[l as usize];
            let byte = loan.bytes[at.offset as usize];
            aligned = both(aligned, is_multiple(align, at.offset));
            writable = both(writable, loan.writable);
            unread = both(unread, !byte.read);
            at = byte.place;
        }
        Walk {
            home: at,
            aligned: both(aligned, is_multiple(align, at.offset)),
            writable: both(writable, self.may_write_home(at)),
            unread,
        }
    }

    /// Whether the byte of the loan is in the chain of a byte of a live view.
    pub(crate) fn passes(&self, from: Place, loan: u32, byte: u64) -> bool
        requires { Good (model self.now) from }
        ensures { result ≡ passes (model self.now) from loan byte }
    {
        let sought = Place {
            view: View::Loan(loan),
            offset: byte,
        };
        let mut at = from;
        while let View::Loan(l) = at.view {
            if sought.is(at) {
                return true;
            }
            at = self.loans[l as usize].bytes[at.offset as usize].place;
        }
        false
    }
}
