ghost use Rattle.std.specs.Prelude.{◌≡◌};
ghost use Rattle.storage_model.specs.Storage.{Good, IsHome, IsLive};
ghost use Rattle.storage_model.specs.Chain.{home_of, is_open_byte, is_beside, none_beside, marks_against};
ghost use Rattle.storage_model.specs.Held.{stack_at};
ghost use Rattle.storage_model.specs.Model.{model};

use crate::cell::{Place, View};
use crate::chain::both;
use crate::held::Cover;
use crate::storage::Storage;

impl Storage {
    /// The bytes of loans that are listed at a home byte.
    pub(crate) fn stack(&self, home: Place) -> &[Cover]
        ensures { result.now ≡ stack_at self.now.covers.items home }
    {
        match home.view {
            View::Home(o) => {
                if (o as usize) < self.covers.len() {
                    let table = &self.covers[o as usize];
                    if (home.offset as usize) < table.len() {
                        table[home.offset as usize].as_slice()
                    } else {
                        &[]
                    }
                } else {
                    &[]
                }
            }
            View::Loan(_) => &[],
        }
    }

    /// Whether the mark of the loan's byte counts: any against a write, `written` against a read.
    fn is_marked(&self, read: bool, cover: Cover) -> bool
        ensures { result ≡ marks_against (model self.now) read cover.loan cover.byte }
    {
        if !read {
            return true;
        }
        if (cover.loan as usize) < self.loans.len() {
            let loan = &self.loans[cover.loan as usize];
            if (cover.byte as usize) < loan.bytes.len() {
                return loan.bytes[cover.byte as usize].written;
            }
        }
        false
    }

    /// Whether the loan is open, and has the byte.
    fn is_open_byte(&self, cover: Cover) -> bool
        ensures { result ≡ is_open_byte (model self.now) cover.loan cover.byte }
    {
        if (cover.loan as usize) < self.loans.len() {
            let loan = &self.loans[cover.loan as usize];
            both(loan.is_open, cover.byte < loan.bytes.len() as u64)
        } else {
            false
        }
    }

    /// Whether the byte of the loan is beside a byte of a live view, whose home byte is `home`.
    pub(crate) fn is_beside(&self, from: Place, home: Place, cover: Cover) -> bool
        requires good { Good (model self.now) from }
        requires home { home ≡ home_of (model self.now) from }
        ensures { result ≡ is_beside (model self.now) from cover.loan cover.byte }
    {
        if !self.is_open_byte(cover) {
            return false;
        }
        let place = Place {
            view: View::Loan(cover.loan),
            offset: cover.byte,
        };
        let over = self.walk(place, 1).home.is(home);
        let through = self.passes(from, cover.loan, cover.byte);
        both(over, !through)
    }

    /// Whether no byte of an open loan is beside a byte of a live view, whose home byte is `home`, with a mark that counts.
    pub(crate) fn none_beside(&self, read: bool, from: Place, home: Place) -> bool
        requires good { Good (model self.now) from }
        requires home { home ≡ home_of (model self.now) from }
        ensures { result ≡ none_beside (model self.now) (marks_against (model self.now) read) from }
    {
        for cover in self.stack(home) {
            let marked = self.is_marked(read, *cover);
            let beside = self.is_beside(from, home, *cover);
            if both(marked, beside) {
                return false;
            }
        }
        true
    }
}
