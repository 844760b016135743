ghost use Rattle.std.specs.Prelude.{◌≡◌, ℕ, ◌+◌, ◌<◌, Option, IfNone, true};
ghost use Rattle.std.specs.List.{list_all};
ghost use Rattle.jf_base.specs.declared.tag.Tag.{Tag as TagOf};
ghost use Rattle.storage_model.specs.declared.cell.View.{View as ViewOf};
ghost use Rattle.storage_model.specs.Storage.{at, is_memory};
ghost use Rattle.storage_model.specs.Chain.{each_below, each_byte, may_write, not_read, none_beside, marks_against};
ghost use Rattle.storage_model.specs.Access.{check_access, offset_of, check_read, check_write, read_points, write_points};
ghost use Rattle.storage_model.specs.Reach.{GoodBytes, broken_behind, Reaches, StartsAt};
ghost use Rattle.storage_model.specs.Model.{model};

use crate::cell::{Place, Pointer, View};
use crate::chain::both;
use crate::pointer::{V01, V02, V04};
use crate::storage::Storage;
use jf_base::Tag;

/// A misaligned access.
const V05: Tag = Tag(905);
/// A write to what is read-only.
const V06: Tag = Tag(906);
/// Against an open loan.
pub(crate) const V07: Tag = Tag(907);
/// Against the rules of descriptors.
pub(crate) const V21: Tag = Tag(921);

/// What stands of an access before its single bytes are looked at: no byte is asked for, the bytes from one on are those of a live view, or a
/// point is broken.
#[derive(Clone, Copy)]
pub(crate) enum Reach {
    Nothing,
    From(Place),
    Broken(Tag),
}

/// The offset, if it isn't negative.
pub(crate) fn start_of(offset: i64) -> Option<u64>
    ensures { result ≡ offset_of offset }
{
    u64::try_from(offset).ok()
}

impl Storage {
    /// The first points of an access. Each byte of an open loan stands on a live view in range, so only the pointer's own view is looked at.
    pub(crate) fn reach(&self, p: Pointer, n: u64) -> Reach
        ensures answer { (points : ViewOf → ℕ → ℕ → Option TagOf) → check_access (model self.now) points p n ≡ broken_behind result points n }
        ensures bytes { Reaches (model self.now) result n }
        ensures start { StartsAt result p n }
    {
        let (view, offset) = match p {
            Pointer::Null => return Reach::Broken(V04),
            Pointer::Proc {
                number: _,
                proto: _,
            } => return Reach::Broken(V01),
            Pointer::At { view, offset } => (view, offset),
        };
        self.reach_in(view, offset, n)
    }

    fn reach_in(&self, view: View, offset: i64, n: u64) -> Reach
        ensures answer { (points : ViewOf → ℕ → ℕ → Option TagOf) → check_access (model self.now) points (Pointer.At view offset) n ≡ broken_behind result points n }
        ensures bytes { Reaches (model self.now) result n }
        ensures start { StartsAt result (Pointer.At view offset) n }
    {
        if !self.is_live(view) {
            return Reach::Broken(V02);
        }
        if n == 0 {
            return Reach::Nothing;
        }
        match start_of(offset) {
            None => Reach::Broken(V01),
            Some(start) => {
                let size = self.size_of(view);
                if n <= size && start <= size - n {
                    Reach::From(Place {
                        view,
                        offset: start,
                    })
                } else {
                    Reach::Broken(V01)
                }
            }
        }
    }

    fn all_writable(&self, from: Place, n: u64) -> bool
        requires { GoodBytes (model self.now) from.view from.offset n }
        ensures { result ≡ each_byte (model self.now) from.view from.offset n (may_write (model self.now)) }
    {
        for x in 0..n {
            let at = Place {
                view: from.view,
                offset: from.offset + x,
            };
            if !self.walk(at, 1).writable {
                return false;
            }
        }
        true
    }

    fn all_unread(&self, from: Place, n: u64) -> bool
        requires { GoodBytes (model self.now) from.view from.offset n }
        ensures { result ≡ each_byte (model self.now) from.view from.offset n (not_read (model self.now)) }
    {
        for x in 0..n {
            let at = Place {
                view: from.view,
                offset: from.offset + x,
            };
            if !self.walk(at, 1).unread {
                return false;
            }
        }
        true
    }

    pub(crate) fn all_alone(&self, read: bool, from: Place, n: u64) -> bool
        requires { GoodBytes (model self.now) from.view from.offset n }
        ensures { result ≡ each_below (λ x. none_beside (model self.now) (marks_against (model self.now) read) (at from.view (from.offset + x))) n }
    {
        for x in 0..n {
            let at = Place {
                view: from.view,
                offset: from.offset + x,
            };
            let home = self.walk(at, 1).home;
            if !self.none_beside(read, at, home) {
                return false;
            }
        }
        true
    }

    /// The further points of a read of bytes of a live view.
    pub(crate) fn broken_reading(&self, from: Place, n: u64, align: u64) -> Option<Tag>
        requires { GoodBytes (model self.now) from.view from.offset n }
        ensures { result ≡ read_points (model self.now) align from.view from.offset n }
    {
        if !self.walk(from, align).aligned {
            return Some(V05);
        }
        if !self.is_memory(from.view) {
            return Some(V21);
        }
        if !self.all_alone(true, from, n) {
            return Some(V07);
        }
        None
    }

    /// The further points of a write to bytes of a live view.
    pub(crate) fn broken_writing(&self, from: Place, n: u64, align: u64) -> Option<Tag>
        requires { GoodBytes (model self.now) from.view from.offset n }
        ensures answer { result ≡ write_points (model self.now) align from.view from.offset n }
        ensures memory { IfNone result (is_memory (model self.now) from ≡ true) }
    {
        if !self.walk(from, align).aligned {
            return Some(V05);
        }
        if !self.all_writable(from, n) {
            return Some(V06);
        }
        if !self.is_memory(from.view) {
            return Some(V21);
        }
        let alone = self.all_alone(false, from, n);
        let unread = self.all_unread(from, n);
        if !both(alone, unread) {
            return Some(V07);
        }
        None
    }
}
