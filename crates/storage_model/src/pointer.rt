ghost use Rattle.std.specs.Prelude.{◌≡◌};
ghost use Rattle.storage_model.specs.Chain.{same_view};
ghost use Rattle.storage_model.specs.Pointers.{in_view, points_live, points_within, is_null, moved_by, equality, distance_of, object_under, may_share};
ghost use Rattle.storage_model.specs.Storage.{IsLive, by_view};
ghost use Rattle.storage_model.specs.Model.{model};

use crate::cell::{Did, Place, Pointer, View};
use crate::storage::Storage;
use jf_base::Tag;

/// Outside a view.
pub(crate) const V01: Tag = Tag(901);
/// An ended object or a closed loan.
pub(crate) const V02: Tag = Tag(902);
/// A null pointer.
pub(crate) const V04: Tag = Tag(904);
/// Pointers that can't be compared.
pub(crate) const V11: Tag = Tag(911);

impl View {
    /// Whether they are one view.
    pub(crate) fn is(self, other: View) -> bool
        ensures { result ≡ same_view self other }
    {
        match (self, other) {
            (View::Home(o), View::Home(p)) => o == p,
            (View::Home(_), View::Loan(_)) => false,
            (View::Loan(_), View::Home(_)) => false,
            (View::Loan(l), View::Loan(m)) => l == m,
        }
    }
}

impl View {
    /// The number of the object or loan.
    fn number(self) -> u32
        ensures { result ≡ by_view (λ o. o) (λ m. m) self }
    {
        match self {
            View::Home(o) => o,
            View::Loan(l) => l,
        }
    }
}

/// Whether two views over these objects may be of one object.
fn may_share(a: Option<u32>, b: Option<u32>) -> bool
    ensures { result ≡ may_share a b }
{
    match (a, b) {
        (Some(o), Some(p)) => o == p,
        _ => true,
    }
}

impl Pointer {
    fn is_null(self) -> bool
        ensures { result ≡ is_null self }
    {
        match self {
            Pointer::Null => true,
            Pointer::At { view: _, offset: _ } => false,
            Pointer::Proc {
                number: _,
                proto: _,
            } => false,
        }
    }
}

impl Storage {
    /// Whether a pointer into the view may have the offset.
    fn in_view(&self, view: View, offset: i64) -> bool
        ensures { result ≡ in_view (model self.now) view offset }
    {
        offset >= 0 && offset as u64 <= self.size_of(view)
    }

    fn points_live(&self, p: Pointer) -> bool
        ensures { result ≡ points_live (model self.now) p }
    {
        match p {
            Pointer::Null => true,
            Pointer::At { view, offset: _ } => self.is_live(view),
            Pointer::Proc {
                number: _,
                proto: _,
            } => true,
        }
    }

    fn points_within(&self, p: Pointer) -> bool
        ensures { result ≡ points_within (model self.now) p }
    {
        match p {
            Pointer::Null => true,
            Pointer::At { view, offset } => self.in_view(view, offset),
            Pointer::Proc {
                number: _,
                proto: _,
            } => true,
        }
    }

    /// The pointer moved by a number of bytes (ISO/IEC 9899:2011 6.5.6 paragraph 8).
    /// V04 of null, V01 of a procedure, V02 of what points into no live view, V01 outside the view.
    pub fn moved(&self, p: Pointer, by: i64) -> Did<Pointer>
        ensures { result ≡ moved_by (model self.now) p by }
    {
        let (view, offset) = match p {
            Pointer::Null => return Did::Violation(V04),
            Pointer::Proc {
                number: _,
                proto: _,
            } => return Did::Violation(V01),
            Pointer::At { view, offset } => (view, offset),
        };
        if !self.is_live(view) {
            return Did::Violation(V02);
        }
        if !self.in_view(view, offset) {
            return Did::Violation(V01);
        }
        match offset.checked_add(by) {
            Some(to) => {
                if self.in_view(view, to) {
                    Did::Done(Pointer::At { view, offset: to })
                } else {
                    Did::Violation(V01)
                }
            }
            None => Did::Violation(V01),
        }
    }

    /// The difference of two pointers in bytes, which is their order too (ISO/IEC 9899:2011 6.5.6 paragraph 9, 6.5.8 paragraph 5).
    /// V04 of null, V02 of what points into no live view, V01 of a procedure and outside the view, V11 of different views.
    pub fn distance(&self, a: Pointer, b: Pointer) -> Did<i64>
        ensures { result ≡ distance_of (model self.now) a b }
    {
        if a.is_null() || b.is_null() {
            return Did::Violation(V04);
        }
        if !(self.points_live(a) && self.points_live(b)) {
            return Did::Violation(V02);
        }
        if !(self.points_within(a) && self.points_within(b)) {
            return Did::Violation(V01);
        }
        match (a, b) {
            (Pointer::At { view: v, offset: j }, Pointer::At { view: w, offset: k }) => {
                if v.is(w) {
                    Did::Done(j - k)
                } else {
                    Did::Violation(V11)
                }
            }
            _ => Did::Violation(V01),
        }
    }

    /// The number of the object under a live view; a loan without bytes is over none.
    fn object_under(&self, view: View) -> Option<u32>
        requires { IsLive (model self.now) view }
        ensures { result ≡ object_under (model self.now) view }
    {
        match view {
            View::Home(o) => Some(o),
            View::Loan(_) => {
                if self.size_of(view) == 0 {
                    None
                } else {
                    Some(self.walk(Place { view, offset: 0 }, 1).home.view.number())
                }
            }
        }
    }

    /// Whether two pointers are equal (ISO/IEC 9899:2011 6.5.9 paragraph 6).
    /// V02 of what points into no live view, V01 outside the view, V11 of different views that may be of one object.
    pub fn equal(&self, a: Pointer, b: Pointer) -> Did<bool>
        ensures { result ≡ equality (model self.now) a b }
    {
        if !(self.points_live(a) && self.points_live(b)) {
            return Did::Violation(V02);
        }
        if !(self.points_within(a) && self.points_within(b)) {
            return Did::Violation(V01);
        }
        match (a, b) {
            (Pointer::Null, Pointer::Null) => Did::Done(true),
            (
                Pointer::Proc {
                    number: n,
                    proto: _,
                },
                Pointer::Proc {
                    number: m,
                    proto: _,
                },
            ) => { Did::Done(n == m) }
            (Pointer::At { view: v, offset: j }, Pointer::At { view: w, offset: k }) => {
                if v.is(w) {
                    Did::Done(j == k)
                } else if may_share(self.object_under(v), self.object_under(w)) {
                    Did::Violation(V11)
                } else {
                    Did::Done(false)
                }
            }
            _ => Did::Done(false),
        }
    }
}
