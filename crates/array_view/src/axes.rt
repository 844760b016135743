ghost use Rattle.std.specs.Prelude.{◌≡◌, ◌<◌, ◌≤◌, [], ◌∷◌, ◌++◌, length};
ghost use Rattle.std.specs.Cmp.Lexicographic.{pointwise, lists_per};
ghost use Rattle.array_view.specs.contracts.axes.AxisDimPartialEq.TheImpl.Laws.{laws-law};

use smallvec::SmallVec;
use std::alloc::Global;
use std::marker::Model;

/// A dimension of an array: its lower bound, its extent, and the bytes from one element of it to the next.
///
/// The extent -1 of a last dimension is that of an assumed-size array, which has no upper bound there.
#[derive(Clone, Copy, PartialEq, Eq, Debug, Default)]
pub struct AxisDim {
    pub lower: i64,
    pub extent: i64,
    pub sm: i64,
}

/// A list of at most 15 dimensions, which takes no memory.
#[derive(Drop)]
pub struct Axes(pub SmallVec<AxisDim, 15, Global>);

impl Model for Axes {
    ghost use Rattle.std.specs.Prelude.{List, length, ◌≤◌, ◌≡◌};
    ghost use Rattle.array_view.specs.declared.axes.AxisDim.{AxisDim};

    ghost Value = { List AxisDim };

    ghost view = { λ a. a.0.items };

    ghost invariant = { λ a. (a.0.capacity ≡ 15) × (length a.0.items ≤ 15) };
}

impl Axes {
    pub fn new(alloc: Global) -> Axes
        ensures { result ≡ [] }
    {
        Axes(SmallVec::new(alloc))
    }

    pub fn push(&mut self, dim: AxisDim)
        requires { length self.old < 15 }
        ensures { self.new ≡ self.old ++ dim ∷ [] }
    {
        self.0.push_reserved(dim);
    }

    pub fn as_slice(&self) -> &[AxisDim]
        ensures { result.now ≡ self.now }
    {
        self.0.as_slice()
    }

    pub fn len(&self) -> usize
        ensures { result ≡ length self.now }
    {
        self.0.len()
    }

    /// A copy, which takes no memory.
    pub fn copied(&self) -> Axes
        ensures { result ≡ self.now }
    {
        let alloc = *self.0.allocator();
        let copy = SmallVec::from_slice(alloc, self.0.as_slice()).unwrap();
        Axes(copy)
    }
}

impl PartialEq for Axes {
    ghost eq = { pointwise ⟦<AxisDim as PartialEq>⟧.eq };

    ghost laws = { lists_per laws-law };

    fn eq(&self, other: &Axes) -> bool {
        self.0.as_slice() == other.0.as_slice()
    }
}
