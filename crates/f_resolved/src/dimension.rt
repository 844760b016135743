//! Array specifications.

ghost use Rattle.std.specs.Prelude.{◌≡◌, ◌<◌, [], ◌∷◌, ◌++◌, length};

use crate::expression::Expression;
use jf_base::Boxed;
use smallvec::SmallVec;
use std::alloc::Global;
use std::marker::Model;

/// A bound of a dimension (ISO/IEC 1539-1:2018, 8.5.8.2).
#[derive(Drop)]
pub enum Bound {
    Constant(i64),
    /// A specification expression, which is evaluated at each entry.
    Computed(Boxed<Expression>),
}

/// A dimension of an array (ISO/IEC 1539-1:2018, 8.5.8). A lower bound that isn't said is the constant 1.
#[derive(Default, Drop)]
pub enum Dimension {
    Explicit { lower: Bound, upper: Bound },
    /// That of a dummy argument which is neither ALLOCATABLE nor POINTER.
    AssumedShape { lower: Bound },
    /// That of an ALLOCATABLE or a POINTER.
    #[default]
    Deferred,
    /// `*` of a dummy argument.
    AssumedSize { lower: Bound },
}

/// A list of at most 15 dimensions, which takes no memory.
#[derive(Drop)]
pub struct Dimensions(SmallVec<Dimension, 15, Global>);

impl Model for Dimensions {
    ghost use Rattle.std.specs.Prelude.{List, length, ◌≤◌, ◌≡◌};
    ghost use Rattle.std.specs.Coded.{codes};
    ghost use Rattle.f_resolved.specs.declared.dimension.Dimension.{Dimension};
    ghost use Rattle.f_resolved.specs.contracts.expression.Form as form;

    ghost Value = { List Dimension };

    ghost coded = { Prim.hlevel (codes, form.the_row.coded) };

    ghost view = { λ d. d.0.items };

    ghost invariant = { λ d. (d.0.capacity ≡ 15) × (length d.0.items ≤ 15) };
}

impl Dimensions {
    pub fn new(alloc: Global) -> Dimensions
        ensures { result ≡ [] }
    {
        Dimensions(SmallVec::new(alloc))
    }

    pub fn push(&mut self, dimension: Dimension)
        requires { length self.old < 15 }
        ensures { self.new ≡ self.old ++ dimension ∷ [] }
    {
        self.0.push_reserved(dimension);
    }

    pub fn as_slice(&self) -> &[Dimension]
        ensures { result.now ≡ self.now }
    {
        self.0.as_slice()
    }

    pub fn len(&self) -> usize
        ensures { result ≡ length self.now }
    {
        self.0.len()
    }
}

/// The array specification of an entity (ISO/IEC 1539-1:2018, 8.5.8), and how many tokens stand between its parentheses.
#[derive(Drop)]
pub struct ArraySpecification {
    pub dimensions: Dimensions,
    pub tokens: u32,
}

/// Whether an entity is a scalar or an array (ISO/IEC 1539-1:2018, 8.5.8).
#[derive(Drop)]
pub enum Shape {
    Scalar,
    Array(Boxed<ArraySpecification>),
    /// `..`
    AssumedRank,
}
