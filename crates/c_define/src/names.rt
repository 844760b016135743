//! Names and their numbers.

ghost use Rattle.std.specs.Prelude.{◌≡◌, ◌<◌, ◌++◌, [], ◌∷◌, Some, None, length, IfOk, IfSome, OnOk, OnErr, slice_index_or};
ghost use Rattle.c_define.specs.Numbers.{number_of};

use indexmap::IndexSet;
use std::alloc::{AllocError, Global};
use std::marker::Model;

/// Names in the order in which they were met first. The number of a name is its index.
#[derive(Drop)]
pub struct Names {
    names: IndexSet<Vec<u8>>,
}

impl Model for Names {
    ghost use Rattle.std.specs.Prelude.{ℕ, List, map};

    ghost Value = { List (List ℕ) };

    ghost view = { λ n. map (λ v. v.items) n.names.keys };
}

impl Names {
    pub fn new(alloc: Global) -> Names
        ensures { result ≡ [] }
    {
        Names {
            names: IndexSet::new(alloc),
        }
    }

    /// The number of a name, if it was met.
    pub fn find(&self, name: &[u8]) -> Option<usize>
        ensures { result ≡ number_of self.now name.now }
    {
        self.names.get_index_of(name)
    }

    /// Adds a name that wasn't met, and gives its number.
    pub fn add(&mut self, name: Vec<u8>) -> Result<usize, AllocError>
        requires { number_of self.old name.items ≡ None }
        ensures ok { OnOk result (self.new ≡ self.old ++ name.items ∷ []) }
        ensures number { IfOk result (λ n. n ≡ length self.old) }
        ensures err { OnErr result (self.new ≡ self.old) }
    {
        let number = self.names.len();
        self.names.insert_full(name)?;
        Ok(number)
    }

    /// The name with this number.
    pub fn name(&self, number: usize) -> &[u8]
        ensures { result.now ≡ slice_index_or self.now number [] }
    {
        match self.names.get_index(number) {
            None => &[],
            Some(name) => name.as_slice(),
        }
    }
}
