//! Names and their numbers.

ghost use Rattle.std.specs.Prelude.{◌≡◌, ◌<◌, ◌^◌, [], ◌∷◌, ◌++◌, false, length, IfOk, OnOk};
ghost use Rattle.c_words.specs.Words.{index_of};
ghost use Rattle.c_words.specs.Making.{is_among, met};

use indexmap::IndexSet;
use jf_base::List;
use std::alloc::{AllocError, Global};
use std::marker::Model;

/// Names in the order in which they were met first. The number of a name is its index.
#[derive(Drop)]
pub struct Names {
    names: IndexSet<Vec<u8>>,
}

impl Model for Names {
    ghost use Rattle.std.specs.Prelude.{ℕ, List, map};

    ghost Value = { List (List ℕ) };

    ghost view = { λ n. map (λ v. v.items) n.names.keys };
}

impl Names {
    /// No name.
    pub fn new(alloc: Global) -> Names
        ensures { result ≡ [] }
    {
        Names {
            names: IndexSet::new(alloc),
        }
    }

    // Adds a name that wasn't met, and gives its number.
    fn add(&mut self, alloc: Global, name: &[u8]) -> Result<u32, AllocError>
        requires absent { is_among self.old name.now ≡ false }
        requires few { length self.old < 2 ^ 32 }
        ensures names { OnOk result (self.new ≡ self.old ++ name.now ∷ []) }
        ensures number { IfOk result (λ n. n ≡ length self.old) }
    {
        let number = self.names.len();
        let spelling = name.to_vec(alloc)?;
        self.names.insert_full(spelling)?;
        Ok(number as u32)
    }

    /// The number of a name, which is met here if it wasn't before.
    pub fn number(&mut self, alloc: Global, name: &[u8]) -> Result<u32, AllocError>
        requires { length self.old < 2 ^ 32 }
        ensures names { OnOk result (self.new ≡ met self.old name.now) }
        ensures number { IfOk result (λ n. n ≡ index_of self.new name.now) }
    {
        match self.names.get_index_of(name) {
            Some(number) => Ok(number as u32),
            None => self.add(alloc, name),
        }
    }

    /// The names in the order of their numbers.
    pub fn into_list(self, alloc: Global) -> Result<List<List<u8>>, AllocError>
        ensures { IfOk result (λ names. names ≡ self) }
    {
        let mut names = Vec::new(alloc);
        for name in self.names {
            names.push(List::from_vec(name))?;
        }
        Ok(List::from_vec(names))
    }
}
