//! Numbers, the last of which comes first.

ghost use Rattle.std.specs.Prelude.{◌≡◌, [], ◌∷◌, drop, slice_index, OnOk};

use std::alloc::{AllocError, Global};
use std::marker::Model;

/// Numbers, to which others are added in front. They lie from the last to the first.
#[derive(Drop)]
pub struct Stack {
    backward: Vec<u32>,
}

impl Model for Stack {
    ghost use Rattle.std.specs.Prelude.{List, ℕ, reverse};

    ghost Value = { List ℕ };

    ghost view = { λ s. reverse s.backward.items };
}

impl Stack {
    /// No numbers.
    pub fn new(alloc: Global) -> Stack
        ensures { result ≡ [] }
    {
        Stack {
            backward: Vec::new(alloc),
        }
    }

    /// Puts a number in front.
    pub fn push(&mut self, n: u32) -> Result<(), AllocError>
        ensures { OnOk result (self.new ≡ n ∷ self.old) }
    {
        self.backward.push(n)?;
        Ok(())
    }

    /// Takes the first number away, and answers it, or 0 where there is none.
    pub fn pop(&mut self) -> u32
        ensures value { result ≡ slice_index self.old 0 }
        ensures rest { self.new ≡ drop 1 self.old }
    {
        self.backward.pop().unwrap_or(0)
    }

    /// The number at this place, counted from 0 at the first, or 0 where there is none.
    pub fn get(&self, k: u32) -> u32
        ensures { result ≡ slice_index self.now k }
    {
        let k = k as usize;
        let n = self.backward.len();
        if k < n { self.backward[n - 1 - k] } else { 0 }
    }
}
