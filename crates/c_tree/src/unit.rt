//! Units.

ghost use Rattle.std.specs.Prelude.{◌≡◌};
ghost use Rattle.std.specs.Option.{option_copied};
ghost use Rattle.c_tree.specs.Units.{place_in};

use crate::declaration::Declaration;
use crate::expression::{Declarator, Specifier};
use crate::statement::BlockItem;
use jf_base::{List, Place};

/// An external declaration (ISO/IEC 9899:2011, 6.9).
#[derive(Drop)]
pub enum External {
    Declaration(Declaration),
    /// A function's definition, and how many tokens it has.
    Function {
        specifiers: List<Specifier>,
        declarator: Declarator,
        body: List<BlockItem>,
        tokens: u32,
        at: u32,
    },
}

/// A C file as it was read: the spellings of its names and the bytes of its string literals by their numbers, the places of its tokens by
/// theirs, and its external declarations. A literal's bytes have its escape sequences read, and no zero behind them.
#[derive(Drop)]
pub struct CUnit {
    pub names: List<List<u8>>,
    pub literals: List<List<u8>>,
    pub places: List<Place>,
    pub externals: List<External>,
}

impl CUnit {
    /// The place of the token with this number, where there is one.
    pub fn place(&self, at: u32) -> Option<Place>
        ensures { result ≡ place_in self.now at }
    {
        self.places.as_slice().get(at as usize).copied()
    }
}

/// The C files of a program, in their order.
#[derive(Drop)]
pub struct CProgram {
    pub units: List<CUnit>,
}
