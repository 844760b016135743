ghost use Rattle.std.specs.Prelude.{◌≡◌};
ghost use Rattle.jf_base.specs.Limits.{AreLimits};

use crate::tag::Tag;
use std::alloc::AllocError;

/// Where a token stands: the number of its file in the order of the words, counted from 0, its line, and the byte of the line, both counted from 1.
#[derive(Clone, Copy, PartialEq, Eq, Debug)]
pub struct Place {
    pub file: u16,
    pub line: u32,
    pub column: u32,
}

/// Memory was wanting.
#[derive(Clone, Copy, PartialEq, Eq, Debug)]
pub struct Memory;

impl From<AllocError> for Memory {
    fn from(_error: AllocError) -> Memory {
        Memory
    }
}

/// The limits of a run: instructions, and bytes of the heap, of objects and of frames.
#[derive(Clone, Copy, PartialEq, Eq, Debug)]
pub struct Limits {
    pub steps: u64,
    pub heap: u64,
    pub objects: u64,
    pub frames: u64,
}

impl Limits {
    /// The limits of a run whose words name none.
    pub fn standard() -> Limits
        ensures steps { result.steps ≡ 1000000000 }
        ensures heap { result.heap ≡ 16777216 }
        ensures objects { result.objects ≡ 4194304 }
        ensures frames { result.frames ≡ 1048576 }
        ensures in_range { AreLimits result }
    {
        Limits {
            steps: 1_000_000_000,
            heap: 16_777_216,
            objects: 4_194_304,
            frames: 1_048_576,
        }
    }
}

/// Why a source was refused: for want of memory, or at its first broken rule.
#[derive(Clone, Copy, PartialEq, Eq, Debug)]
pub enum Refusal {
    Memory,
    At { place: Place, tag: Tag },
}

impl From<AllocError> for Refusal {
    ghost use Rattle.std.specs.Prelude.{◌≡◌};
    ghost use Rattle.jf_base.specs.declared.place.Refusal.TheVariants.{Memory};

    ghost from_gives = { λ _ refusal. refusal ≡ Memory };

    fn from(_error: AllocError) -> Refusal {
        Refusal::Memory
    }
}
