//! Attributes.

ghost use Rattle.std.specs.Prelude.{⊤, ◌≡◌, [], ◌∷◌, codes};
ghost use Rattle.f_resolved.specs.Attributes.{has};

use bitflags::{Flag, Flags, bitflag_items};

/// The attributes of a declaration (ISO/IEC 1539-1:2018, 8.5), with its accessibility and its intent. INTENT(INOUT) is both intents;
/// a dummy argument for which no intent is said has neither.
///
/// SAVE stands also where an initial value or the scoping unit implies it (8.5.16).
#[derive(Clone, Copy, PartialEq, Eq, Debug)]
pub struct Attributes(pub u16);

bitflag_items! {
    impl Attributes: u16 {
        const ALLOCATABLE = 1;
        const POINTER = 2;
        const TARGET = 4;
        const OPTIONAL = 8;
        const VALUE = 16;
        const CONTIGUOUS = 32;
        const SAVE = 64;
        const PARAMETER = 128;
        const BIND_C = 256;
        const PUBLIC = 512;
        const PRIVATE = 1024;
        const INTENT_IN = 2048;
        const INTENT_OUT = 4096;
    }
}

impl Flags for Attributes {
    type Bits = u16;

    ghost exact = { ⊤ };

    ghost table = { (codes "ALLOCATABLE", 1) ∷ (codes "POINTER", 2) ∷ (codes "TARGET", 4) ∷ (codes "OPTIONAL", 8) ∷ (codes "VALUE", 16) ∷ (codes "CONTIGUOUS", 32) ∷ (codes "SAVE", 64) ∷ (codes "PARAMETER", 128) ∷ (codes "BIND_C", 256) ∷ (codes "PUBLIC", 512) ∷ (codes "PRIVATE", 1024) ∷ (codes "INTENT_IN", 2048) ∷ (codes "INTENT_OUT", 4096) ∷ [] };

    ghost set_of = { λ a. a.0 };

    fn flags<'a>() -> &'a [Flag<Attributes>] {
        Attributes::FLAGS
    }

    fn bits(&self) -> u16 {
        self.0
    }

    fn from_bits_retain(bits: u16) -> Attributes {
        Attributes(bits)
    }
}

impl Attributes {
    /// Whether these attributes have all of the others.
    pub fn has(self, others: Attributes) -> bool
        ensures { result ≡ has self others.0 }
    {
        self.contains(others)
    }
}
