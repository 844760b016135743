use jf_base::{List, Text};

/// How an address stands in a unit.
#[derive(Clone, Copy, PartialEq, Eq, Debug)]
pub enum RelocationKind {
    /// The distance from an AUIPC, in it and the ADDI or JALR behind it.
    Pair,
    /// The address, in 8 bytes of the image.
    Word,
}

/// The place `at` asks for the address of the name plus `offset`.
#[derive(Drop, Debug)]
pub struct Relocation {
    pub at: u64,
    pub name: Text,
    pub offset: u64,
    pub kind: RelocationKind,
}

/// A unit's code and image with the names that it defines and those that it asks for. A place counts over the code and then the image.
#[derive(Drop, Debug)]
pub struct ObjUnit {
    pub code: List<u8>,
    pub image: List<u8>,
    pub names: List<(Text, u64)>,
    pub relocations: List<Relocation>,
}
