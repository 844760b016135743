use jf_base::{List, Text};
use rv_isa::Insn;

/// A line of assembly. The `imm` of a `Branch`, a conditional branch or JAL, comes from the label that it goes to.
#[derive(Drop, Debug)]
pub enum AsmLine {
    Label(u32),
    Plain(Insn),
    Branch { insn: Insn, to: u32 },
    Call { name: Text },
    Address { rd: u8, name: Text, offset: u64 },
}

/// The 8 bytes of the image from `at` on hold the address of the name plus `offset`.
#[derive(Drop, Debug)]
pub struct NamedFix {
    pub at: u64,
    pub name: Text,
    pub offset: u64,
}

/// A unit of assembly: it defines its name at its start. Behind its code stand the bytes of its image.
#[derive(Drop, Debug)]
pub struct AsmUnit {
    pub name: Text,
    pub lines: List<AsmLine>,
    pub image: List<u8>,
    pub fixes: List<NamedFix>,
}
