//! The table of rows. A group is the rows of one format and opcode (and funct7); each names an instruction and the fixed fields that are its own.
//! A group's macro hands what it was given, with its rows behind it, to the macro that is named first, which may be the next group's.

macro_rules! with_branches {
    ($next:ident $($more:tt)*) => { $next! { $($more)* [Beq 0, Bne 1, Blt 4, Bge 5, Bltu 6, Bgeu 7,] } };
}

macro_rules! with_loads {
    ($next:ident $($more:tt)*) => { $next! { $($more)* [Lb 0, Lh 1, Lw 2, Ld 3, Lbu 4, Lhu 5, Lwu 6,] } };
}

macro_rules! with_stores {
    ($next:ident $($more:tt)*) => { $next! { $($more)* [Sb 0, Sh 1, Sw 2, Sd 3,] } };
}

macro_rules! with_immediates {
    ($next:ident $($more:tt)*) => { $next! { $($more)* [Addi 0, Slti 2, Sltiu 3, Xori 4, Ori 6, Andi 7,] } };
}

macro_rules! with_shifts {
    ($next:ident $($more:tt)*) => { $next! { $($more)* [Slli 1 0x00, Srli 5 0x00, Srai 5 0x10,] } };
}

macro_rules! with_word_immediates {
    ($next:ident $($more:tt)*) => { $next! { $($more)* [Addiw 0,] } };
}

macro_rules! with_word_shifts {
    ($next:ident $($more:tt)*) => { $next! { $($more)* [Slliw 1 0x00, Srliw 5 0x00, Sraiw 5 0x20,] } };
}

macro_rules! with_base {
    ($next:ident $($more:tt)*) => {
        $next! { $($more)* [Add 0, Sll 1, Slt 2, Sltu 3, Xor 4, Srl 5, Or 6, And 7,] }
    };
}

macro_rules! with_alternates {
    ($next:ident $($more:tt)*) => { $next! { $($more)* [Sub 0, Sra 5,] } };
}

macro_rules! with_products {
    ($next:ident $($more:tt)*) => {
        $next! { $($more)* [Mul 0, Mulh 1, Mulhsu 2, Mulhu 3, Div 4, Divu 5, Rem 6, Remu 7,] }
    };
}

macro_rules! with_word_base {
    ($next:ident $($more:tt)*) => { $next! { $($more)* [Addw 0, Sllw 1, Srlw 5,] } };
}

macro_rules! with_word_alternates {
    ($next:ident $($more:tt)*) => { $next! { $($more)* [Subw 0, Sraw 5,] } };
}

macro_rules! with_word_products {
    ($next:ident $($more:tt)*) => { $next! { $($more)* [Mulw 0, Divw 4, Divuw 5, Remw 6, Remuw 7,] } };
}

macro_rules! with_whole_words {
    ($next:ident $($more:tt)*) => {
        $next! { $($more)* [Fence 0x0ff0000f, Ecall 0x00000073, Ebreak 0x00100073,] }
    };
}

pub(crate) use with_alternates;
pub(crate) use with_base;
pub(crate) use with_branches;
pub(crate) use with_immediates;
pub(crate) use with_loads;
pub(crate) use with_products;
pub(crate) use with_shifts;
pub(crate) use with_stores;
pub(crate) use with_whole_words;
pub(crate) use with_word_alternates;
pub(crate) use with_word_base;
pub(crate) use with_word_immediates;
pub(crate) use with_word_products;
pub(crate) use with_word_shifts;
