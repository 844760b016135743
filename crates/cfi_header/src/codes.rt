//! The codes of types, and the size of descriptors.

ghost use Rattle.std.specs.Prelude.{◌≡◌};
ghost use Rattle.cfi_header.specs.Codes.{row_of, code_row, descriptor_size};

/// A code of a type, and how many bytes an element of that type has; None where the code alone doesn't tell (ISO/IEC 1539-1:2018, 18.5.4).
#[derive(Clone, Copy, PartialEq, Eq, Debug)]
pub struct CodeRow {
    pub code: i64,
    pub length: Option<u64>,
}

/// Rows of codes, each code once.
#[derive(Clone, Copy, Debug)]
pub struct Table<const N: usize> {
    pub rows: [CodeRow; N],
}

// A row of a code with its length, or of one that has none of its own.
macro_rules! row {
    ($code:expr, $length:expr) => {
        CodeRow {
            code: $code,
            length: Some($length),
        }
    };
    ($code:expr) => {
        CodeRow {
            code: $code,
            length: None,
        }
    };
}

/// The codes of types that the header has: `signed char`, `short`, `int`, `long` and what is as long, `_Bool`, `char` of any length, pointers to objects
/// and to functions, structs that interoperate, and what interoperates with no type of C.
pub const CODES: Table<10> = Table {
    rows: [
        row!(1, 1),
        row!(2, 2),
        row!(3, 4),
        row!(4, 8),
        row!(5, 1),
        row!(6),
        row!(7, 8),
        row!(8, 8),
        row!(9),
        row!(-1),
    ],
};

impl<const N: usize> Table<N> {
    /// The row of a code; None where no row has it.
    #[tactic(auto, unfolding(crate::specs::Codes::row_of))]
    pub fn row(&self, code: i64) -> Option<CodeRow>
        ensures { result ≡ row_of self.now.rows code }
    {
        let mut rest = self.rows.as_slice();
        'rows: while let Some((first, tail)) = rest.split_first() {
            if first.code == code {
                return Some(*first);
            }
            rest = tail;
        }
        None
    }
}

/// The row of a code of `ISO_Fortran_binding.h`; None where the header has no such code.
pub fn code_row(code: i64) -> Option<CodeRow>
    ensures { result ≡ code_row code }
{
    CODES.row(code)
}

/// How many bytes a descriptor of this rank has: the base address, the length of an element, version, rank, attribute and type take 24, and each dimension's
/// lower bound, extent and stride 24 more (ISO/IEC 1539-1:2018, 18.5.3).
pub fn descriptor_size(rank: u8) -> u64
    ensures { result ≡ descriptor_size rank }
{
    24 + 24 * rank as u64
}
