//! Units.

ghost use Rattle.std.specs.Prelude.{◌≡◌, slice_get};
ghost use Rattle.std.specs.Option.{option_copied};

use crate::declaration::{Initializer, Local, StringLiteral};
use crate::statement::BlockItem;
use c_types::{CType, Proto, Types};
use jf_base::{Boxed, List, Place};

/// The linkage of an identifier (ISO/IEC 9899:2011, 6.2.2).
#[derive(Clone, Copy, PartialEq, Eq, Debug)]
pub enum Linkage {
    External,
    Internal,
    /// That of an object of static storage duration which a block declares without `extern`.
    Absent,
}

/// What an object of static storage duration holds at the start (ISO/IEC 9899:2011, 6.7.9 and 6.9.2).
#[derive(Drop)]
pub enum Content {
    /// The unit declares the object and doesn't define it.
    Elsewhere,
    /// The unit defines it without an initial value: it is zero, and each pointer null.
    Zero,
    /// The unit defines it with this initial value, in which each name denotes an object of static storage duration, a function or an
    /// enumeration constant.
    Initial(Boxed<Initializer>),
}

/// An object of static storage duration: the number of its name, its type over all its declarations, and the token of its name at its
/// first declaration. `is_used` says whether an expression or an initial value of the unit names it.
#[derive(Drop)]
pub struct Object {
    pub name: u32,
    pub linkage: Linkage,
    pub kind: CType,
    pub content: Content,
    pub is_used: bool,
    pub at: u32,
}

/// A function of the C library (ISO/IEC 9899:2011, 7) or of `<ISO_Fortran_binding.h>` (ISO/IEC 1539-1:2018, 18.5.5).
#[derive(Clone, Copy, PartialEq, Eq, Debug)]
pub enum LibraryFunction {
    Malloc,
    Free,
    Exit,
    Abort,
    Putchar,
    Getchar,
    Puts,
    Memcpy,
    Memset,
    Strlen,
    CfiAddress,
    CfiAllocate,
    CfiDeallocate,
    CfiEstablish,
    CfiIsContiguous,
    CfiSection,
    CfiSelectPart,
    CfiSetpointer,
}

/// Where a function comes from.
#[derive(Clone, Copy, PartialEq, Eq, Debug)]
pub enum Role {
    /// The unit declares the function and doesn't define it.
    Elsewhere,
    /// The unit defines it: the number of the definition among those of the unit.
    Defined(u32),
    /// The function is one of the C library or of `<ISO_Fortran_binding.h>`.
    Library(LibraryFunction),
}

/// A function that is declared or defined: the number of its name, its result and parameters over all its declarations, and the token of
/// its name at its first declaration. `is_used` says whether an expression or an initial value of the unit names it.
#[derive(Drop)]
pub struct Function {
    pub name: u32,
    pub linkage: Linkage,
    pub proto: Proto,
    pub role: Role,
    pub is_used: bool,
    pub at: u32,
}

/// The definition of a function (ISO/IEC 9899:2011, 6.9.1): its number among the functions of the unit, how many parameters it has, its
/// parameters and behind them its other objects of automatic storage duration in the order of the text, its body, and how many tokens
/// the definition has.
#[derive(Drop)]
pub struct FunctionDefinition {
    pub function: u32,
    pub parameters: u32,
    pub locals: List<Local>,
    pub body: List<BlockItem>,
    pub tokens: u32,
    pub at: u32,
}

/// What an identifier with linkage denotes, by its number in the unit.
#[derive(Clone, Copy, PartialEq, Eq, Debug)]
pub enum LinkedThing {
    Object(u32),
    Function(u32),
}

/// One declaration of an identifier with linkage, with the type that it gives and the token where it begins. Declarations of one thing
/// are compared with one another, and with those of other units.
#[derive(Drop)]
pub struct LinkedDeclaration {
    pub thing: LinkedThing,
    pub kind: CType,
    pub is_definition: bool,
    pub at: u32,
}

/// A C file whose names and types are resolved.
///
/// `names`, `literals` and `places` are those of the file as it was read: the spellings of names and the bytes of string literals by
/// their numbers, and the places of tokens by theirs. `types` is the one table of the file's structs, whose members have names by their
/// numbers too, and `enums` counts its enumerated types. `strings` has the string literals that are objects, `objects` the objects of
/// static storage duration and `functions` the functions, each in the order of their first declarations; `declarations` has each
/// declaration with linkage, in the order of the text. `static_bytes` counts the bytes of the strings and the objects.
#[derive(Drop)]
pub struct Unit {
    pub names: List<List<u8>>,
    pub literals: List<List<u8>>,
    pub places: List<Place>,
    pub types: Types,
    pub enums: u32,
    pub strings: List<StringLiteral>,
    pub objects: List<Object>,
    pub functions: List<Function>,
    pub definitions: List<FunctionDefinition>,
    pub declarations: List<LinkedDeclaration>,
    pub static_bytes: u64,
}

/// The C files of a program, in their order.
#[derive(Drop)]
pub struct Program {
    pub units: List<Unit>,
}

impl Unit {
    /// The place of the token with this number, where there is one.
    pub fn place(&self, at: u32) -> Option<Place>
        ensures { result ≡ slice_get self.now.places at }
    {
        self.places.as_slice().get(at as usize).copied()
    }
}
