//! Operators and words.

ghost use Rattle.std.specs.Prelude.{◌≡◌};
ghost use Rattle.c_tree.specs.Heights.{height_of, tighter};

/// An operator before its operand (ISO/IEC 9899:2011, 6.5.3).
#[derive(Clone, Copy, PartialEq, Eq)]
pub enum PrefixOperator {
    /// `++`
    Increment,
    /// `--`
    Decrement,
    /// `&`
    Address,
    /// `*`
    Dereference,
    /// `+`
    Plus,
    /// `-`
    Minus,
    /// `~`
    Complement,
    /// `!`
    Not,
}

/// An operator between two operands that groups from the left (ISO/IEC 9899:2011, 6.5.5 to 6.5.14).
#[derive(Clone, Copy, PartialEq, Eq)]
pub enum BinaryOperator {
    /// `*`
    Times,
    /// `/`
    Over,
    /// `%`
    Remainder,
    /// `+`
    Plus,
    /// `-`
    Minus,
    /// `<<`
    ShiftLeft,
    /// `>>`
    ShiftRight,
    /// `<`
    Less,
    /// `>`
    Greater,
    /// `<=`
    LessEqual,
    /// `>=`
    GreaterEqual,
    /// `==`
    Equal,
    /// `!=`
    NotEqual,
    /// `&`
    BitAnd,
    /// `^`
    BitXor,
    /// `|`
    BitOr,
    /// `&&`
    And,
    /// `||`
    Or,
}

/// How tightly a binary operator binds, from the tightest on: the productions of ISO/IEC 9899:2011, 6.5.5 to 6.5.14.
#[derive(Clone, Copy, PartialEq, Eq)]
pub enum Height {
    Multiplicative,
    Additive,
    Shift,
    Relational,
    Equality,
    BitAnd,
    BitXor,
    BitOr,
    And,
    Or,
}

impl BinaryOperator {
    /// The production that the operator belongs to.
    pub fn height(self) -> Height
        ensures { result ≡ height_of self }
    {
        match self {
            BinaryOperator::Times | BinaryOperator::Over | BinaryOperator::Remainder => {
                Height::Multiplicative
            }
            BinaryOperator::Plus | BinaryOperator::Minus => Height::Additive,
            BinaryOperator::ShiftLeft | BinaryOperator::ShiftRight => Height::Shift,
            BinaryOperator::Less
            | BinaryOperator::Greater
            | BinaryOperator::LessEqual
            | BinaryOperator::GreaterEqual => Height::Relational,
            BinaryOperator::Equal | BinaryOperator::NotEqual => Height::Equality,
            BinaryOperator::BitAnd => Height::BitAnd,
            BinaryOperator::BitXor => Height::BitXor,
            BinaryOperator::BitOr => Height::BitOr,
            BinaryOperator::And => Height::And,
            BinaryOperator::Or => Height::Or,
        }
    }
}

/// An operator of an assignment (ISO/IEC 9899:2011, 6.5.16).
#[derive(Clone, Copy, PartialEq, Eq)]
pub enum AssignOperator {
    /// `=`
    Set,
    /// `*=`
    Times,
    /// `/=`
    Over,
    /// `%=`
    Remainder,
    /// `+=`
    Plus,
    /// `-=`
    Minus,
    /// `<<=`
    ShiftLeft,
    /// `>>=`
    ShiftRight,
    /// `&=`
    BitAnd,
    /// `^=`
    BitXor,
    /// `|=`
    BitOr,
}

/// The type of an integer constant (ISO/IEC 9899:2011, 6.4.4.1).
#[derive(Clone, Copy, PartialEq, Eq)]
pub enum ConstantType {
    Int,
    UnsignedInt,
    Long,
    UnsignedLong,
    LongLong,
    UnsignedLongLong,
}

/// What stands between a declarator's stars and its name (ISO/IEC 9899:2011, 6.7.6).
#[derive(Clone, Copy, PartialEq, Eq)]
pub enum PointerMark {
    /// `*`
    Star,
    /// `const`
    Const,
    /// `restrict`
    Restrict,
}

/// A specifier of one word (ISO/IEC 9899:2011, 6.7.1 to 6.7.3).
#[derive(Clone, Copy, PartialEq, Eq)]
pub enum SpecifierWord {
    Typedef,
    Extern,
    Static,
    Const,
    Void,
    Bool,
    Char,
    Short,
    Int,
    Long,
    Signed,
    Unsigned,
    /// The type of descriptors, which the text of `<ISO_Fortran_binding.h>` names by a word of its own.
    Descriptor,
}

impl Height {
    /// The height of the operators that bind next tighter.
    pub fn tighter(self) -> Option<Height>
        ensures { result ≡ tighter self }
    {
        match self {
            Height::Multiplicative => None,
            Height::Additive => Some(Height::Multiplicative),
            Height::Shift => Some(Height::Additive),
            Height::Relational => Some(Height::Shift),
            Height::Equality => Some(Height::Relational),
            Height::BitAnd => Some(Height::Equality),
            Height::BitXor => Some(Height::BitAnd),
            Height::BitOr => Some(Height::BitXor),
            Height::And => Some(Height::BitOr),
            Height::Or => Some(Height::And),
        }
    }
}
