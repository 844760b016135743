//! Expressions, specifiers and declarators, each of which can hold the others.

use crate::operator::{
    AssignOperator, BinaryOperator, ConstantType, Height, PointerMark, PrefixOperator,
    SpecifierWord,
};
use jf_base::{Boxed, List};

/// An expression (ISO/IEC 9899:2011, 6.5). Names are told by their numbers in the unit's table.
#[cycle(tree)]
#[derive(Drop)]
pub enum Expr {
    /// A name of an object, a function or an enumerator (6.5.1).
    Name {
        name: u32,
        at: u32,
    },
    /// An integer constant (6.4.4.1).
    Constant {
        value: u64,
        kind: ConstantType,
        at: u32,
    },
    /// A character constant, which is an `int` (6.4.4.4).
    Character {
        value: u8,
        at: u32,
    },
    /// String literals that stand side by side, told by their numbers in the unit's table (6.4.5).
    Text {
        first: u32,
        others: List<u32>,
        at: u32,
    },
    /// An expression in parentheses (6.5.1).
    Parenthesized {
        inner: Boxed<Expr>,
        at: u32,
    },
    /// Postfix operators behind an operand, in the order of the text; at least one (6.5.2).
    Postfix {
        operand: Boxed<Expr>,
        suffixes: List<Postfix>,
        at: u32,
    },
    /// An operator before its operand (6.5.3).
    Prefix {
        operator: PrefixOperator,
        operand: Boxed<Expr>,
        at: u32,
    },
    /// `sizeof` before an expression (6.5.3.4).
    SizeofExpr {
        operand: Boxed<Expr>,
        at: u32,
    },
    /// `sizeof` before the name of a type in parentheses (6.5.3.4).
    SizeofType {
        kind: Boxed<Typed>,
        at: u32,
    },
    /// A conversion (6.5.4).
    Cast {
        kind: Boxed<Typed>,
        operand: Boxed<Expr>,
        at: u32,
    },
    /// Operands with binary operators of one height between them; at least one operator (6.5.5 to 6.5.14).
    Chain {
        height: Height,
        first: Boxed<Expr>,
        links: List<Link>,
        at: u32,
    },
    /// Conditional expressions, each behind the colon of the one before; at least one (6.5.15).
    Conditional {
        choices: List<Choice>,
        otherwise: Boxed<Expr>,
        at: u32,
    },
    /// Assignments, each on the right of the one before; at least one (6.5.16).
    Assignment {
        targets: List<Target>,
        value: Boxed<Expr>,
        at: u32,
    },
    /// Expressions with commas between them; at least one comma (6.5.17).
    Comma {
        first: Boxed<Expr>,
        others: List<Expr>,
        at: u32,
    },
}

/// A postfix operator (ISO/IEC 9899:2011, 6.5.2).
#[cycle(tree)]
#[derive(Drop)]
pub enum Postfix {
    /// `[index]`
    Index { index: Expr, at: u32 },
    /// `(arguments)`
    Call { arguments: List<Expr>, at: u32 },
    /// `.name`
    Member { name: u32, at: u32 },
    /// `->name`
    Arrow { name: u32, at: u32 },
    /// `++`
    Increment { at: u32 },
    /// `--`
    Decrement { at: u32 },
}

/// A binary operator and its right operand.
#[cycle(tree)]
#[derive(Drop)]
pub struct Link {
    pub operator: BinaryOperator,
    pub right: Expr,
    pub at: u32,
}

/// `test ? value :` of a conditional expression.
#[cycle(tree)]
#[derive(Drop)]
pub struct Choice {
    pub test: Expr,
    pub value: Expr,
    pub at: u32,
}

/// The left operand and the operator of an assignment.
#[cycle(tree)]
#[derive(Drop)]
pub struct Target {
    pub place: Expr,
    pub operator: AssignOperator,
    pub at: u32,
}

/// Specifiers and one declarator: a parameter, or the name of a type (ISO/IEC 9899:2011, 6.7.6 and 6.7.7).
#[cycle(tree)]
#[derive(Drop)]
pub struct Typed {
    pub specifiers: List<Specifier>,
    pub declarator: Declarator,
    pub at: u32,
}

/// A specifier (ISO/IEC 9899:2011, 6.7.1 to 6.7.3).
#[cycle(tree)]
#[derive(Drop)]
pub enum Specifier {
    Word {
        word: SpecifierWord,
        at: u32,
    },
    /// `struct tag`
    StructTag {
        tag: u32,
        at: u32,
    },
    /// `struct [tag] { members }`
    Struct {
        tag: Option<u32>,
        members: List<MemberDeclaration>,
        at: u32,
    },
    /// `enum tag`
    EnumTag {
        tag: u32,
        at: u32,
    },
    /// `enum [tag] { enumerators [,] }`, of which there is one at least
    Enum {
        tag: Option<u32>,
        enumerators: List<Enumerator>,
        has_comma: bool,
        at: u32,
    },
    /// A name that is declared as one of a type.
    TypedefName {
        name: u32,
        at: u32,
    },
    /// `CFI_CDESC_T(rank)`, where the rank is an integer constant of some type, and at most 15.
    DescriptorOfRank {
        rank: u64,
        kind: ConstantType,
        at: u32,
    },
}

/// Members of a struct that are declared together, one at least (ISO/IEC 9899:2011, 6.7.2.1).
#[cycle(tree)]
#[derive(Drop)]
pub struct MemberDeclaration {
    pub specifiers: List<Specifier>,
    pub declarators: List<Declarator>,
    pub at: u32,
}

/// An enumerator (ISO/IEC 9899:2011, 6.7.2.2).
#[cycle(tree)]
#[derive(Drop)]
pub struct Enumerator {
    pub name: u32,
    pub value: Option<Boxed<Expr>>,
    pub at: u32,
}

/// A declarator, with a name or without: stars and qualifiers, of which the first is a star, the core, and what stands behind it
/// (ISO/IEC 9899:2011, 6.7.6 and 6.7.7).
#[cycle(tree)]
#[derive(Drop)]
pub struct Declarator {
    pub marks: List<PointerMark>,
    pub core: Core,
    pub suffixes: List<Suffix>,
    pub at: u32,
}

/// What a declarator is around.
#[cycle(tree)]
#[derive(Drop)]
pub enum Core {
    /// There is no name.
    Absent,
    Identifier { name: u32, at: u32 },
    /// A declarator in parentheses.
    Group { inner: Boxed<Declarator>, at: u32 },
}

/// An array or a function (ISO/IEC 9899:2011, 6.7.6.2 and 6.7.6.3).
#[cycle(tree)]
#[derive(Drop)]
pub enum Suffix {
    Array {
        length: Option<Boxed<Expr>>,
        at: u32,
    },
    Function {
        parameters: Parameters,
        at: u32,
    },
}

/// The parameters of a function (ISO/IEC 9899:2011, 6.7.6.3).
#[cycle(tree)]
#[derive(Drop)]
pub enum Parameters {
    /// `()`
    Nothing,
    /// `(void)`
    Void,
    /// One parameter at least.
    Listed(List<Typed>),
}
