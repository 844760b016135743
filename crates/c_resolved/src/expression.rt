//! Expressions.

ghost use Rattle.std.specs.Prelude.{◌≡◌, IfOk};

use c_tree::{AssignOperator, BinaryOperator, PrefixOperator};
use c_types::CType;
use jf_base::{Boxed, List};
use std::alloc::{AllocError, Global};

/// What a name in an expression denotes (ISO/IEC 9899:2011, 6.2.1 and 6.5.1).
#[derive(Clone, Copy, PartialEq, Eq, Debug)]
pub enum Denoted {
    /// A parameter or an object of automatic storage duration, by its number among the locals of its function.
    Local(u32),
    /// An object of static storage duration, whatever its scope and linkage, by its number among the objects of the unit.
    Global(u32),
    /// A function, by its number among the functions of the unit.
    Function(u32),
    /// An enumeration constant, by its value, which is an `int` (6.7.2.2).
    Enumerator(i32),
}

/// A member of a descriptor but `dim` (ISO/IEC 1539-1:2018, 18.5.3).
#[derive(Clone, Copy, PartialEq, Eq, Debug)]
pub enum DescriptorMember {
    BaseAddr,
    ElemLen,
    Version,
    Rank,
    Attribute,
    Type,
}

/// A member of a dimension of a descriptor (ISO/IEC 1539-1:2018, 18.5.3).
#[derive(Clone, Copy, PartialEq, Eq, Debug)]
pub enum DimensionMember {
    LowerBound,
    Extent,
    Sm,
}

/// An expression (ISO/IEC 9899:2011, 6.5), its type, and the number of its first token.
///
/// The type is the one that the standard gives the expression itself, before an lvalue gives its value, an array the pointer to its
/// first element, or a function the pointer to it (6.3.2.1). No conversion stands in the tree: each is told by the type of an operand
/// and by what the operand belongs to, as the promotions and the usual arithmetic conversions (6.3.1) and those of an assignment, an
/// argument, an initial value and a result are. So every expression carries its type, once. In a list of operators each step carries
/// the type of what is computed up to it, because such a step is no expression of its own; a step whose type is that of a part has none.
#[cycle(tree)]
#[derive(Drop)]
pub struct Expr {
    pub form: Boxed<Form>,
    pub kind: CType,
    pub at: u32,
}

/// The form of an expression.
#[cycle(tree)]
#[derive(Drop)]
pub enum Form {
    /// A name (6.5.1).
    Name(Denoted),
    /// The value of an integer constant (6.4.4.1).
    Constant(u64),
    /// A character constant, which is an `int` (6.4.4.4).
    Character(u8),
    /// A string literal that is an object, by its number among the strings of the unit (6.4.5).
    String(u32),
    /// An expression in parentheses (6.5.1).
    Parenthesized(Expr),
    /// Postfix operators behind an operand, in the order of the text (6.5.2).
    Postfix {
        operand: Expr,
        suffixes: List<Postfix>,
    },
    /// An operator before its operand (6.5.3).
    Prefix {
        operator: PrefixOperator,
        operand: Expr,
    },
    /// `sizeof` before an expression, which isn't evaluated (6.5.3.4).
    SizeofExpr(Expr),
    /// `sizeof` before this type (6.5.3.4).
    SizeofType(CType),
    /// A conversion to the type of the whole expression (6.5.4).
    Cast(Expr),
    /// Operands with binary operators between them, which group from the left (6.5.5 to 6.5.14).
    Chain {
        first: Expr,
        links: List<Link>,
    },
    /// Conditional expressions, each behind the colon of the one before (6.5.15).
    Conditional {
        choices: List<Choice>,
        otherwise: Expr,
    },
    /// Assignments, each on the right of the one before (6.5.16). An assignment has the unqualified type of its left operand.
    Assignment {
        targets: List<Target>,
        value: Expr,
    },
    /// Expressions with commas between them (6.5.17).
    Comma {
        first: Expr,
        others: List<Expr>,
    },
}

/// A postfix operator, and the type of what ends with it (ISO/IEC 9899:2011, 6.5.2).
#[cycle(tree)]
#[derive(Drop)]
pub struct Postfix {
    pub operator: PostfixOperator,
    pub kind: CType,
    pub at: u32,
}

/// The form of a postfix operator. A member is told by its struct and by its place in the list of the struct's members, counted from 0,
/// so that its offset is known without the type of what stands before it.
#[cycle(tree)]
#[derive(Drop)]
pub enum PostfixOperator {
    /// `[index]`
    Index(Expr),
    /// `(arguments)`
    Call(List<Expr>),
    /// `.name`
    Member {
        structure: u32,
        member: u32,
    },
    /// `->name`, where a struct has the member.
    Arrow {
        structure: u32,
        member: u32,
    },
    /// `->name`, where a descriptor has the member.
    Descriptor(DescriptorMember),
    /// `->dim[index].name`
    Dimension {
        index: Expr,
        member: DimensionMember,
    },
    /// `++`
    Increment,
    /// `--`
    Decrement,
}

/// A binary operator and its right operand, with the type of what the operator gives.
#[cycle(tree)]
#[derive(Drop)]
pub struct Link {
    pub operator: BinaryOperator,
    pub right: Expr,
    pub kind: CType,
    pub at: u32,
}

/// `test ? value :` of a conditional expression, with the type of the conditional expression that begins with it.
#[cycle(tree)]
#[derive(Drop)]
pub struct Choice {
    pub test: Expr,
    pub value: Expr,
    pub kind: CType,
    pub at: u32,
}

/// The left operand and the operator of an assignment.
#[cycle(tree)]
#[derive(Drop)]
pub struct Target {
    pub place: Expr,
    pub operator: AssignOperator,
    pub at: u32,
}

impl Expr {
    /// The expression of this form and type.
    pub fn new(alloc: Global, form: Form, kind: CType, at: u32) -> Result<Expr, AllocError>
        ensures { IfOk result (λ e. e ≡ record { form = form; kind = kind; at = at }) }
    {
        let form = Boxed::new(alloc, form)?;
        Ok(Expr { form, kind, at })
    }
}
