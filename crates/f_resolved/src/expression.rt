//! Expressions.

ghost use Rattle.std.specs.Prelude.{◌≡◌, IfOk};

use crate::kind::{DataType, Declared, Named};
use f_value::{FIntrinsic, FOp};
use jf_base::{Boxed, List, Place};
use std::alloc::{AllocError, Global};

/// An expression (ISO/IEC 1539-1:2018, 10.1), with the type and the rank of its value; an expression of assumed rank has none.
#[cycle(tree)]
#[derive(Drop)]
pub struct Expression {
    pub form: Boxed<Form>,
    pub kind: DataType,
    pub rank: Option<u8>,
    pub place: Place,
}

/// The form of an expression.
#[cycle(tree)]
#[derive(Drop)]
pub enum Form {
    /// The value of an integer literal constant (7.4.3.1).
    Integer(u64),
    /// The value of a logical literal constant (7.4.5).
    Logical(bool),
    /// The characters of a character literal constant (7.4.4.3).
    Text(List<u8>),
    /// A data object or a part of one (9).
    Object(Boxed<Reference>),
    /// A function reference (15.5).
    Function {
        callee: Callee,
        arguments: List<Argument>,
    },
    /// A structure constructor (7.5.10): the number of the derived type, and a value for each component in their order.
    Structure {
        of: u32,
        values: List<Expression>,
    },
    /// An array constructor (7.8).
    Array(List<Expression>),
    Parenthesized(Expression),
    /// A sign or `.not.` where there is one, an operand, and operators of one level with their right operands (10.1.2). They group from
    /// the left, and `**` from the right.
    Chain {
        sign: Option<FOp>,
        first: Expression,
        links: List<Link>,
    },
    /// NULL(), C_NULL_PTR or C_NULL_FUNPTR (16.9.144 and 18.2).
    Null,
    /// A procedure that is an actual argument or the target of a procedure pointer, by its number in the program.
    Procedure(u32),
    /// A procedure pointer that is an actual argument or a target.
    ProcedurePointer(Declared),
}

/// An operator and its right operand, with the type and the rank of what the operator gives.
#[cycle(tree)]
#[derive(Drop)]
pub struct Link {
    pub operator: FOp,
    pub right: Expression,
    pub kind: DataType,
    pub rank: Option<u8>,
}

/// A data object, or a part of one (ISO/IEC 1539-1:2018, 9.1): what its first name denotes, the subscripts behind that name, the
/// components that are selected one from the other, and a substring range behind the last part. A whole array has no subscripts.
#[cycle(tree)]
#[derive(Drop)]
pub struct Reference {
    pub root: Named,
    pub subscripts: List<Subscript>,
    pub parts: List<Part>,
    pub substring: Option<Range>,
}

/// A component (ISO/IEC 1539-1:2018, 9.4.2), by the number of its derived type and its own number there, and the subscripts behind it.
#[cycle(tree)]
#[derive(Drop)]
pub struct Part {
    pub of: u32,
    pub component: u32,
    pub subscripts: List<Subscript>,
}

/// `lower : upper`, each where it is there.
#[cycle(tree)]
#[derive(Drop)]
pub struct Range {
    pub lower: Option<Expression>,
    pub upper: Option<Expression>,
}

/// A subscript (ISO/IEC 1539-1:2018, 9.5.3).
#[cycle(tree)]
#[derive(Drop)]
pub enum Subscript {
    One(Expression),
    /// A subscript triplet.
    Triplet {
        range: Range,
        stride: Option<Expression>,
    },
    /// A vector subscript.
    Vector(Expression),
}

/// An actual argument (ISO/IEC 1539-1:2018, 15.5.2), with the number of its dummy argument, counted from 0.
#[cycle(tree)]
#[derive(Drop)]
pub struct Argument {
    pub dummy: u32,
    pub value: Expression,
}

/// What a reference invokes.
#[derive(Clone, Copy, PartialEq, Eq, Debug)]
pub enum Callee {
    /// A procedure, by its number in the program.
    Procedure(u32),
    /// What a procedure pointer points to.
    Pointer(Declared),
    Intrinsic(Intrinsic),
}

/// An intrinsic procedure (ISO/IEC 1539-1:2018, 16.9) or one of ISO_C_BINDING (18.2.3).
#[derive(Clone, Copy, PartialEq, Eq, Debug)]
pub enum Intrinsic {
    Elemental(FIntrinsic),
    Huge,
    Kind,
    Len,
    Trim,
    Sum,
    Product,
    Maxval,
    Minval,
    Any,
    All,
    Count,
    Size,
    Shape,
    Lbound,
    Ubound,
    Rank,
    Allocated,
    Associated,
    Present,
    IsContiguous,
    CLoc,
    CFunloc,
    CAssociated,
    CSizeof,
    CFPointer,
    CFProcpointer,
}

impl Expression {
    /// The expression of this form, with the type and the rank of its value.
    pub fn new(
        alloc: Global,
        form: Form,
        kind: DataType,
        rank: Option<u8>,
        place: Place,
    ) -> Result<Expression, AllocError>
        ensures { IfOk result (λ e. e ≡ record { form = form; kind = kind; rank = rank; place = place }) }
    {
        let form = Boxed::new(alloc, form)?;
        Ok(Expression {
            form,
            kind,
            rank,
            place,
        })
    }
}
