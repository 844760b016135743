//! Statements and constructs.

use crate::expression::{Argument, Callee, Expression, Reference};
use crate::kind::{Declared, Named};
use jf_base::{Boxed, List, Place};

/// A statement or a construct (ISO/IEC 1539-1:2018, 5.1, R514), and the place of its first token. A statement behind the parentheses of
/// an IF statement has the place of the whole.
#[cycle(statement)]
#[derive(Drop)]
pub struct Statement {
    pub place: Place,
    pub form: Executable,
}

/// The form of a statement or a construct.
#[cycle(statement)]
#[derive(Drop)]
pub enum Executable {
    /// 10.2.1
    Assign(Boxed<Assignment>),
    /// 10.2.2
    Associate(Boxed<PointerAssignment>),
    /// 10.2.2.4
    AssociateProcedure(Boxed<ProcedureAssignment>),
    /// 15.5.1
    Call(Boxed<Call>),
    /// EXIT from the innermost DO construct (11.1.12).
    Exit,
    /// CYCLE of the innermost DO construct (11.1.7.4.4).
    Cycle,
    /// 15.6.2.7
    Return,
    /// 11.4
    Stop(Boxed<Stop>),
    /// 9.7.1
    Allocate(Boxed<Allocate>),
    /// 9.7.3
    Deallocate(Boxed<Deallocate>),
    /// 9.7.2
    Nullify(List<PointerObject>),
    /// The items of a PRINT statement (12.6.1).
    Print(List<Expression>),
    /// 12.6.1
    Read(Boxed<Read>),
    /// An IF construct or an IF statement (11.1.8).
    If(Boxed<If>),
    /// 11.1.7
    Do(Boxed<Do>),
    /// 11.1.9
    SelectCase(Boxed<SelectCase>),
    /// 11.1.10
    SelectRank(Boxed<SelectRank>),
}

#[derive(Drop)]
pub struct Assignment {
    pub target: Reference,
    pub value: Expression,
}

#[derive(Drop)]
pub struct PointerAssignment {
    pub pointer: Reference,
    pub target: Expression,
}

#[derive(Drop)]
pub struct ProcedureAssignment {
    pub pointer: Declared,
    pub target: Expression,
}

/// A CALL statement, with the actual arguments in the order of the text.
#[derive(Drop)]
pub struct Call {
    pub callee: Callee,
    pub arguments: List<Argument>,
}

#[derive(Drop)]
pub struct Stop {
    pub is_error: bool,
    pub code: Option<Expression>,
}

/// An ALLOCATE statement, and the variable behind STAT=.
#[derive(Drop)]
pub struct Allocate {
    pub objects: List<Allocation>,
    pub status: Option<Reference>,
}

/// An object that is allocated, with a range for each of its dimensions.
#[derive(Drop)]
pub struct Allocation {
    pub object: Named,
    pub ranges: List<AllocationRange>,
}

/// `lower : upper`, where the lower bound is 1 if it isn't there.
#[derive(Drop)]
pub struct AllocationRange {
    pub lower: Option<Expression>,
    pub upper: Expression,
}

/// A DEALLOCATE statement, and the variable behind STAT=.
#[derive(Drop)]
pub struct Deallocate {
    pub objects: List<Named>,
    pub status: Option<Reference>,
}

/// What NULLIFY disassociates.
#[derive(Clone, Copy, PartialEq, Eq, Debug)]
pub enum PointerObject {
    Data(Named),
    Procedure(Declared),
}

/// A READ statement, and the variable behind IOSTAT=.
#[derive(Drop)]
pub struct Read {
    pub targets: List<Reference>,
    pub status: Option<Reference>,
}

/// The blocks behind IF, ELSE IF and ELSE.
#[cycle(statement)]
#[derive(Drop)]
pub struct If {
    pub first: Arm,
    pub others: List<Arm>,
    pub otherwise: Option<List<Statement>>,
}

/// A condition and its block.
#[cycle(statement)]
#[derive(Drop)]
pub struct Arm {
    pub condition: Expression,
    pub body: List<Statement>,
}

#[cycle(statement)]
#[derive(Drop)]
pub struct Do {
    pub control: LoopControl,
    pub body: List<Statement>,
}

/// What makes a DO construct go on (ISO/IEC 1539-1:2018, 11.1.7.4).
#[derive(Drop)]
pub enum LoopControl {
    Endless,
    Count(Boxed<Count>),
    While(Expression),
}

/// The DO variable, its first and its last value, and what is added to it.
#[derive(Drop)]
pub struct Count {
    pub variable: Named,
    pub first: Expression,
    pub last: Expression,
    pub step: Option<Expression>,
}

#[cycle(statement)]
#[derive(Drop)]
pub struct SelectCase {
    pub selector: Expression,
    pub cases: List<Case>,
}

#[cycle(statement)]
#[derive(Drop)]
pub struct Case {
    pub choice: CaseChoice,
    pub body: List<Statement>,
}

/// The values that a block is for.
#[derive(Drop)]
pub enum CaseChoice {
    Default,
    Ranges(List<CaseRange>),
}

/// Values of a case, by what their constant expressions come to.
#[derive(Clone, Copy, PartialEq, Eq, Debug)]
pub enum CaseRange {
    Logical(bool),
    /// The integers from `lower` to `upper`; where one isn't there, all on that side.
    Integers {
        lower: Option<i64>,
        upper: Option<i64>,
    },
}

/// A SELECT RANK construct. In its blocks the selector is named with the rank that they are for.
#[cycle(statement)]
#[derive(Drop)]
pub struct SelectRank {
    pub selector: Declared,
    pub cases: List<RankCase>,
}

#[cycle(statement)]
#[derive(Drop)]
pub struct RankCase {
    pub choice: RankChoice,
    pub body: List<Statement>,
}

/// The rank that a block is for.
#[derive(Clone, Copy, PartialEq, Eq, Debug)]
pub enum RankChoice {
    Default,
    Rank(u8),
    AssumedSize,
}
