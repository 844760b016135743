//! Executable statements and constructs (ISO/IEC 1539-1:2018, 9.7, 10.2, 11 and 12.6).

use crate::declaration::Ending;
use crate::expression::{Argument, Expression, Reference};
use crate::name::Name;
use jf_base::{List, Place};

/// A statement or a construct.
#[cycle(statement)]
#[derive(Drop)]
pub enum Statement {
    Action(Action),
    /// `if (condition) action` (11.1.8.4)
    IfAction {
        place: Place,
        condition: Expression,
        action: Action,
    },
    If(IfConstruct),
    Do(DoConstruct),
    SelectCase(SelectCase),
    SelectRank(SelectRank),
}

/// An action statement (ISO/IEC 1539-1:2018, 5.1, R515).
#[derive(Drop)]
pub enum Action {
    /// `target = value`
    Assign {
        target: Reference,
        value: Expression,
    },
    /// `target => value`
    Associate {
        target: Reference,
        value: Expression,
    },
    Call {
        place: Place,
        name: Name,
        arguments: Option<List<Argument>>,
    },
    Exit {
        place: Place,
    },
    Cycle {
        place: Place,
    },
    Return {
        place: Place,
    },
    Stop {
        place: Place,
        is_error: bool,
        code: Option<Expression>,
    },
    Allocate {
        place: Place,
        objects: List<Reference>,
        status: Option<Reference>,
    },
    Deallocate {
        place: Place,
        objects: List<Reference>,
        status: Option<Reference>,
    },
    Nullify {
        place: Place,
        objects: List<Reference>,
    },
    /// `print *, items`
    Print {
        place: Place,
        items: List<Expression>,
    },
    /// `read *, targets`
    Read {
        place: Place,
        targets: List<Reference>,
    },
    /// `read (*, *, iostat = status) targets`
    ReadUnit {
        place: Place,
        status: Option<Reference>,
        targets: List<Reference>,
    },
}

/// An IF construct (ISO/IEC 1539-1:2018, 11.1.8).
#[cycle(statement)]
#[derive(Drop)]
pub struct IfConstruct {
    pub place: Place,
    pub condition: Expression,
    pub body: List<Statement>,
    pub else_ifs: List<ElseIf>,
    pub otherwise: Option<Else>,
    pub ending: Ending,
}

/// An ELSE IF statement and its block.
#[cycle(statement)]
#[derive(Drop)]
pub struct ElseIf {
    pub place: Place,
    /// `elseif`
    pub is_one_word: bool,
    pub condition: Expression,
    pub body: List<Statement>,
}

/// An ELSE statement and its block.
#[cycle(statement)]
#[derive(Drop)]
pub struct Else {
    pub place: Place,
    pub body: List<Statement>,
}

/// A DO construct (ISO/IEC 1539-1:2018, 11.1.7).
#[cycle(statement)]
#[derive(Drop)]
pub struct DoConstruct {
    pub place: Place,
    pub control: LoopControl,
    pub body: List<Statement>,
    pub ending: Ending,
}

/// What makes a DO construct go on.
#[derive(Drop)]
pub enum LoopControl {
    Endless,
    Count {
        has_comma: bool,
        variable: Name,
        first: Expression,
        last: Expression,
        step: Option<Expression>,
    },
    While {
        has_comma: bool,
        condition: Expression,
    },
}

/// A SELECT CASE construct (ISO/IEC 1539-1:2018, 11.1.9).
#[cycle(statement)]
#[derive(Drop)]
pub struct SelectCase {
    pub place: Place,
    /// `selectcase`
    pub is_one_word: bool,
    pub selector: Expression,
    pub cases: List<Case>,
    pub ending: Ending,
}

/// A CASE statement and its block.
#[cycle(statement)]
#[derive(Drop)]
pub struct Case {
    pub place: Place,
    pub choice: CaseChoice,
    pub body: List<Statement>,
}

/// The values that a case is for.
#[derive(Drop)]
pub enum CaseChoice {
    Default,
    Ranges(List<CaseRange>),
}

/// A value or a range of a case; the place is that of the colon.
#[derive(Drop)]
pub enum CaseRange {
    /// `value`
    Value(Expression),
    /// `lower :` or `lower : upper`
    From {
        lower: Expression,
        upper: Option<Expression>,
    },
    /// `: upper`
    UpTo {
        place: Place,
        upper: Expression,
    },
}

/// A SELECT RANK construct (ISO/IEC 1539-1:2018, 11.1.10).
#[cycle(statement)]
#[derive(Drop)]
pub struct SelectRank {
    pub place: Place,
    /// The name that the selector has inside.
    pub renamed: Option<Name>,
    pub selector: Name,
    pub ranks: List<RankCase>,
    pub ending: Ending,
}

/// A RANK statement and its block.
#[cycle(statement)]
#[derive(Drop)]
pub struct RankCase {
    pub place: Place,
    pub choice: RankChoice,
    pub body: List<Statement>,
}

/// The rank that a block is for.
#[derive(Drop)]
pub enum RankChoice {
    Default,
    Rank(Expression),
    /// `*`
    AssumedSize { place: Place },
}
