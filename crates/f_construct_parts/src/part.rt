//! What stands behind the first statement of a construct.

use f_tree::{Case, Else, ElseIf, Ending, RankCase, Statement};
use jf_base::List;

/// ELSE and its block where it is there, and END IF
#[derive(Drop)]
pub struct IfEnd {
    pub otherwise: Option<Else>,
    pub ending: Ending,
}

/// What stands behind the first block of an IF construct
#[derive(Drop)]
pub struct IfBehind {
    pub else_ifs: List<ElseIf>,
    pub end: IfEnd,
}

/// What stands behind `if (condition) then`
#[derive(Drop)]
pub struct IfParts {
    pub body: List<Statement>,
    pub behind: IfBehind,
}

/// What stands behind a DO statement
#[derive(Drop)]
pub struct DoParts {
    pub body: List<Statement>,
    pub ending: Ending,
}

/// What stands behind `select case (selector)`
#[derive(Drop)]
pub struct CaseParts {
    pub cases: List<Case>,
    pub ending: Ending,
}

/// What stands behind `select rank (selector)`
#[derive(Drop)]
pub struct RankParts {
    pub ranks: List<RankCase>,
    pub ending: Ending,
}
