//! Constructs whose end is still to come, and what stands in front of the block that is read in each.

use f_construct_parts::head::{
    CaseHead, DoHead, ElseIfHead, IfHead, RankHead, SelectCaseHead, SelectRankHead,
};
use f_tree::{Case, ElseIf, RankCase, Statement};
use jf_base::{Boxed, List, Place};

/// An IF construct, read up to the end of a block
#[derive(Drop)]
pub struct IfStart {
    pub around: List<Statement>,
    pub head: IfHead,
    pub body: List<Statement>,
    pub else_ifs: List<ElseIf>,
}

/// An IF construct whose first block is read
#[derive(Drop)]
pub struct IfFrame {
    pub around: List<Statement>,
    pub head: IfHead,
}

/// An IF construct in which the block of an ELSE IF statement is read
#[derive(Drop)]
pub struct ElseIfFrame {
    pub start: IfStart,
    pub part: ElseIfHead,
}

/// An IF construct in which the block of an ELSE statement is read
#[derive(Drop)]
pub struct ElseFrame {
    pub start: IfStart,
    pub place: Place,
}

/// A DO construct whose block is read
#[derive(Drop)]
pub struct DoFrame {
    pub around: List<Statement>,
    pub head: DoHead,
}

/// A SELECT CASE construct, read up to the end of a block
#[derive(Drop)]
pub struct CaseStart {
    pub around: List<Statement>,
    pub head: SelectCaseHead,
    pub cases: List<Case>,
}

/// A SELECT CASE construct in which the block of a CASE statement is read
#[derive(Drop)]
pub struct CaseFrame {
    pub start: CaseStart,
    pub part: CaseHead,
}

/// A SELECT RANK construct, read up to the end of a block
#[derive(Drop)]
pub struct RankStart {
    pub around: List<Statement>,
    pub head: SelectRankHead,
    pub ranks: List<RankCase>,
}

/// A SELECT RANK construct in which the block of a RANK statement is read
#[derive(Drop)]
pub struct RankFrame {
    pub start: RankStart,
    pub part: RankHead,
}

/// A construct in which a block is read
#[derive(Drop)]
pub enum Frame {
    If(Boxed<IfFrame>),
    ElseIf(Boxed<ElseIfFrame>),
    Else(Boxed<ElseFrame>),
    Do(Boxed<DoFrame>),
    Case(Boxed<CaseFrame>),
    Rank(Boxed<RankFrame>),
}
