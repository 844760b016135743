//! Statements that begin, divide and end constructs, taken apart.

ghost use Rattle.std.specs.Prelude.{◌≡◌, false, IfOk};
ghost use Rattle.f_line_grammar.specs.Lines as form;
ghost use Rattle.f_line_read.specs.Lines.{view_line};
ghost use Rattle.f_statement_grammar.specs.Statements as grammar;
ghost use Rattle.f_construct_parts.specs.declared.statements.Next.TheVariants as next;
ghost use Rattle.f_construct_parts.specs.Lines.{action_line, guarded_line, if_line, else_if_line, else_line, loop_line, select_case_line, case_line, select_rank_line, rank_line, end_line};
ghost use Rattle.f_construct_parts.specs.Views.{IfMisplaced, next_line, divides_if, is_else, divides_case, divides_rank, ends_if, ends_do, ends_select};

use crate::statements::BlockError;
use f_line_read::{Construct, Line};
use f_tree::{Action, CaseChoice, Ending, EndingForm, Expression, LoopControl, Name, RankChoice};
use jf_base::Place;

/// An action statement
#[derive(Drop)]
pub struct ActionHead {
    pub action: Action,
}

/// `if (condition) action`
#[derive(Drop)]
pub struct IfActionHead {
    pub place: Place,
    pub condition: Expression,
    pub action: Action,
}

/// `if (condition) then`
#[derive(Drop)]
pub struct IfHead {
    pub place: Place,
    pub condition: Expression,
}

/// `else if (condition) then`
#[derive(Drop)]
pub struct ElseIfHead {
    pub place: Place,
    pub is_one_word: bool,
    pub condition: Expression,
}

/// A DO statement
#[derive(Drop)]
pub struct DoHead {
    pub place: Place,
    pub control: LoopControl,
}

/// `select case (selector)`
#[derive(Drop)]
pub struct SelectCaseHead {
    pub place: Place,
    pub is_one_word: bool,
    pub selector: Expression,
}

/// A CASE statement
#[derive(Drop)]
pub struct CaseHead {
    pub place: Place,
    pub choice: CaseChoice,
}

/// `select rank (renamed => selector)`
#[derive(Drop)]
pub struct SelectRankHead {
    pub place: Place,
    pub renamed: Option<Name>,
    pub selector: Name,
}

/// A RANK statement
#[derive(Drop)]
pub struct RankHead {
    pub place: Place,
    pub choice: RankChoice,
}

/// The end of a construct
#[derive(Clone, Copy)]
pub struct End {
    pub place: Place,
    pub is_one_word: bool,
}

#[tactic(auto, unfolding(crate::specs::Lines::action_line))]
pub fn action_head(line: Line) -> Result<ActionHead, BlockError>
    ensures taken { IfOk result (λ h. grammar.Executable (view_line line) ≡ action_line h.action) }
    ensures misplaced { IfMisplaced result (next_line line ≡ next.Action → ⊥) }
{
    match line {
        Line::Action(action) => Ok(ActionHead { action }),
        other => {
            drop(other);
            Err(BlockError::Misplaced)
        }
    }
}

#[tactic(auto, unfolding(crate::specs::Lines::guarded_line))]
pub fn if_action_head(line: Line) -> Result<IfActionHead, BlockError>
    ensures taken { IfOk result (λ h. grammar.Executable (view_line line) ≡ guarded_line h.condition h.action) }
    ensures misplaced { IfMisplaced result (next_line line ≡ next.IfAction → ⊥) }
{
    match line {
        Line::IfAction {
            place,
            condition,
            action,
        } => Ok(IfActionHead {
            place,
            condition,
            action,
        }),
        other => {
            drop(other);
            Err(BlockError::Misplaced)
        }
    }
}

#[tactic(auto, unfolding(crate::specs::Lines::if_line))]
pub fn if_head(line: Line) -> Result<IfHead, BlockError>
    ensures taken { IfOk result (λ h. grammar.Executable (view_line line) ≡ if_line h.condition) }
    ensures misplaced { IfMisplaced result (next_line line ≡ next.IfThen → ⊥) }
{
    match line {
        Line::IfThen { place, condition } => Ok(IfHead { place, condition }),
        other => {
            drop(other);
            Err(BlockError::Misplaced)
        }
    }
}

#[tactic(auto, unfolding(crate::specs::Lines::else_if_line))]
pub fn else_if_head(line: Line) -> Result<ElseIfHead, BlockError>
    ensures taken { IfOk result (λ h. grammar.Executable (view_line line) ≡ else_if_line h.is_one_word h.condition) }
    ensures misplaced { IfMisplaced result (divides_if (next_line line) ≡ false) }
{
    match line {
        Line::ElseIf {
            place,
            is_one_word,
            condition,
        } => Ok(ElseIfHead {
            place,
            is_one_word,
            condition,
        }),
        other => {
            drop(other);
            Err(BlockError::Misplaced)
        }
    }
}

pub fn else_head(line: Line) -> Result<Place, BlockError>
    ensures taken { IfOk result (λ h. grammar.Executable (view_line line) ≡ else_line) }
    ensures misplaced { IfMisplaced result (is_else (next_line line) ≡ false) }
{
    match line {
        Line::Else { place } => Ok(place),
        other => {
            drop(other);
            Err(BlockError::Misplaced)
        }
    }
}

#[tactic(auto, unfolding(crate::specs::Lines::loop_line))]
pub fn do_head(line: Line) -> Result<DoHead, BlockError>
    ensures taken { IfOk result (λ h. grammar.Executable (view_line line) ≡ loop_line h.control) }
    ensures misplaced { IfMisplaced result (next_line line ≡ next.Do → ⊥) }
{
    match line {
        Line::Do { place, control } => Ok(DoHead { place, control }),
        other => {
            drop(other);
            Err(BlockError::Misplaced)
        }
    }
}

#[tactic(auto, unfolding(crate::specs::Lines::select_case_line))]
pub fn select_case_head(line: Line) -> Result<SelectCaseHead, BlockError>
    ensures taken { IfOk result (λ h. grammar.Executable (view_line line) ≡ select_case_line h.is_one_word h.selector) }
    ensures misplaced { IfMisplaced result (next_line line ≡ next.SelectCase → ⊥) }
{
    match line {
        Line::SelectCase {
            place,
            is_one_word,
            selector,
        } => Ok(SelectCaseHead {
            place,
            is_one_word,
            selector,
        }),
        other => {
            drop(other);
            Err(BlockError::Misplaced)
        }
    }
}

#[tactic(auto, unfolding(crate::specs::Lines::case_line))]
pub fn case_head(line: Line) -> Result<CaseHead, BlockError>
    ensures taken { IfOk result (λ h. grammar.Executable (view_line line) ≡ case_line h.choice) }
    ensures misplaced { IfMisplaced result (divides_case (next_line line) ≡ false) }
{
    match line {
        Line::Case { place, choice } => Ok(CaseHead { place, choice }),
        other => {
            drop(other);
            Err(BlockError::Misplaced)
        }
    }
}

#[tactic(auto, unfolding(crate::specs::Lines::select_rank_line))]
pub fn select_rank_head(line: Line) -> Result<SelectRankHead, BlockError>
    ensures taken { IfOk result (λ h. grammar.Executable (view_line line) ≡ select_rank_line h.renamed h.selector) }
    ensures misplaced { IfMisplaced result (next_line line ≡ next.SelectRank → ⊥) }
{
    match line {
        Line::SelectRank {
            place,
            renamed,
            selector,
        } => Ok(SelectRankHead {
            place,
            renamed,
            selector,
        }),
        other => {
            drop(other);
            Err(BlockError::Misplaced)
        }
    }
}

#[tactic(auto, unfolding(crate::specs::Lines::rank_line))]
pub fn rank_head(line: Line) -> Result<RankHead, BlockError>
    ensures taken { IfOk result (λ h. grammar.Executable (view_line line) ≡ rank_line h.choice) }
    ensures misplaced { IfMisplaced result (divides_rank (next_line line) ≡ false) }
{
    match line {
        Line::Rank { place, choice } => Ok(RankHead { place, choice }),
        other => {
            drop(other);
            Err(BlockError::Misplaced)
        }
    }
}

pub fn if_end(line: Line) -> Result<End, BlockError>
    ensures taken { IfOk result (λ h. grammar.Executable (view_line line) ≡ grammar.Executable (form.End form.If h.is_one_word)) }
    ensures misplaced { IfMisplaced result (ends_if (next_line line) ≡ false) }
{
    match line {
        Line::End {
            place,
            construct: Construct::If,
            is_one_word,
        } => Ok(End { place, is_one_word }),
        other => {
            drop(other);
            Err(BlockError::Misplaced)
        }
    }
}

pub fn do_end(line: Line) -> Result<End, BlockError>
    ensures taken { IfOk result (λ h. grammar.Executable (view_line line) ≡ grammar.Executable (form.End form.Do h.is_one_word)) }
    ensures misplaced { IfMisplaced result (ends_do (next_line line) ≡ false) }
{
    match line {
        Line::End {
            place,
            construct: Construct::Do,
            is_one_word,
        } => Ok(End { place, is_one_word }),
        other => {
            drop(other);
            Err(BlockError::Misplaced)
        }
    }
}

pub fn select_end(line: Line) -> Result<End, BlockError>
    ensures taken { IfOk result (λ h. grammar.Executable (view_line line) ≡ grammar.Executable (form.End form.Select h.is_one_word)) }
    ensures misplaced { IfMisplaced result (ends_select (next_line line) ≡ false) }
{
    match line {
        Line::End {
            place,
            construct: Construct::Select,
            is_one_word,
        } => Ok(End { place, is_one_word }),
        other => {
            drop(other);
            Err(BlockError::Misplaced)
        }
    }
}

/// An END statement of a construct as the tree has it.
#[tactic(auto, unfolding(crate::specs::Lines::end_line))]
pub fn ending(end: End) -> Ending
    ensures { (c : form.Construct) → end_line c result ≡ grammar.Executable (form.End c end.is_one_word) }
{
    let form = if end.is_one_word {
        EndingForm::OneWord
    } else {
        EndingForm::TwoWords
    };
    Ending {
        place: end.place,
        form,
        name: None,
    }
}
