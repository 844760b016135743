//! Statements that begin, divide and end constructs, taken apart, each of a kind that is known.

ghost use Rattle.std.specs.Prelude.{◌≡◌};
ghost use Rattle.f_line_grammar.specs.Lines as form;
ghost use Rattle.f_line_read.specs.Lines.{view_line};
ghost use Rattle.f_statement_grammar.specs.Statements as grammar;
ghost use Rattle.f_construct_parts.specs.declared.statements.Next.TheVariants as next;
ghost use Rattle.f_construct_parts.specs.Lines.{action_line, guarded_line, if_line, else_if_line, else_line, loop_line, select_case_line, case_line, select_rank_line, rank_line, end_line};
ghost use Rattle.f_construct_parts.specs.Views.{next_line};

use f_construct_parts::head::{
    ActionHead, CaseHead, DoHead, ElseIfHead, End, IfActionHead, IfHead, RankHead, SelectCaseHead,
    SelectRankHead, ending,
};
use f_line_read::{Construct, Line};
use f_tree::Ending;
use jf_base::Place;

/// An action statement.
#[tactic(auto, unfolding(f_construct_parts::specs::Lines::action_line))]
pub fn action_head(line: Line) -> ActionHead
    requires { next_line line ≡ next.Action }
    ensures { grammar.Executable (view_line line) ≡ action_line result.action }
{
    match line {
        Line::Action(action) => ActionHead { action },
        _ => unreachable!(),
    }
}

/// An IF statement (ISO/IEC 1539-1:2018, 11.1.8.4).
#[tactic(auto, unfolding(f_construct_parts::specs::Lines::guarded_line))]
pub fn if_action_head(line: Line) -> IfActionHead
    requires { next_line line ≡ next.IfAction }
    ensures { grammar.Executable (view_line line) ≡ guarded_line result.condition result.action }
{
    match line {
        Line::IfAction {
            place,
            condition,
            action,
        } => IfActionHead {
            place,
            condition,
            action,
        },
        _ => unreachable!(),
    }
}

/// The first statement of an IF construct.
#[tactic(auto, unfolding(f_construct_parts::specs::Lines::if_line))]
pub fn if_head(line: Line) -> IfHead
    requires { next_line line ≡ next.IfThen }
    ensures { grammar.Executable (view_line line) ≡ if_line result.condition }
{
    match line {
        Line::IfThen { place, condition } => IfHead { place, condition },
        _ => unreachable!(),
    }
}

/// An ELSE IF statement.
#[tactic(auto, unfolding(f_construct_parts::specs::Lines::else_if_line))]
pub fn else_if_head(line: Line) -> ElseIfHead
    requires { next_line line ≡ next.ElseIf }
    ensures { grammar.Executable (view_line line) ≡ else_if_line result.is_one_word result.condition }
{
    match line {
        Line::ElseIf {
            place,
            is_one_word,
            condition,
        } => ElseIfHead {
            place,
            is_one_word,
            condition,
        },
        _ => unreachable!(),
    }
}

/// An ELSE statement.
pub fn else_place(line: Line) -> Place
    requires { next_line line ≡ next.Else }
    ensures { grammar.Executable (view_line line) ≡ else_line }
{
    match line {
        Line::Else { place } => place,
        _ => unreachable!(),
    }
}

/// A DO statement.
#[tactic(auto, unfolding(f_construct_parts::specs::Lines::loop_line))]
pub fn do_head(line: Line) -> DoHead
    requires { next_line line ≡ next.Do }
    ensures { grammar.Executable (view_line line) ≡ loop_line result.control }
{
    match line {
        Line::Do { place, control } => DoHead { place, control },
        _ => unreachable!(),
    }
}

/// The first statement of a SELECT CASE construct.
#[tactic(auto, unfolding(f_construct_parts::specs::Lines::select_case_line))]
pub fn select_case_head(line: Line) -> SelectCaseHead
    requires { next_line line ≡ next.SelectCase }
    ensures { grammar.Executable (view_line line) ≡ select_case_line result.is_one_word result.selector }
{
    match line {
        Line::SelectCase {
            place,
            is_one_word,
            selector,
        } => SelectCaseHead {
            place,
            is_one_word,
            selector,
        },
        _ => unreachable!(),
    }
}

/// A CASE statement.
#[tactic(auto, unfolding(f_construct_parts::specs::Lines::case_line))]
pub fn case_head(line: Line) -> CaseHead
    requires { next_line line ≡ next.Case }
    ensures { grammar.Executable (view_line line) ≡ case_line result.choice }
{
    match line {
        Line::Case { place, choice } => CaseHead { place, choice },
        _ => unreachable!(),
    }
}

/// The first statement of a SELECT RANK construct.
#[tactic(auto, unfolding(f_construct_parts::specs::Lines::select_rank_line))]
pub fn select_rank_head(line: Line) -> SelectRankHead
    requires { next_line line ≡ next.SelectRank }
    ensures { grammar.Executable (view_line line) ≡ select_rank_line result.renamed result.selector }
{
    match line {
        Line::SelectRank {
            place,
            renamed,
            selector,
        } => SelectRankHead {
            place,
            renamed,
            selector,
        },
        _ => unreachable!(),
    }
}

/// A RANK statement.
#[tactic(auto, unfolding(f_construct_parts::specs::Lines::rank_line))]
pub fn rank_head(line: Line) -> RankHead
    requires { next_line line ≡ next.Rank }
    ensures { grammar.Executable (view_line line) ≡ rank_line result.choice }
{
    match line {
        Line::Rank { place, choice } => RankHead { place, choice },
        _ => unreachable!(),
    }
}

fn if_end(line: Line) -> End
    requires { next_line line ≡ next.EndIf }
    ensures { grammar.Executable (view_line line) ≡ grammar.Executable (form.End form.If result.is_one_word) }
{
    match line {
        Line::End {
            place,
            construct: Construct::If,
            is_one_word,
        } => End { place, is_one_word },
        _ => unreachable!(),
    }
}

fn do_end(line: Line) -> End
    requires { next_line line ≡ next.EndDo }
    ensures { grammar.Executable (view_line line) ≡ grammar.Executable (form.End form.Do result.is_one_word) }
{
    match line {
        Line::End {
            place,
            construct: Construct::Do,
            is_one_word,
        } => End { place, is_one_word },
        _ => unreachable!(),
    }
}

fn select_end(line: Line) -> End
    requires { next_line line ≡ next.EndSelect }
    ensures { grammar.Executable (view_line line) ≡ grammar.Executable (form.End form.Select result.is_one_word) }
{
    match line {
        Line::End {
            place,
            construct: Construct::Select,
            is_one_word,
        } => End { place, is_one_word },
        _ => unreachable!(),
    }
}

/// The end of an IF construct.
pub fn if_ending(line: Line) -> Ending
    requires { next_line line ≡ next.EndIf }
    ensures { grammar.Executable (view_line line) ≡ end_line form.If result }
{
    ending(if_end(line))
}

/// The end of a DO construct.
pub fn do_ending(line: Line) -> Ending
    requires { next_line line ≡ next.EndDo }
    ensures { grammar.Executable (view_line line) ≡ end_line form.Do result }
{
    ending(do_end(line))
}

/// The end of a SELECT CASE or SELECT RANK construct.
pub fn select_ending(line: Line) -> Ending
    requires { next_line line ≡ next.EndSelect }
    ensures { grammar.Executable (view_line line) ≡ end_line form.Select result }
{
    ending(select_end(line))
}
