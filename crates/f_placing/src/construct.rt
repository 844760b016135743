//! Executable statements and constructs (ISO/IEC 1539-1:2018, 11.1).

ghost use Rattle.std.specs.Prelude.{◌≡◌, ℕ, List};
ghost use Rattle.f_unit_grammar.specs.Units.{begun, if_role, else_role, do_role, cases_role, case_role, ranks_role, rank_role, executed_role};
ghost use Rattle.f_line_read.specs.Lines.{view_line};
ghost use Rattle.f_placing.specs.Views.{view_state, view_scope, view_role};

use crate::state::{Part, Role, Scope, State};
use f_line_read::{Construct, Line};

// An action statement stays, and a construct begins.
fn begun(now: State, line: &Line) -> Role
    ensures { (name inner : List ℕ) → view_role name inner result ≡ begun (view_state name now) (view_line line.now) }
{
    match line {
        Line::Action(_) => Role::Stays(now),
        Line::IfAction { .. } => Role::Stays(now),
        Line::IfThen { .. } => Role::Enters {
            next: now,
            inside: State::If,
        },
        Line::Do { .. } => Role::Enters {
            next: now,
            inside: State::Do,
        },
        Line::SelectCase { .. } => Role::Enters {
            next: now,
            inside: State::SelectCase,
        },
        Line::SelectRank { .. } => Role::Enters {
            next: now,
            inside: State::SelectRank,
        },
        Line::ElseIf { .. } => Role::NoPlace,
        Line::Else { .. } => Role::NoPlace,
        Line::Case { .. } => Role::NoPlace,
        Line::Rank { .. } => Role::NoPlace,
        Line::End { .. } => Role::NoPlace,
    }
}

/// An IF construct before its ELSE.
pub fn if_role(line: &Line) -> Role
    ensures { (name inner : List ℕ) → view_role name inner result ≡ if_role (view_line line.now) }
{
    match line {
        Line::ElseIf { .. } => Role::Stays(State::If),
        Line::Else { .. } => Role::Stays(State::Else),
        Line::End {
            construct: Construct::If,
            ..
        } => Role::Leaves,
        _ => begun(State::If, line),
    }
}

/// An IF construct behind its ELSE.
pub fn else_role(line: &Line) -> Role
    ensures { (name inner : List ℕ) → view_role name inner result ≡ else_role (view_line line.now) }
{
    match line {
        Line::End {
            construct: Construct::If,
            ..
        } => Role::Leaves,
        _ => begun(State::Else, line),
    }
}

pub fn do_role(line: &Line) -> Role
    ensures { (name inner : List ℕ) → view_role name inner result ≡ do_role (view_line line.now) }
{
    match line {
        Line::End {
            construct: Construct::Do,
            ..
        } => Role::Leaves,
        _ => begun(State::Do, line),
    }
}

/// Before the first block of SELECT CASE.
pub fn cases_role(line: &Line) -> Role
    ensures { (name inner : List ℕ) → view_role name inner result ≡ cases_role (view_line line.now) }
{
    match line {
        Line::Case { .. } => Role::Stays(State::Case),
        Line::End {
            construct: Construct::Select,
            ..
        } => Role::Leaves,
        _ => Role::NoPlace,
    }
}

pub fn case_role(line: &Line) -> Role
    ensures { (name inner : List ℕ) → view_role name inner result ≡ case_role (view_line line.now) }
{
    match line {
        Line::Case { .. } => Role::Stays(State::Case),
        Line::End {
            construct: Construct::Select,
            ..
        } => Role::Leaves,
        _ => begun(State::Case, line),
    }
}

/// Before the first block of SELECT RANK.
pub fn ranks_role(line: &Line) -> Role
    ensures { (name inner : List ℕ) → view_role name inner result ≡ ranks_role (view_line line.now) }
{
    match line {
        Line::Rank { .. } => Role::Stays(State::Rank),
        Line::End {
            construct: Construct::Select,
            ..
        } => Role::Leaves,
        _ => Role::NoPlace,
    }
}

pub fn rank_role(line: &Line) -> Role
    ensures { (name inner : List ℕ) → view_role name inner result ≡ rank_role (view_line line.now) }
{
    match line {
        Line::Rank { .. } => Role::Stays(State::Rank),
        Line::End {
            construct: Construct::Select,
            ..
        } => Role::Leaves,
        _ => begun(State::Rank, line),
    }
}

/// Executable statements stand in programs and procedures.
pub fn executed_role(scope: Scope, line: &Line) -> Role
    ensures { (name inner : List ℕ) → view_role name inner result ≡ executed_role (view_scope name scope) (view_line line.now) }
{
    match scope {
        Scope::Program => begun(State::Unit(Scope::Program, Part::Executing), line),
        Scope::Procedure(kind) => begun(State::Unit(Scope::Procedure(kind), Part::Executing), line),
        Scope::Module => Role::NoPlace,
        Scope::InterfaceBody(_) => Role::NoPlace,
    }
}
