//! What a statement does where something is open.

ghost use Rattle.std.specs.Prelude.{◌≡◌, ℕ, List};
ghost use Rattle.f_statement_grammar.specs.Statements.{Executable, Declaring};
ghost use Rattle.f_unit_grammar.specs.Units.{role};
ghost use Rattle.f_line_read.specs.Lines.{view_line};
ghost use Rattle.f_declared.specs.Views.{view_declared};
ghost use Rattle.f_statement_read.specs.Views.{view_statement};
ghost use Rattle.f_placing.specs.Views.{view_state, view_role, name_declared, name_begun};

use crate::construct::{
    case_role, cases_role, do_role, else_role, executed_role, if_role, rank_role, ranks_role,
};
use crate::state::{Role, State};
use crate::unit::{containing_role, declared_role, file_role, interface_role, type_role};
use f_declared::Declared;
use f_line_read::Line;
use f_statement_read::Statement;
use jf_base::List;

#[tactic(auto, unfolding(f_unit_grammar::specs::Units::role))]
fn executable(state: State, line: &Line) -> Role
    ensures { (name inner : List ℕ) → view_role name inner result ≡ role (view_state name state) (Executable (view_line line.now)) }
{
    match state {
        State::Unit(scope, _) => executed_role(scope, line),
        State::If => if_role(line),
        State::Else => else_role(line),
        State::Do => do_role(line),
        State::SelectCase => cases_role(line),
        State::Case => case_role(line),
        State::SelectRank => ranks_role(line),
        State::Rank => rank_role(line),
        State::File => Role::NoPlace,
        State::Containing => Role::NoPlace,
        State::Type => Role::NoPlace,
        State::Interface => Role::NoPlace,
    }
}

#[tactic(auto, unfolding(f_unit_grammar::specs::Units::role))]
fn declaration(state: State, name: &List<u8>, declared: &Declared) -> Role
    ensures { view_role name.now (name_declared (view_declared declared.now)) result ≡ role (view_state name.now state) (Declaring (view_declared declared.now)) }
{
    match state {
        State::File => file_role(declared),
        State::Unit(scope, part) => declared_role(scope, part, name, declared),
        State::Containing => containing_role(name, declared),
        State::Type => type_role(name, declared),
        State::Interface => interface_role(declared),
        State::If => Role::NoPlace,
        State::Else => Role::NoPlace,
        State::Do => Role::NoPlace,
        State::SelectCase => Role::NoPlace,
        State::Case => Role::NoPlace,
        State::SelectRank => Role::NoPlace,
        State::Rank => Role::NoPlace,
    }
}

/// What a statement does where this is open (ISO/IEC 1539-1:2018, 5.1 to 5.3): it stays in that, it begins something else inside, it ends that, or it
/// has no place there. The name is that of the unit or the derived type that is open, and an END statement with another has no place. What begins has
/// the name that `name_begun` tells.
pub fn role(state: State, name: &List<u8>, statement: &Statement) -> Role
    ensures exact { view_role name.now (name_begun (view_statement statement.now)) result ≡ role (view_state name.now state) (view_statement statement.now) }
{
    match statement {
        Statement::Executable(line) => executable(state, line),
        Statement::Declaring(declared) => declaration(state, name, declared),
    }
}
