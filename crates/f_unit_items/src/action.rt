//! The names in action statements and in what heads constructs. What stands last is put first.

ghost use Rattle.std.specs.Prelude.{◌≡◌, OnOk, map};
ghost use Rattle.f_unit_items.specs.Fronts.{if_there};
ghost use Rattle.f_unit_items.specs.Expressions.{expression, reference};
ghost use Rattle.f_unit_items.specs.Statements.{call_arguments, objects, assigned, loop_control, case_choice, rank_choice};

use crate::expression::{put_arguments, put_expression, put_expressions, put_reference};
use crate::items::Items;
use crate::put::{HasItems, put_each};
use f_items::{Item, Need};
use f_tree::{
    Action, Argument, CaseChoice, CaseRange, Expression, LoopControl, RankChoice, Reference,
};
use jf_base::List;
use std::alloc::AllocError;

impl HasItems for Reference {
    ghost use Rattle.f_unit_items.specs.Expressions.{reference};

    ghost items = { reference };

    fn put(&self, out: &mut Items) -> Result<(), AllocError> {
        put_reference(out, self)
    }
}

/// Puts the names of an expression in front, where it is there.
pub fn put_if_there(out: &mut Items, e: &Option<Expression>) -> Result<(), AllocError>
    ensures { OnOk result (out.new ≡ if_there expression e.now out.old) }
{
    match e {
        None => Ok(()),
        Some(e) => put_expression(out, e),
    }
}

fn put_status(out: &mut Items, variable: &Option<Reference>) -> Result<(), AllocError>
    ensures { OnOk result (out.new ≡ if_there reference variable.now out.old) }
{
    match variable {
        None => Ok(()),
        Some(variable) => put_reference(out, variable),
    }
}

fn put_call_arguments(out: &mut Items, arguments: &Option<List<Argument>>) -> Result<(), AllocError>
    ensures { OnOk result (out.new ≡ if_there call_arguments arguments.now out.old) }
{
    match arguments {
        None => Ok(()),
        Some(arguments) => {
            out.put(Item::Outside)?;
            put_arguments(out, arguments.as_slice())?;
            out.put(Item::Inside)
        }
    }
}

fn put_objects(
    out: &mut Items,
    all: &[Reference],
    status: &Option<Reference>,
) -> Result<(), AllocError>
    ensures { OnOk result (out.new ≡ objects all.now status.now out.old) }
{
    put_status(out, status)?;
    put_each(out, all)
}

fn put_assigned(out: &mut Items, target: &Reference, value: &Expression) -> Result<(), AllocError>
    ensures { OnOk result (out.new ≡ assigned target.now value.now out.old) }
{
    put_expression(out, value)?;
    put_reference(out, target)
}

impl HasItems for Action {
    ghost use Rattle.f_unit_items.specs.Statements.{action};

    ghost items = { action };

    fn put(&self, out: &mut Items) -> Result<(), AllocError> {
        match self {
            Action::Assign { target, value } => put_assigned(out, target, value),
            Action::Associate { target, value } => put_assigned(out, target, value),
            Action::Call {
                place: _,
                name,
                arguments,
            } => {
                put_call_arguments(out, arguments)?;
                out.refer(name, Need::Called)
            }
            Action::Exit { place: _ } => Ok(()),
            Action::Cycle { place: _ } => Ok(()),
            Action::Return { place: _ } => Ok(()),
            Action::Stop {
                place: _,
                is_error: _,
                code,
            } => put_if_there(out, code),
            Action::Allocate {
                place: _,
                objects,
                status,
            } => put_objects(out, objects.as_slice(), status),
            Action::Deallocate {
                place: _,
                objects,
                status,
            } => put_objects(out, objects.as_slice(), status),
            Action::Nullify { place: _, objects } => put_each(out, objects.as_slice()),
            Action::Print { place: _, items } => put_expressions(out, items.as_slice()),
            Action::Read { place: _, targets } => put_each(out, targets.as_slice()),
            Action::ReadUnit {
                place: _,
                status,
                targets,
            } => {
                put_each(out, targets.as_slice())?;
                put_status(out, status)
            }
        }
    }
}

/// Puts the names in what makes a DO construct go on in front.
pub fn put_control(out: &mut Items, control: &LoopControl) -> Result<(), AllocError>
    ensures { OnOk result (out.new ≡ loop_control control.now out.old) }
{
    match control {
        LoopControl::Endless => Ok(()),
        LoopControl::Count {
            has_comma: _,
            variable,
            first,
            last,
            step,
        } => {
            put_if_there(out, step)?;
            put_expression(out, last)?;
            put_expression(out, first)?;
            out.refer(variable, Need::Variable)
        }
        LoopControl::While {
            has_comma: _,
            condition,
        } => put_expression(out, condition),
    }
}

impl HasItems for CaseRange {
    ghost use Rattle.f_unit_items.specs.Statements.{case_range};

    ghost items = { case_range };

    fn put(&self, out: &mut Items) -> Result<(), AllocError> {
        match self {
            CaseRange::Value(value) => put_expression(out, value),
            CaseRange::From { lower, upper } => {
                put_if_there(out, upper)?;
                put_expression(out, lower)
            }
            CaseRange::UpTo { place: _, upper } => put_expression(out, upper),
        }
    }
}

/// Puts the names in the values that a case is for in front.
pub fn put_case_choice(out: &mut Items, choice: &CaseChoice) -> Result<(), AllocError>
    ensures { OnOk result (out.new ≡ case_choice choice.now out.old) }
{
    match choice {
        CaseChoice::Default => Ok(()),
        CaseChoice::Ranges(ranges) => put_each(out, ranges.as_slice()),
    }
}

/// Puts the names in the rank that a block is for in front.
pub fn put_rank_choice(out: &mut Items, choice: &RankChoice) -> Result<(), AllocError>
    ensures { OnOk result (out.new ≡ rank_choice choice.now out.old) }
{
    match choice {
        RankChoice::Default => Ok(()),
        RankChoice::Rank(rank) => put_expression(out, rank),
        RankChoice::AssumedSize { place: _ } => Ok(()),
    }
}
