//! The tokens of action statements and of what heads constructs. What stands last is put first.

ghost use Rattle.std.specs.Prelude.{◌≡◌, OnOk, map, codes};
ghost use Rattle.f_tree.specs.Lexemes.{if_there, when, mark_of, placed_word, listed, in_parentheses};
ghost use Rattle.f_lex.specs.declared.token.Mark.TheVariants.{Open, Close, Comma, Star};
ghost use Rattle.f_tree.specs.Expressions.{expression, reference};
ghost use Rattle.f_tree.specs.Statements.{call_arguments, status, objects, stop_words, behind_comma, loop_control, condition_of, case_choice, rank_choice, rank_selector};

use crate::expression::{Argument, Expression, Reference};
use crate::lexeme::Lexemes;
use crate::name::Name;
use crate::spell::{Spell, put_behind_commas, put_listed};
use crate::spell_declaration::put_if_there;
use crate::spell_expression::{put_arguments, put_expression, put_reference};
use crate::statement::{Action, CaseChoice, CaseRange, LoopControl, RankChoice};
use f_lex::Mark;
use jf_base::{List, Place};
use std::alloc::AllocError;

impl Spell for Expression {
    ghost use Rattle.f_tree.specs.Expressions.{expression};

    ghost spelled = { expression };

    fn put(&self, out: &mut Lexemes) -> Result<(), AllocError> {
        put_expression(out, self)
    }
}

impl Spell for Reference {
    ghost use Rattle.f_tree.specs.Expressions.{reference};

    ghost spelled = { reference };

    fn put(&self, out: &mut Lexemes) -> Result<(), AllocError> {
        put_reference(out, self)
    }
}

fn put_call_arguments(
    out: &mut Lexemes,
    arguments: &Option<List<Argument>>,
) -> Result<(), AllocError>
    ensures { OnOk result (out.new ≡ if_there call_arguments arguments.now out.old) }
{
    match arguments {
        None => Ok(()),
        Some(arguments) => {
            out.mark(Mark::Close)?;
            put_arguments(out, arguments.as_slice())?;
            out.mark(Mark::Open)
        }
    }
}

fn put_status(out: &mut Lexemes, word: &str, variable: &Option<Reference>) -> Result<(), AllocError>
    ensures { OnOk result (out.new ≡ if_there (status word.now) variable.now out.old) }
{
    match variable {
        None => Ok(()),
        Some(variable) => {
            put_reference(out, variable)?;
            out.mark(Mark::Assign)?;
            out.word(word)?;
            out.mark(Mark::Comma)
        }
    }
}

fn put_objects(
    out: &mut Lexemes,
    all: &[Reference],
    stat: &Option<Reference>,
) -> Result<(), AllocError>
    ensures { OnOk result (out.new ≡ objects all.now stat.now out.old) }
{
    out.mark(Mark::Close)?;
    put_status(out, "stat", stat)?;
    put_listed(out, all)?;
    out.mark(Mark::Open)
}

fn put_stop_words(out: &mut Lexemes, is_error: bool, place: Place) -> Result<(), AllocError>
    ensures { OnOk result (out.new ≡ stop_words is_error place out.old) }
{
    if is_error {
        out.word("stop")?;
        out.placed_word("error", place)
    } else {
        out.placed_word("stop", place)
    }
}

fn put_read_unit(
    out: &mut Lexemes,
    place: Place,
    stat: &Option<Reference>,
    targets: &[Reference],
) -> Result<(), AllocError>
    ensures { OnOk result (out.new ≡ placed_word (codes "read") place (mark_of Open (mark_of Star (mark_of Comma (mark_of Star (if_there (status (codes "iostat")) stat.now (mark_of Close (listed (map reference targets.now) out.old)))))))) }
{
    put_listed(out, targets)?;
    out.mark(Mark::Close)?;
    put_status(out, "iostat", stat)?;
    out.mark(Mark::Star)?;
    out.mark(Mark::Comma)?;
    out.mark(Mark::Star)?;
    out.mark(Mark::Open)?;
    out.placed_word("read", place)
}

fn put_nullify(out: &mut Lexemes, all: &[Reference], place: Place) -> Result<(), AllocError>
    ensures { OnOk result (out.new ≡ placed_word (codes "nullify") place (in_parentheses (listed (map reference all.now)) out.old)) }
{
    out.mark(Mark::Close)?;
    put_listed(out, all)?;
    out.mark(Mark::Open)?;
    out.placed_word("nullify", place)
}

fn put_assigned(
    out: &mut Lexemes,
    target: &Reference,
    mark: Mark,
    value: &Expression,
) -> Result<(), AllocError>
    ensures { OnOk result (out.new ≡ reference target.now (mark_of mark (expression value.now out.old))) }
{
    put_expression(out, value)?;
    out.mark(mark)?;
    put_reference(out, target)
}

impl Spell for Action {
    ghost use Rattle.f_tree.specs.Statements.{action};

    ghost spelled = { action };

    fn put(&self, out: &mut Lexemes) -> Result<(), AllocError> {
        match self {
            Action::Assign { target, value } => put_assigned(out, target, Mark::Assign, value),
            Action::Associate { target, value } => put_assigned(out, target, Mark::Arrow, value),
            Action::Call {
                place,
                name,
                arguments,
            } => {
                put_call_arguments(out, arguments)?;
                out.name(name)?;
                out.placed_word("call", *place)
            }
            Action::Exit { place } => out.placed_word("exit", *place),
            Action::Cycle { place } => out.placed_word("cycle", *place),
            Action::Return { place } => out.placed_word("return", *place),
            Action::Stop {
                place,
                is_error,
                code,
            } => {
                put_if_there(out, code)?;
                put_stop_words(out, *is_error, *place)
            }
            Action::Allocate {
                place,
                objects,
                status,
            } => {
                put_objects(out, objects.as_slice(), status)?;
                out.placed_word("allocate", *place)
            }
            Action::Deallocate {
                place,
                objects,
                status,
            } => {
                put_objects(out, objects.as_slice(), status)?;
                out.placed_word("deallocate", *place)
            }
            Action::Nullify { place, objects } => put_nullify(out, objects.as_slice(), *place),
            Action::Print { place, items } => {
                put_behind_commas(out, items.as_slice())?;
                out.mark(Mark::Star)?;
                out.placed_word("print", *place)
            }
            Action::Read { place, targets } => {
                put_listed(out, targets.as_slice())?;
                out.mark(Mark::Comma)?;
                out.mark(Mark::Star)?;
                out.placed_word("read", *place)
            }
            Action::ReadUnit {
                place,
                status,
                targets,
            } => put_read_unit(out, *place, status, targets.as_slice()),
        }
    }
}

fn put_step(out: &mut Lexemes, step: &Option<Expression>) -> Result<(), AllocError>
    ensures { OnOk result (out.new ≡ if_there behind_comma step.now out.old) }
{
    match step {
        None => Ok(()),
        Some(step) => {
            put_expression(out, step)?;
            out.mark(Mark::Comma)
        }
    }
}

fn put_comma(out: &mut Lexemes, is_there: bool) -> Result<(), AllocError>
    ensures { OnOk result (out.new ≡ when is_there (mark_of Comma) out.old) }
{
    if is_there {
        out.mark(Mark::Comma)?;
    }
    Ok(())
}

/// Puts what makes a DO construct go on in front.
pub fn put_control(out: &mut Lexemes, control: &LoopControl) -> Result<(), AllocError>
    ensures { OnOk result (out.new ≡ loop_control control.now out.old) }
{
    match control {
        LoopControl::Endless => Ok(()),
        LoopControl::Count {
            has_comma,
            variable,
            first,
            last,
            step,
        } => {
            put_step(out, step)?;
            put_expression(out, last)?;
            out.mark(Mark::Comma)?;
            put_expression(out, first)?;
            out.mark(Mark::Assign)?;
            out.name(variable)?;
            put_comma(out, *has_comma)
        }
        LoopControl::While {
            has_comma,
            condition,
        } => {
            put_condition(out, condition)?;
            out.word("while")?;
            put_comma(out, *has_comma)
        }
    }
}

/// Puts an expression in parentheses in front.
pub fn put_condition(out: &mut Lexemes, condition: &Expression) -> Result<(), AllocError>
    ensures { OnOk result (out.new ≡ condition_of condition.now out.old) }
{
    out.mark(Mark::Close)?;
    put_expression(out, condition)?;
    out.mark(Mark::Open)
}

impl Spell for CaseRange {
    ghost use Rattle.f_tree.specs.Statements.{case_range};

    ghost spelled = { case_range };

    fn put(&self, out: &mut Lexemes) -> Result<(), AllocError> {
        match self {
            CaseRange::Value(value) => put_expression(out, value),
            CaseRange::From { lower, upper } => {
                put_if_there(out, upper)?;
                out.mark(Mark::Colon)?;
                put_expression(out, lower)
            }
            CaseRange::UpTo { place, upper } => {
                put_expression(out, upper)?;
                out.placed_mark(Mark::Colon, *place)
            }
        }
    }
}

/// Puts the values that a case is for in front.
pub fn put_case_choice(out: &mut Lexemes, choice: &CaseChoice) -> Result<(), AllocError>
    ensures { OnOk result (out.new ≡ case_choice choice.now out.old) }
{
    match choice {
        CaseChoice::Default => out.word("default"),
        CaseChoice::Ranges(ranges) => {
            out.mark(Mark::Close)?;
            put_listed(out, ranges.as_slice())?;
            out.mark(Mark::Open)
        }
    }
}

/// Puts the rank that a block is for in front.
pub fn put_rank_choice(out: &mut Lexemes, choice: &RankChoice) -> Result<(), AllocError>
    ensures { OnOk result (out.new ≡ rank_choice choice.now out.old) }
{
    match choice {
        RankChoice::Default => out.word("default"),
        RankChoice::Rank(rank) => put_condition(out, rank),
        RankChoice::AssumedSize { place } => {
            out.mark(Mark::Close)?;
            out.placed_mark(Mark::Star, *place)?;
            out.mark(Mark::Open)
        }
    }
}

/// Puts the selector of a SELECT RANK construct in front.
pub fn put_rank_selector(
    out: &mut Lexemes,
    renamed: &Option<Name>,
    selector: &Name,
) -> Result<(), AllocError>
    ensures { OnOk result (out.new ≡ in_parentheses (rank_selector renamed.now selector.now) out.old) }
{
    out.mark(Mark::Close)?;
    out.name(selector)?;
    match renamed {
        None => out.mark(Mark::Open),
        Some(renamed) => {
            out.mark(Mark::Arrow)?;
            out.name(renamed)?;
            out.mark(Mark::Open)
        }
    }
}
