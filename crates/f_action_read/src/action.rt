//! Action statements. Each function reads all of its tokens.

ghost use Rattle.std.specs.Prelude.{map};
ghost use Rattle.f_grammar.specs.Grammar.{Refer};
ghost use Rattle.f_grammar.specs.Actions.{Act, Refs};
ghost use Rattle.f_grammar.specs.ActionReading.{ends_at, target_at, set_behind, value_at, call_at, code_at, error_at, objects_at, nullify_at, print_at, targets_at, read_unit_at, read_at, by_word, keyword_at, act_at};
ghost use Rattle.f_expr_read.specs.Gives.{Gives};
ghost use Rattle.f_expr_read.specs.Views.{tokens_of, view_reference};
ghost use Rattle.f_action_read.specs.Actions.{over, stop_of, allocation_of, view_action, called};

use crate::list::{expressions, in_front, references, status};
use crate::mark::{arrow_at, assign_at, closed, comma, opened, star};
use f_expr_read::{ReadError, name_at, open_at, read_expression, read_reference};
use f_lex::Spanned;
use f_tree::{Action, Reference};
use jf_base::{List, Place};
use std::alloc::Global;

// Nothing stands behind what was read.
#[tactic(auto, unfolding(f_grammar::specs::ActionReading::ends_at))]
fn ended(action: Action, tokens: &[Spanned]) -> Result<Action, ReadError>
    ensures { Gives view_action result (ends_at (view_action action) (tokens_of tokens.now)) }
{
    match tokens {
        [] => Ok(action),
        [_, ..] => Err(ReadError::Form),
    }
}

/// A reference and `=` or `=>` that stand first, whether it is `=>`, and what stands behind them.
#[tactic(auto, unfolding(f_grammar::specs::ActionReading::target_at, f_grammar::specs::ActionReading::set_behind))]
pub fn target(alloc: Global, tokens: &[Spanned]) -> Result<(Reference, bool, &[Spanned]), ReadError>
    ensures { Gives (λ x. (view_reference x.0, x.1, tokens_of x.2.now)) result (target_at 65 (tokens_of tokens.now)) }
{
    let (target, rest) = read_reference(alloc, tokens)?;
    match assign_at(rest) {
        Some(rest) => Ok((target, false, rest)),
        None => match arrow_at(rest) {
            Some(rest) => Ok((target, true, rest)),
            None => Err(ReadError::Form),
        },
    }
}

/// The assignment to a target of the value that is all the tokens.
#[tactic(auto, unfolding(f_grammar::specs::ActionReading::value_at))]
pub fn assigned(
    alloc: Global,
    target: Reference,
    is_pointer: bool,
    tokens: &[Spanned],
) -> Result<Action, ReadError>
    ensures { Gives view_action result (value_at 65 (view_reference target, is_pointer, tokens_of tokens.now)) }
{
    let (value, rest) = read_expression(alloc, tokens)?;
    if is_pointer {
        ended(Action::Associate { target, value }, rest)
    } else {
        ended(Action::Assign { target, value }, rest)
    }
}

// CALL of what stands first, where that is a name with its arguments and nothing stands behind it.
fn called(place: Place, designator: Reference, tokens: &[Spanned]) -> Result<Action, ReadError>
    ensures { Gives view_action result (called (view_reference designator) (tokens_of tokens.now)) }
{
    let Reference { first, others } = designator;
    match first.substring {
        Some(_) => Err(ReadError::Form),
        None => match others.as_slice().split_first() {
            Some(_) => Err(ReadError::Form),
            None => ended(
                Action::Call {
                    place,
                    name: first.name,
                    arguments: first.arguments,
                },
                tokens,
            ),
        },
    }
}

#[tactic(auto, using(crate::proofs::Called::call_is))]
fn call(alloc: Global, place: Place, tokens: &[Spanned]) -> Result<Action, ReadError>
    ensures { Gives view_action result (call_at 65 (tokens_of tokens.now)) }
{
    let (designator, rest) = read_reference(alloc, tokens)?;
    called(place, designator, rest)
}

// STOP or ERROR STOP behind its words.
#[tactic(auto, unfolding(f_grammar::specs::ActionReading::code_at))]
fn stop(
    alloc: Global,
    place: Place,
    is_error: bool,
    tokens: &[Spanned],
) -> Result<Action, ReadError>
    ensures { Gives view_action result (code_at 65 (stop_of is_error) (tokens_of tokens.now)) }
{
    match tokens {
        [] => Ok(Action::Stop {
            place,
            is_error,
            code: None,
        }),
        [_, ..] => {
            let (code, rest) = read_expression(alloc, tokens)?;
            let code = Some(code);
            ended(
                Action::Stop {
                    place,
                    is_error,
                    code,
                },
                rest,
            )
        }
    }
}

#[tactic(auto, unfolding(f_grammar::specs::ActionReading::error_at))]
fn error(alloc: Global, place: Place, tokens: &[Spanned]) -> Result<Action, ReadError>
    ensures { Gives view_action result (error_at 65 (tokens_of tokens.now)) }
{
    match name_at(tokens) {
        None => Err(ReadError::Form),
        Some((word, _, rest)) => {
            if word.as_slice() == "stop".as_bytes() {
                stop(alloc, place, true, rest)
            } else {
                Err(ReadError::Form)
            }
        }
    }
}

// DEALLOCATE or ALLOCATE behind its word.
#[tactic(auto, unfolding(f_grammar::specs::ActionReading::objects_at))]
fn allocation(
    alloc: Global,
    place: Place,
    is_deallocation: bool,
    tokens: &[Spanned],
) -> Result<Action, ReadError>
    ensures { Gives view_action result (objects_at 65 (allocation_of is_deallocation) (tokens_of tokens.now)) }
{
    let rest = opened(tokens)?;
    let (first, rest) = read_reference(alloc, rest)?;
    let (others, rest) = references(alloc, "stat", rest)?;
    let (status, rest) = status(alloc, "stat", rest)?;
    let rest = closed(rest)?;
    let objects = in_front(first, others)?;
    if is_deallocation {
        ended(
            Action::Deallocate {
                place,
                objects,
                status,
            },
            rest,
        )
    } else {
        ended(
            Action::Allocate {
                place,
                objects,
                status,
            },
            rest,
        )
    }
}

#[tactic(auto, unfolding(f_grammar::specs::ActionReading::nullify_at))]
fn nullify(alloc: Global, place: Place, tokens: &[Spanned]) -> Result<Action, ReadError>
    ensures { Gives view_action result (nullify_at 65 (tokens_of tokens.now)) }
{
    let rest = opened(tokens)?;
    let (first, rest) = read_reference(alloc, rest)?;
    let (others, rest) = references(alloc, "stat", rest)?;
    let rest = closed(rest)?;
    let objects = in_front(first, others)?;
    ended(Action::Nullify { place, objects }, rest)
}

#[tactic(auto, unfolding(f_grammar::specs::ActionReading::print_at))]
fn print(alloc: Global, place: Place, tokens: &[Spanned]) -> Result<Action, ReadError>
    ensures { Gives view_action result (print_at 65 (tokens_of tokens.now)) }
{
    let rest = star(tokens)?;
    let (items, rest) = expressions(alloc, rest)?;
    let items = List::from_vec(items);
    ended(Action::Print { place, items }, rest)
}

// References up to the end.
#[tactic(auto, unfolding(f_grammar::specs::ActionReading::targets_at, f_grammar::specs::ActionReading::ends_at))]
fn targets(alloc: Global, tokens: &[Spanned]) -> Result<List<Reference>, ReadError>
    ensures { (make : Refer → Refs → Act) → Gives (λ x. over (map view_reference x) make) result (targets_at 65 make (tokens_of tokens.now)) }
{
    let (first, rest) = read_reference(alloc, tokens)?;
    let (others, rest) = references(alloc, "stat", rest)?;
    match rest {
        [] => Ok(in_front(first, others)?),
        [_, ..] => Err(ReadError::Form),
    }
}

// READ behind its `(`.
#[tactic(auto, unfolding(f_grammar::specs::ActionReading::read_unit_at))]
fn read_unit(alloc: Global, place: Place, tokens: &[Spanned]) -> Result<Action, ReadError>
    ensures { Gives view_action result (read_unit_at 65 (tokens_of tokens.now)) }
{
    let rest = star(tokens)?;
    let rest = comma(rest)?;
    let rest = star(rest)?;
    let (status, rest) = status(alloc, "iostat", rest)?;
    let rest = closed(rest)?;
    let targets = targets(alloc, rest)?;
    Ok(Action::ReadUnit {
        place,
        status,
        targets,
    })
}

#[tactic(auto, unfolding(f_grammar::specs::ActionReading::read_at))]
fn read(alloc: Global, place: Place, tokens: &[Spanned]) -> Result<Action, ReadError>
    ensures { Gives view_action result (read_at 65 (tokens_of tokens.now)) }
{
    match open_at(tokens) {
        Some((_, rest)) => read_unit(alloc, place, rest),
        None => {
            let rest = star(tokens)?;
            let rest = comma(rest)?;
            let targets = targets(alloc, rest)?;
            Ok(Action::Read { place, targets })
        }
    }
}

/// The action statement that a word begins, from the tokens behind the word, which are all that is left of the statement.
#[tactic(auto, unfolding(f_grammar::specs::ActionReading::by_word))]
pub fn by_word(
    alloc: Global,
    word: &List<u8>,
    place: Place,
    tokens: &[Spanned],
) -> Result<Action, ReadError>
    ensures { Gives view_action result (by_word 65 word.now (tokens_of tokens.now)) }
{
    let word = word.as_slice();
    if word == "call".as_bytes() {
        return call(alloc, place, tokens);
    }
    if word == "exit".as_bytes() {
        return ended(Action::Exit { place }, tokens);
    }
    if word == "cycle".as_bytes() {
        return ended(Action::Cycle { place }, tokens);
    }
    if word == "return".as_bytes() {
        return ended(Action::Return { place }, tokens);
    }
    if word == "stop".as_bytes() {
        return stop(alloc, place, false, tokens);
    }
    if word == "error".as_bytes() {
        return error(alloc, place, tokens);
    }
    if word == "allocate".as_bytes() {
        return allocation(alloc, place, false, tokens);
    }
    if word == "deallocate".as_bytes() {
        return allocation(alloc, place, true, tokens);
    }
    if word == "nullify".as_bytes() {
        return nullify(alloc, place, tokens);
    }
    if word == "print".as_bytes() {
        return print(alloc, place, tokens);
    }
    if word == "read".as_bytes() {
        return read(alloc, place, tokens);
    }
    Err(ReadError::Form)
}

#[tactic(auto, unfolding(f_grammar::specs::ActionReading::keyword_at))]
fn keyword(alloc: Global, tokens: &[Spanned]) -> Result<Action, ReadError>
    ensures { Gives view_action result (keyword_at 65 (tokens_of tokens.now)) }
{
    match name_at(tokens) {
        None => Err(ReadError::Form),
        Some((word, place, rest)) => by_word(alloc, word, place, rest),
    }
}

/// The action statement that all the tokens are, without the end of the statement (ISO/IEC 1539-1:2018, 5.1, R515). Where a reference and `=` or
/// `=>` stand first it is an assignment, since keywords aren't reserved. `Form` says that the tokens are none.
#[tactic(auto, unfolding(f_grammar::specs::ActionReading::act_at))]
pub fn read_action(alloc: Global, tokens: &[Spanned]) -> Result<Action, ReadError>
    ensures exact { Gives view_action result (act_at 65 (tokens_of tokens.now)) }
{
    match target(alloc, tokens) {
        Ok((target, is_pointer, rest)) => assigned(alloc, target, is_pointer, rest),
        Err(ReadError::Memory) => Err(ReadError::Memory),
        Err(ReadError::Form) => keyword(alloc, tokens),
    }
}
