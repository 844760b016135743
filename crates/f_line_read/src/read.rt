//! The statement that all the tokens are.

ghost use Rattle.std.specs.Prelude.{◌≡◌};
ghost use Rattle.f_grammar.specs.Grammar.{Maybe};
ghost use Rattle.f_line_grammar.specs.Lines as form;
ghost use Rattle.f_line_grammar.specs.LineReading.{then_at, tested_line, ends_line, behind_test, if_at, else_at, step_at, count_at, while_at, control_at, do_at, end_at, line_at, simple};
ghost use Rattle.f_grammar.specs.ActionReading.{by_word, value_at};
ghost use Rattle.f_expr_read.specs.Gives.{Gives};
ghost use Rattle.f_expr_read.specs.Views.{tokens_of, view, view_maybe, view_reference};
ghost use Rattle.f_line_read.specs.Lines.{view_line, view_construct, while_line};
ghost use Rattle.f_line_read.specs.Words.{end_by_word, select_by_word, by_first_word, worded, by_words};

use crate::case::{case, ended, ended_with, rank, select, select_case, test};
use crate::line::{Construct, Line};
use f_action_read::{assigned, by_word, comma, copied, read_action, target};
use f_expr_read::{ReadError, comma_at, key_at, name_at, read_expression};
use f_lex::Spanned;
use f_tree::{Expression, LoopControl, Name, Reference};
use jf_base::{List, Place};
use std::alloc::Global;

// ELSE IF behind its words.
#[tactic(auto, unfolding(f_line_grammar::specs::LineReading::then_at))]
fn else_if(
    alloc: Global,
    place: Place,
    is_one_word: bool,
    tokens: &[Spanned],
) -> Result<Line, ReadError>
    ensures { Gives view_line result (then_at 65 (form.ElseIf is_one_word) (tokens_of tokens.now)) }
{
    let (condition, rest) = test(alloc, tokens)?;
    ended_with(
        "then",
        Line::ElseIf {
            place,
            is_one_word,
            condition,
        },
        rest,
    )
}

// What stands behind the test of IF: an action statement, or THEN.
#[tactic(auto, unfolding(f_line_grammar::specs::LineReading::behind_test))]
fn behind_test(
    alloc: Global,
    place: Place,
    condition: Expression,
    tokens: &[Spanned],
) -> Result<Line, ReadError>
    ensures { Gives view_line result (behind_test 65 (view condition) (tokens_of tokens.now)) }
{
    match read_action(alloc, tokens) {
        Ok(action) => Ok(Line::IfAction {
            place,
            condition,
            action,
        }),
        Err(ReadError::Memory) => Err(ReadError::Memory),
        Err(ReadError::Form) => ended_with("then", Line::IfThen { place, condition }, tokens),
    }
}

#[tactic(auto, unfolding(f_line_grammar::specs::LineReading::if_at))]
fn if_statement(alloc: Global, place: Place, tokens: &[Spanned]) -> Result<Line, ReadError>
    ensures { Gives view_line result (if_at 65 (tokens_of tokens.now)) }
{
    let (condition, rest) = test(alloc, tokens)?;
    behind_test(alloc, place, condition, rest)
}

#[tactic(auto, unfolding(f_line_grammar::specs::LineReading::else_at))]
fn else_statement(alloc: Global, place: Place, tokens: &[Spanned]) -> Result<Line, ReadError>
    ensures { Gives view_line result (else_at 65 (tokens_of tokens.now)) }
{
    match tokens {
        [] => Ok(Line::Else { place }),
        [_, ..] => match name_at(tokens) {
            None => Err(ReadError::Form),
            Some((word, _, rest)) => {
                if word.as_slice() == "if".as_bytes() {
                    else_if(alloc, place, false, rest)
                } else {
                    Err(ReadError::Form)
                }
            }
        },
    }
}

// The step of a counted DO, up to the end.
#[tactic(auto, unfolding(f_line_grammar::specs::LineReading::step_at, f_line_grammar::specs::LineReading::ends_line))]
fn step(alloc: Global, tokens: &[Spanned]) -> Result<Option<Expression>, ReadError>
    ensures { (make : Maybe → form.Line) → Gives (λ x. make (view_maybe x)) result (step_at 65 make (tokens_of tokens.now)) }
{
    match tokens {
        [] => Ok(None),
        [_, ..] => {
            let rest = comma(tokens)?;
            let (step, rest) = read_expression(alloc, rest)?;
            match rest {
                [] => Ok(Some(step)),
                [_, ..] => Err(ReadError::Form),
            }
        }
    }
}

// A counted DO behind its variable and `=`.
#[tactic(auto, unfolding(f_line_grammar::specs::LineReading::count_at))]
fn count(
    alloc: Global,
    place: Place,
    has_comma: bool,
    variable: Name,
    tokens: &[Spanned],
) -> Result<Line, ReadError>
    ensures { Gives view_line result (count_at 65 has_comma variable.bytes (tokens_of tokens.now)) }
{
    let (first, rest) = read_expression(alloc, tokens)?;
    let rest = comma(rest)?;
    let (last, rest) = read_expression(alloc, rest)?;
    let step = step(alloc, rest)?;
    let control = LoopControl::Count {
        has_comma,
        variable,
        first,
        last,
        step,
    };
    Ok(Line::Do { place, control })
}

// DO WHILE behind its test.
#[tactic(auto, unfolding(f_line_grammar::specs::LineReading::tested_line))]
fn tested(
    alloc: Global,
    place: Place,
    has_comma: bool,
    tokens: &[Spanned],
) -> Result<Line, ReadError>
    ensures { Gives view_line result (tested_line 65 (while_line has_comma) (tokens_of tokens.now)) }
{
    let (condition, rest) = test(alloc, tokens)?;
    let control = LoopControl::While {
        has_comma,
        condition,
    };
    ended(Line::Do { place, control }, rest)
}

#[tactic(auto, unfolding(f_line_grammar::specs::LineReading::while_at))]
fn while_statement(
    alloc: Global,
    place: Place,
    has_comma: bool,
    tokens: &[Spanned],
) -> Result<Line, ReadError>
    ensures { Gives view_line result (while_at 65 has_comma (tokens_of tokens.now)) }
{
    match name_at(tokens) {
        None => Err(ReadError::Form),
        Some((word, _, rest)) => {
            if word.as_slice() == "while".as_bytes() {
                tested(alloc, place, has_comma, rest)
            } else {
                Err(ReadError::Form)
            }
        }
    }
}

#[tactic(auto, unfolding(f_line_grammar::specs::LineReading::control_at))]
fn control(
    alloc: Global,
    place: Place,
    has_comma: bool,
    tokens: &[Spanned],
) -> Result<Line, ReadError>
    ensures { Gives view_line result (control_at 65 has_comma (tokens_of tokens.now)) }
{
    match key_at(tokens) {
        None => while_statement(alloc, place, has_comma, tokens),
        Some((name, at, rest)) => {
            let variable = copied(alloc, name, at)?;
            count(alloc, place, has_comma, variable, rest)
        }
    }
}

#[tactic(auto, unfolding(f_line_grammar::specs::LineReading::do_at))]
fn do_statement(alloc: Global, place: Place, tokens: &[Spanned]) -> Result<Line, ReadError>
    ensures { Gives view_line result (do_at 65 (tokens_of tokens.now)) }
{
    match tokens {
        [] => {
            let control = LoopControl::Endless;
            Ok(Line::Do { place, control })
        }
        [_, ..] => match comma_at(tokens) {
            None => control(alloc, place, false, tokens),
            Some((_, rest)) => control(alloc, place, true, rest),
        },
    }
}

// END behind its word.
#[tactic(auto, unfolding(f_line_grammar::specs::LineReading::end_at))]
fn end(place: Place, tokens: &[Spanned]) -> Result<Line, ReadError>
    ensures { Gives view_line result (end_at (tokens_of tokens.now)) }
{
    match name_at(tokens) {
        None => Err(ReadError::Form),
        Some((word, _, rest)) => {
            let word = word.as_slice();
            if word == "if".as_bytes() {
                return end_of(place, Construct::If, false, rest);
            }
            if word == "do".as_bytes() {
                return end_of(place, Construct::Do, false, rest);
            }
            if word == "select".as_bytes() {
                return end_of(place, Construct::Select, false, rest);
            }
            Err(ReadError::Form)
        }
    }
}

fn end_of(
    place: Place,
    construct: Construct,
    is_one_word: bool,
    tokens: &[Spanned],
) -> Result<Line, ReadError>
    ensures { Gives view_line result (ends_line (form.End (view_construct construct) is_one_word) (tokens_of tokens.now)) }
{
    ended(
        Line::End {
            place,
            construct,
            is_one_word,
        },
        tokens,
    )
}

fn simple(
    alloc: Global,
    word: &List<u8>,
    place: Place,
    tokens: &[Spanned],
) -> Result<Line, ReadError>
    ensures { Gives view_line result (simple (by_word 65 word.now (tokens_of tokens.now))) }
{
    Ok(Line::Action(by_word(alloc, word, place, tokens)?))
}

// The end of a construct, or an action statement, by its first word.
#[tactic(auto, unfolding(crate::specs::Words::end_by_word))]
fn end_by_word(
    alloc: Global,
    word: &List<u8>,
    place: Place,
    tokens: &[Spanned],
) -> Result<Line, ReadError>
    ensures { Gives view_line result (end_by_word 65 word.now (tokens_of tokens.now)) }
{
    let bytes = word.as_slice();
    if bytes == "end".as_bytes() {
        return end(place, tokens);
    }
    if bytes == "endif".as_bytes() {
        return end_of(place, Construct::If, true, tokens);
    }
    if bytes == "enddo".as_bytes() {
        return end_of(place, Construct::Do, true, tokens);
    }
    if bytes == "endselect".as_bytes() {
        return end_of(place, Construct::Select, true, tokens);
    }
    simple(alloc, word, place, tokens)
}

// SELECT and the blocks in it, or what end_by_word reads, by its first word.
#[tactic(auto, unfolding(crate::specs::Words::select_by_word))]
fn select_by_word(
    alloc: Global,
    word: &List<u8>,
    place: Place,
    tokens: &[Spanned],
) -> Result<Line, ReadError>
    ensures { Gives view_line result (select_by_word 65 word.now (tokens_of tokens.now)) }
{
    let bytes = word.as_slice();
    if bytes == "selectcase".as_bytes() {
        return select_case(alloc, place, true, tokens);
    }
    if bytes == "select".as_bytes() {
        return select(alloc, place, tokens);
    }
    if bytes == "case".as_bytes() {
        return case(alloc, place, tokens);
    }
    if bytes == "rank".as_bytes() {
        return rank(alloc, place, tokens);
    }
    end_by_word(alloc, word, place, tokens)
}

// The statement that a word begins.
#[tactic(auto, unfolding(crate::specs::Words::by_first_word))]
fn by_first_word(
    alloc: Global,
    word: &List<u8>,
    place: Place,
    tokens: &[Spanned],
) -> Result<Line, ReadError>
    ensures { Gives view_line result (by_first_word 65 word.now (tokens_of tokens.now)) }
{
    let bytes = word.as_slice();
    if bytes == "if".as_bytes() {
        return if_statement(alloc, place, tokens);
    }
    if bytes == "elseif".as_bytes() {
        return else_if(alloc, place, true, tokens);
    }
    if bytes == "else".as_bytes() {
        return else_statement(alloc, place, tokens);
    }
    if bytes == "do".as_bytes() {
        return do_statement(alloc, place, tokens);
    }
    select_by_word(alloc, word, place, tokens)
}

#[tactic(auto, unfolding(crate::specs::Words::worded))]
fn worded(alloc: Global, tokens: &[Spanned]) -> Result<Line, ReadError>
    ensures { Gives view_line result (worded 65 (tokens_of tokens.now)) }
{
    match name_at(tokens) {
        None => Err(ReadError::Form),
        Some((word, place, rest)) => by_first_word(alloc, word, place, rest),
    }
}

fn assignment(
    alloc: Global,
    target: Reference,
    is_pointer: bool,
    tokens: &[Spanned],
) -> Result<Line, ReadError>
    ensures { Gives view_line result (simple (value_at 65 (view_reference target, is_pointer, tokens_of tokens.now))) }
{
    Ok(Line::Action(assigned(alloc, target, is_pointer, tokens)?))
}

#[tactic(auto, unfolding(crate::specs::Words::by_words))]
fn by_words(alloc: Global, tokens: &[Spanned]) -> Result<Line, ReadError>
    ensures { Gives view_line result (by_words 65 (tokens_of tokens.now)) }
{
    match target(alloc, tokens) {
        Ok((target, is_pointer, rest)) => assignment(alloc, target, is_pointer, rest),
        Err(ReadError::Memory) => Err(ReadError::Memory),
        Err(ReadError::Form) => worded(alloc, tokens),
    }
}

/// The statement of an executable part that all the tokens are, without the end of the statement (ISO/IEC 1539-1:2018, 5.1 and 11.1). Where a
/// reference and `=` or `=>` stand first it is an assignment, since keywords aren't reserved. Expressions keep to 64 nestings. `Form` says that the
/// tokens are none.
pub fn read_line(alloc: Global, tokens: &[Spanned]) -> Result<Line, ReadError>
    ensures exact { Gives view_line result (line_at 65 (tokens_of tokens.now)) }
{
    by_words(alloc, tokens)
}
