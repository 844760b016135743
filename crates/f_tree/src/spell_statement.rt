//! The tokens of statements and constructs. What stands last is put first.

ghost use Rattle.std.specs.Prelude.{◌≡◌, OnOk, map, codes};
ghost use Rattle.f_tree.specs.Lexemes.{if_there, each};
ghost use Rattle.f_tree.specs.Statements.{statement, if_construct, do_construct, select_case, select_rank, else_if, else_block, case_block, rank_block, else_if_words, select_words, then_line};

use crate::lexeme::Lexemes;
use crate::spell::Spell;
use crate::spell_action::{
    put_case_choice, put_condition, put_control, put_rank_choice, put_rank_selector,
};
use crate::spell_definition::put_ending;
use crate::statement::{
    Case, DoConstruct, Else, ElseIf, IfConstruct, RankCase, SelectCase, SelectRank, Statement,
};
use jf_base::Place;
use std::alloc::AllocError;

fn put_then(out: &mut Lexemes) -> Result<(), AllocError>
    ensures { OnOk result (out.new ≡ then_line out.old) }
{
    out.statement_end()?;
    out.word("then")
}

fn put_else_if_words(out: &mut Lexemes, is_one_word: bool, place: Place) -> Result<(), AllocError>
    ensures { OnOk result (out.new ≡ else_if_words is_one_word place out.old) }
{
    if is_one_word {
        out.placed_word("elseif", place)
    } else {
        out.word("if")?;
        out.placed_word("else", place)
    }
}

fn put_select_words(out: &mut Lexemes, is_one_word: bool, place: Place) -> Result<(), AllocError>
    ensures { OnOk result (out.new ≡ select_words is_one_word place out.old) }
{
    if is_one_word {
        out.placed_word("selectcase", place)
    } else {
        out.word("case")?;
        out.placed_word("select", place)
    }
}

/// Puts a statement or a construct in front.
#[cycle(statements)]
pub fn put_statement(out: &mut Lexemes, s: &Statement) -> Result<(), AllocError>
    ensures { OnOk result (out.new ≡ statement s.now out.old) }
{
    match s {
        Statement::Action(action) => {
            out.statement_end()?;
            action.put(out)?;
            Ok(())
        }
        Statement::IfAction {
            place,
            condition,
            action,
        } => {
            out.statement_end()?;
            action.put(out)?;
            put_condition(out, condition)?;
            out.placed_word("if", *place)?;
            Ok(())
        }
        Statement::If(c) => {
            put_if(out, c)?;
            Ok(())
        }
        Statement::Do(c) => {
            put_do(out, c)?;
            Ok(())
        }
        Statement::SelectCase(c) => {
            put_select_case(out, c)?;
            Ok(())
        }
        Statement::SelectRank(c) => {
            put_select_rank(out, c)?;
            Ok(())
        }
    }
}

#[cycle(statements)]
fn put_if(out: &mut Lexemes, c: &IfConstruct) -> Result<(), AllocError>
    ensures { OnOk result (out.new ≡ if_construct c.now out.old) }
{
    put_ending(out, &c.ending, "if", "endif")?;
    put_otherwise(out, &c.otherwise)?;
    put_else_ifs(out, c.else_ifs.as_slice())?;
    put_statements(out, c.body.as_slice())?;
    put_then(out)?;
    put_condition(out, &c.condition)?;
    out.placed_word("if", c.place)?;
    Ok(())
}

#[cycle(statements)]
fn put_otherwise(out: &mut Lexemes, otherwise: &Option<Else>) -> Result<(), AllocError>
    ensures { OnOk result (out.new ≡ if_there else_block otherwise.now out.old) }
{
    match otherwise {
        None => Ok(()),
        Some(otherwise) => {
            put_statements(out, otherwise.body.as_slice())?;
            out.statement_end()?;
            out.placed_word("else", otherwise.place)?;
            Ok(())
        }
    }
}

#[cycle(statements)]
fn put_else_if(out: &mut Lexemes, c: &ElseIf) -> Result<(), AllocError>
    ensures { OnOk result (out.new ≡ else_if c.now out.old) }
{
    put_statements(out, c.body.as_slice())?;
    put_then(out)?;
    put_condition(out, &c.condition)?;
    put_else_if_words(out, c.is_one_word, c.place)?;
    Ok(())
}

#[cycle(statements)]
fn put_do(out: &mut Lexemes, c: &DoConstruct) -> Result<(), AllocError>
    ensures { OnOk result (out.new ≡ do_construct c.now out.old) }
{
    put_ending(out, &c.ending, "do", "enddo")?;
    put_statements(out, c.body.as_slice())?;
    out.statement_end()?;
    put_control(out, &c.control)?;
    out.placed_word("do", c.place)?;
    Ok(())
}

#[cycle(statements)]
fn put_select_case(out: &mut Lexemes, c: &SelectCase) -> Result<(), AllocError>
    ensures { OnOk result (out.new ≡ select_case c.now out.old) }
{
    put_ending(out, &c.ending, "select", "endselect")?;
    put_cases(out, c.cases.as_slice())?;
    out.statement_end()?;
    put_condition(out, &c.selector)?;
    put_select_words(out, c.is_one_word, c.place)?;
    Ok(())
}

#[cycle(statements)]
fn put_case(out: &mut Lexemes, c: &Case) -> Result<(), AllocError>
    ensures { OnOk result (out.new ≡ case_block c.now out.old) }
{
    put_statements(out, c.body.as_slice())?;
    out.statement_end()?;
    put_case_choice(out, &c.choice)?;
    out.placed_word("case", c.place)?;
    Ok(())
}

#[cycle(statements)]
fn put_select_rank(out: &mut Lexemes, c: &SelectRank) -> Result<(), AllocError>
    ensures { OnOk result (out.new ≡ select_rank c.now out.old) }
{
    put_ending(out, &c.ending, "select", "endselect")?;
    put_ranks(out, c.ranks.as_slice())?;
    out.statement_end()?;
    put_rank_selector(out, &c.renamed, &c.selector)?;
    out.word("rank")?;
    out.placed_word("select", c.place)?;
    Ok(())
}

#[cycle(statements)]
fn put_rank(out: &mut Lexemes, c: &RankCase) -> Result<(), AllocError>
    ensures { OnOk result (out.new ≡ rank_block c.now out.old) }
{
    put_statements(out, c.body.as_slice())?;
    out.statement_end()?;
    put_rank_choice(out, &c.choice)?;
    out.placed_word("rank", c.place)?;
    Ok(())
}

/// Puts statements in front.
#[cycle(statements)]
pub fn put_statements(out: &mut Lexemes, body: &[Statement]) -> Result<(), AllocError>
    ensures { OnOk result (out.new ≡ each (map statement body.now) out.old) }
{
    let mut left = body.len();
    while left > 0 {
        left -= 1;
        put_statement(out, &body[left])?;
    }
    Ok(())
}

#[cycle(statements)]
fn put_else_ifs(out: &mut Lexemes, parts: &[ElseIf]) -> Result<(), AllocError>
    ensures { OnOk result (out.new ≡ each (map else_if parts.now) out.old) }
{
    let mut left = parts.len();
    while left > 0 {
        left -= 1;
        put_else_if(out, &parts[left])?;
    }
    Ok(())
}

#[cycle(statements)]
fn put_cases(out: &mut Lexemes, cases: &[Case]) -> Result<(), AllocError>
    ensures { OnOk result (out.new ≡ each (map case_block cases.now) out.old) }
{
    let mut left = cases.len();
    while left > 0 {
        left -= 1;
        put_case(out, &cases[left])?;
    }
    Ok(())
}

#[cycle(statements)]
fn put_ranks(out: &mut Lexemes, ranks: &[RankCase]) -> Result<(), AllocError>
    ensures { OnOk result (out.new ≡ each (map rank_block ranks.now) out.old) }
{
    let mut left = ranks.len();
    while left > 0 {
        left -= 1;
        put_rank(out, &ranks[left])?;
    }
    Ok(())
}
