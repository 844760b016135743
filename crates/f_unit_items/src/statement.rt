//! The names in statements and constructs. What stands last is put first.

ghost use Rattle.std.specs.Prelude.{◌≡◌, OnOk, map, None};
ghost use Rattle.f_items.specs.declared.item.Class.TheVariants.{Data};
ghost use Rattle.f_items.specs.declared.item.DeclaredType.TheVariants.{OfSelector};
ghost use Rattle.f_items.specs.declared.item.Share.TheVariants.{Whole};
ghost use Rattle.f_unit_items.specs.Fronts.{if_there, each, declares};
ghost use Rattle.f_unit_items.specs.Statements.{statement, if_construct, do_construct, select_case, select_rank, else_if, else_block, case_block, rank_block, associate_name};

use crate::action::{put_case_choice, put_control, put_rank_choice};
use crate::expression::put_expression;
use crate::items::Items;
use crate::put::HasItems;
use f_items::{Class, DeclaredType, Item, Need, ScopeKind, Share};
use f_tree::{
    Case, DoConstruct, Else, ElseIf, IfConstruct, Name, RankCase, SelectCase, SelectRank,
    Statement, copy_bytes,
};
use std::alloc::AllocError;

/// Puts the names of a statement or a construct in front.
#[cycle(statements)]
pub fn put_statement(out: &mut Items, s: &Statement) -> Result<(), AllocError>
    ensures { OnOk result (out.new ≡ statement s.now out.old) }
{
    match s {
        Statement::Action(action) => {
            action.put(out)?;
            Ok(())
        }
        Statement::IfAction {
            place: _,
            condition,
            action,
        } => {
            action.put(out)?;
            put_expression(out, condition)?;
            Ok(())
        }
        Statement::If(c) => {
            put_if(out, c)?;
            Ok(())
        }
        Statement::Do(c) => {
            put_do(out, c)?;
            Ok(())
        }
        Statement::SelectCase(c) => {
            put_select_case(out, c)?;
            Ok(())
        }
        Statement::SelectRank(c) => {
            put_select_rank(out, c)?;
            Ok(())
        }
    }
}

#[cycle(statements)]
fn put_if(out: &mut Items, c: &IfConstruct) -> Result<(), AllocError>
    ensures { OnOk result (out.new ≡ if_construct c.now out.old) }
{
    put_otherwise(out, &c.otherwise)?;
    put_else_ifs(out, c.else_ifs.as_slice())?;
    put_statements(out, c.body.as_slice())?;
    put_expression(out, &c.condition)?;
    Ok(())
}

#[cycle(statements)]
fn put_otherwise(out: &mut Items, otherwise: &Option<Else>) -> Result<(), AllocError>
    ensures { OnOk result (out.new ≡ if_there else_block otherwise.now out.old) }
{
    match otherwise {
        None => Ok(()),
        Some(otherwise) => {
            put_statements(out, otherwise.body.as_slice())?;
            Ok(())
        }
    }
}

#[cycle(statements)]
fn put_else_if(out: &mut Items, c: &ElseIf) -> Result<(), AllocError>
    ensures { OnOk result (out.new ≡ else_if c.now out.old) }
{
    put_statements(out, c.body.as_slice())?;
    put_expression(out, &c.condition)?;
    Ok(())
}

#[cycle(statements)]
fn put_do(out: &mut Items, c: &DoConstruct) -> Result<(), AllocError>
    ensures { OnOk result (out.new ≡ do_construct c.now out.old) }
{
    put_statements(out, c.body.as_slice())?;
    put_control(out, &c.control)?;
    Ok(())
}

#[cycle(statements)]
fn put_select_case(out: &mut Items, c: &SelectCase) -> Result<(), AllocError>
    ensures { OnOk result (out.new ≡ select_case c.now out.old) }
{
    put_cases(out, c.cases.as_slice())?;
    put_expression(out, &c.selector)?;
    Ok(())
}

#[cycle(statements)]
fn put_case(out: &mut Items, c: &Case) -> Result<(), AllocError>
    ensures { OnOk result (out.new ≡ case_block c.now out.old) }
{
    put_statements(out, c.body.as_slice())?;
    put_case_choice(out, &c.choice)?;
    Ok(())
}

/// Puts the declaration of the name that a selector has inside in front.
fn put_associate(out: &mut Items, renamed: &Option<Name>, selector: &Name) -> Result<(), AllocError>
    ensures { OnOk result (out.new ≡ declares (associate_name renamed.now selector.now) Data Whole (OfSelector selector.now.bytes) None out.old) }
{
    let of_type = DeclaredType::OfSelector(copy_bytes(out.allocator(), &selector.bytes)?);
    match renamed {
        None => out.declare(selector, Class::Data, Share::Whole, of_type, None),
        Some(renamed) => out.declare(renamed, Class::Data, Share::Whole, of_type, None),
    }
}

#[cycle(statements)]
fn put_select_rank(out: &mut Items, c: &SelectRank) -> Result<(), AllocError>
    ensures { OnOk result (out.new ≡ select_rank c.now out.old) }
{
    out.put(Item::Leave)?;
    put_ranks(out, c.ranks.as_slice())?;
    put_associate(out, &c.renamed, &c.selector)?;
    out.enter(ScopeKind::SelectRank, c.place)?;
    out.refer(&c.selector, Need::Variable)?;
    Ok(())
}

#[cycle(statements)]
fn put_rank(out: &mut Items, c: &RankCase) -> Result<(), AllocError>
    ensures { OnOk result (out.new ≡ rank_block c.now out.old) }
{
    put_statements(out, c.body.as_slice())?;
    put_rank_choice(out, &c.choice)?;
    Ok(())
}

/// Puts the names of statements in front.
#[cycle(statements)]
pub fn put_statements(out: &mut Items, body: &[Statement]) -> Result<(), AllocError>
    ensures { OnOk result (out.new ≡ each (map statement body.now) out.old) }
{
    let mut left = body.len();
    while left > 0 {
        left -= 1;
        put_statement(out, &body[left])?;
    }
    Ok(())
}

#[cycle(statements)]
fn put_else_ifs(out: &mut Items, parts: &[ElseIf]) -> Result<(), AllocError>
    ensures { OnOk result (out.new ≡ each (map else_if parts.now) out.old) }
{
    let mut left = parts.len();
    while left > 0 {
        left -= 1;
        put_else_if(out, &parts[left])?;
    }
    Ok(())
}

#[cycle(statements)]
fn put_cases(out: &mut Items, cases: &[Case]) -> Result<(), AllocError>
    ensures { OnOk result (out.new ≡ each (map case_block cases.now) out.old) }
{
    let mut left = cases.len();
    while left > 0 {
        left -= 1;
        put_case(out, &cases[left])?;
    }
    Ok(())
}

#[cycle(statements)]
fn put_ranks(out: &mut Items, ranks: &[RankCase]) -> Result<(), AllocError>
    ensures { OnOk result (out.new ≡ each (map rank_block ranks.now) out.old) }
{
    let mut left = ranks.len();
    while left > 0 {
        left -= 1;
        put_rank(out, &ranks[left])?;
    }
    Ok(())
}
