//! Whether each number in a statement names a thing that is there.

ghost use Rattle.std.specs.Prelude.{◌≡◌, ◌&&◌};
ghost use Rattle.c_resolved.specs.Lists.{of_any};
ghost use Rattle.c_resolved.specs.Kinds.{token_fits};
ghost use Rattle.c_resolved.specs.Expressions.{expr_fits};
ghost use Rattle.c_resolved.specs.Statements.{item_fits, items_fit, start_fits, statement_fits};

use crate::check_declaration::is_declaration;
use crate::check_expression::{is_expr, is_optional_expr};
use crate::check_type::Counts;
use crate::statement::{BlockItem, ForStart, Statement};
use c_types::Types;
use jf_base::Boxed;

fn is_start(counts: Counts, t: &Types, start: &ForStart) -> bool
    ensures { result ≡ start_fits counts t.now start.now }
{
    match start {
        ForStart::Declaration(d) => is_declaration(counts, t, d),
        ForStart::Expression(e) => is_optional_expr(counts, t, e),
    }
}

// Whether each number in a statement names a thing that is there.
#[cycle(fit)]
fn is_statement(counts: Counts, t: &Types, s: &Statement) -> bool
    ensures { result ≡ statement_fits counts t.now s.now }
{
    match s {
        Statement::Block { items, at } => are_items(counts, t, items.as_slice())
            && counts.has_token(*at),
        Statement::Expression { value, at } => is_optional_expr(counts, t, value)
            && counts.has_token(*at),
        Statement::If {
            test,
            body,
            otherwise,
            at,
        } => is_expr(counts, t, test)
            && is_statement(counts, t, body.get())
            && is_otherwise(counts, t, otherwise)
            && counts.has_token(*at),
        Statement::Switch { value, body, at } => is_expr(counts, t, value)
            && is_statement(counts, t, body.get())
            && counts.has_token(*at),
        Statement::Case {
            constant,
            body,
            at,
            ..
        } => is_expr(counts, t, constant)
            && is_statement(counts, t, body.get())
            && counts.has_token(*at),
        Statement::Default { body, at } => is_statement(counts, t, body.get())
            && counts.has_token(*at),
        Statement::While { test, body, at } => is_expr(counts, t, test)
            && is_statement(counts, t, body.get())
            && counts.has_token(*at),
        Statement::DoWhile { body, test, at } => is_statement(counts, t, body.get())
            && is_expr(counts, t, test)
            && counts.has_token(*at),
        Statement::For {
            start,
            test,
            step,
            body,
            at,
        } => is_start(counts, t, start)
            && is_optional_expr(counts, t, test)
            && is_optional_expr(counts, t, step)
            && is_statement(counts, t, body.get())
            && counts.has_token(*at),
        Statement::Break { at } => counts.has_token(*at),
        Statement::Continue { at } => counts.has_token(*at),
        Statement::Return { value, at } => is_optional_expr(counts, t, value)
            && counts.has_token(*at),
    }
}

#[cycle(fit)]
fn is_otherwise(counts: Counts, t: &Types, s: &Option<Boxed<Statement>>) -> bool
    ensures { result ≡ of_any (statement_fits counts t.now) s.now }
{
    match s {
        None => true,
        Some(s) => is_statement(counts, t, s.get()),
    }
}

#[cycle(fit)]
fn is_item(counts: Counts, t: &Types, item: &BlockItem) -> bool
    ensures { result ≡ item_fits counts t.now item.now }
{
    match item {
        BlockItem::Declaration(d) => is_declaration(counts, t, d),
        BlockItem::Statement(s) => is_statement(counts, t, s),
    }
}

/// Whether each number in the items of a block names a thing that is there.
#[cycle(fit)]
pub fn are_items(counts: Counts, t: &Types, all: &[BlockItem]) -> bool
    ensures { result ≡ items_fit counts t.now all.now }
{
    'items: for one in all {
        if !is_item(counts, t, one) {
            return false;
        }
    }
    true
}
