//! Statements made of their parts.

ghost use Rattle.std.specs.Prelude.{◌≡◌, map};
ghost use Rattle.std.specs.Option.{option_map};
ghost use Rattle.c_unit_grammar.specs.Statements.{Block, Do, OnlyIf, IfElse, Switch, Case, Default, While, DoWhile, For, Return};
ghost use Rattle.c_expression_read.specs.Views.{view};
ghost use Rattle.c_statement_read.specs.Views.{view_statement, view_item, view_start, items_of};

use c_tree::{BlockItem, Expr, ForStart, Statement};
use jf_base::{Boxed, List};

pub fn block(items: Vec<BlockItem>, at: u32) -> Statement
    ensures { view_statement result ≡ Block (items_of (map view_item items.items)) }
{
    Statement::Block {
        items: List::from_vec(items),
        at,
    }
}

pub fn expression(value: Expr, at: u32) -> Statement
    ensures { view_statement result ≡ Do (view value) }
{
    Statement::Expression {
        value: Some(value),
        at,
    }
}

/// An `if` without an `else`.
pub fn only_if(test: Expr, body: Boxed<Statement>, at: u32) -> Statement
    ensures { view_statement result ≡ OnlyIf (view test) (view_statement body) }
{
    Statement::If {
        test,
        body,
        otherwise: None,
        at,
    }
}

/// An `if` with an `else`.
pub fn if_else(
    test: Expr,
    body: Boxed<Statement>,
    otherwise: Boxed<Statement>,
    at: u32,
) -> Statement
    ensures { view_statement result ≡ IfElse (view test) (view_statement body) (view_statement otherwise) }
{
    Statement::If {
        test,
        body,
        otherwise: Some(otherwise),
        at,
    }
}

pub fn switch(value: Expr, body: Boxed<Statement>, at: u32) -> Statement
    ensures { view_statement result ≡ Switch (view value) (view_statement body) }
{
    Statement::Switch { value, body, at }
}

pub fn case(value: Expr, body: Boxed<Statement>, at: u32) -> Statement
    ensures { view_statement result ≡ Case (view value) (view_statement body) }
{
    Statement::Case { value, body, at }
}

pub fn default(body: Boxed<Statement>, at: u32) -> Statement
    ensures { view_statement result ≡ Default (view_statement body) }
{
    Statement::Default { body, at }
}

pub fn while_loop(test: Expr, body: Boxed<Statement>, at: u32) -> Statement
    ensures { view_statement result ≡ While (view test) (view_statement body) }
{
    Statement::While { test, body, at }
}

pub fn do_while(body: Boxed<Statement>, test: Expr, at: u32) -> Statement
    ensures { view_statement result ≡ DoWhile (view_statement body) (view test) }
{
    Statement::DoWhile { body, test, at }
}

pub fn for_loop(
    start: ForStart,
    test: Option<Expr>,
    step: Option<Expr>,
    body: Boxed<Statement>,
    at: u32,
) -> Statement
    ensures { view_statement result ≡ For (view_start start) (option_map view test) (option_map view step) (view_statement body) }
{
    Statement::For {
        start,
        test,
        step,
        body,
        at,
    }
}

pub fn returned(value: Option<Expr>, at: u32) -> Statement
    ensures { view_statement result ≡ Return (option_map view value) }
{
    Statement::Return { value, at }
}
