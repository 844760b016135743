//! What expressions declare: the enumerators that stand in the names of types in them.

ghost use Rattle.std.specs.Prelude.{◌≡◌, IfOk, map};
ghost use Rattle.c_grammar.specs.Grammar.{after, after_links, after_posts, after_post};
ghost use Rattle.c_expression_read.specs.Views.{view, view_link, view_choice, view_target, view_postfix, links_of, posts_of, call_of, commas_of};
ghost use Rattle.c_redeclare.specs.Again.{after_each, after_fronts};

use crate::declarator::typed;
use c_scope::Scope;
use c_tree::{Choice, Expr, Link, Postfix, Target};
use std::alloc::AllocError;

// Operands behind operators.
#[cycle(again)]
fn links(scope: &mut Scope, links: &[Link]) -> Result<(), AllocError>
    ensures { IfOk result (λ _. scope.new ≡ after_links (links_of (map view_link links.now)) scope.old) }
{
    'links: for one in links {
        expression(scope, &one.right)?;
    }
    Ok(())
}

// Tests and values of conditional expressions.
#[cycle(again)]
fn choices(scope: &mut Scope, choices: &[Choice]) -> Result<(), AllocError>
    ensures { IfOk result (λ _. scope.new ≡ after_fronts (map view_choice choices.now) scope.old) }
{
    'choices: for one in choices {
        expression(scope, &one.test)?;
        expression(scope, &one.value)?;
    }
    Ok(())
}

// Left sides of assignments.
#[cycle(again)]
fn targets(scope: &mut Scope, targets: &[Target]) -> Result<(), AllocError>
    ensures { IfOk result (λ _. scope.new ≡ after_fronts (map view_target targets.now) scope.old) }
{
    'targets: for one in targets {
        expression(scope, &one.place)?;
    }
    Ok(())
}

// Expressions one behind the other.
#[cycle(again)]
fn expressions(scope: &mut Scope, all: &[Expr]) -> Result<(), AllocError>
    ensures { IfOk result (λ _. scope.new ≡ after_each (map view all.now) scope.old) }
{
    'expressions: for one in all {
        expression(scope, one)?;
    }
    Ok(())
}

// The arguments of a call.
#[cycle(again)]
fn arguments(scope: &mut Scope, all: &[Expr]) -> Result<(), AllocError>
    ensures { IfOk result (λ _. scope.new ≡ after_post (call_of (map view all.now)) scope.old) }
{
    expressions(scope, all)?;
    Ok(())
}

// Operands behind commas.
#[cycle(again)]
fn commas(scope: &mut Scope, all: &[Expr]) -> Result<(), AllocError>
    ensures { IfOk result (λ _. scope.new ≡ after_links (commas_of (map view all.now)) scope.old) }
{
    expressions(scope, all)?;
    Ok(())
}

#[cycle(again)]
fn postfix(scope: &mut Scope, one: &Postfix) -> Result<(), AllocError>
    ensures { IfOk result (λ _. scope.new ≡ after_post (view_postfix one.now) scope.old) }
{
    match one {
        Postfix::Index { index, .. } => expression(scope, index),
        Postfix::Call { arguments: all, .. } => arguments(scope, all.as_slice()),
        Postfix::Member { .. }
        | Postfix::Arrow { .. }
        | Postfix::Increment { .. }
        | Postfix::Decrement { .. } => Ok(()),
    }
}

#[cycle(again)]
fn postfixes(scope: &mut Scope, all: &[Postfix]) -> Result<(), AllocError>
    ensures { IfOk result (λ _. scope.new ≡ after_posts (posts_of (map view_postfix all.now)) scope.old) }
{
    'postfixes: for one in all {
        postfix(scope, one)?;
    }
    Ok(())
}

/// Declares again what an expression declares.
#[cycle(again)]
pub fn expression(scope: &mut Scope, e: &Expr) -> Result<(), AllocError>
    ensures { IfOk result (λ _. scope.new ≡ after (view e.now) scope.old) }
{
    match e {
        Expr::Name { .. } | Expr::Constant { .. } | Expr::Character { .. } | Expr::Text { .. } => {
            Ok(())
        }
        Expr::Parenthesized { inner, .. } => expression(scope, inner.get()),
        Expr::Postfix {
            operand,
            suffixes,
            ..
        } => {
            expression(scope, operand.get())?;
            postfixes(scope, suffixes.as_slice())
        }
        Expr::Prefix { operand, .. } => expression(scope, operand.get()),
        Expr::SizeofExpr { operand, .. } => expression(scope, operand.get()),
        Expr::SizeofType { kind, .. } => typed(scope, kind.get()),
        Expr::Cast { kind, operand, .. } => {
            typed(scope, kind.get())?;
            expression(scope, operand.get())
        }
        Expr::Chain {
            first,
            links: others,
            ..
        } => {
            expression(scope, first.get())?;
            links(scope, others.as_slice())
        }
        Expr::Conditional {
            choices: fronts,
            otherwise,
            ..
        } => {
            choices(scope, fronts.as_slice())?;
            expression(scope, otherwise.get())?;
            Ok(())
        }
        Expr::Assignment {
            targets: fronts,
            value,
            ..
        } => {
            targets(scope, fronts.as_slice())?;
            expression(scope, value.get())?;
            Ok(())
        }
        Expr::Comma { first, others, .. } => {
            expression(scope, first.get())?;
            commas(scope, others.as_slice())
        }
    }
}
