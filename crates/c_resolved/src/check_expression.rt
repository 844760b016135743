//! Whether each number in an expression names a thing that is there.

ghost use Rattle.std.specs.Prelude.{◌≡◌, map};
ghost use Rattle.c_resolved.specs.Lists.{all_of, of_any};
ghost use Rattle.c_resolved.specs.Expressions.{choice_fits, denoted_fits, expr_fits, exprs_fit, form_fits, link_fits, operator_fits, postfix_fits, target_fits};

use crate::check_type::{Counts, has_member, is_type};
use crate::expression::{Choice, Denoted, Expr, Form, Link, Postfix, PostfixOperator, Target};
use c_types::Types;

fn is_denoted(counts: Counts, what: Denoted) -> bool
    ensures { result ≡ denoted_fits counts what }
{
    match what {
        Denoted::Local(x) => (x as usize) < counts.locals,
        Denoted::Global(x) => (x as usize) < counts.objects,
        Denoted::Function(f) => (f as usize) < counts.functions,
        Denoted::Enumerator(_) => true,
    }
}

/// Whether each number in an expression names a thing that is there.
#[cycle(fit)]
pub fn is_expr(counts: Counts, t: &Types, e: &Expr) -> bool
    ensures { result ≡ expr_fits counts t.now e.now }
{
    is_form(counts, t, e.form.get()) && is_type(counts, &e.kind) && counts.has_token(e.at)
}

/// Whether an expression is absent, or each number in it names a thing that is there.
pub fn is_optional_expr(counts: Counts, t: &Types, e: &Option<Expr>) -> bool
    ensures { result ≡ of_any (expr_fits counts t.now) e.now }
{
    match e {
        None => true,
        Some(e) => is_expr(counts, t, e),
    }
}

#[cycle(fit)]
fn is_form(counts: Counts, t: &Types, form: &Form) -> bool
    ensures { result ≡ form_fits counts t.now form.now }
{
    match form {
        Form::Name(what) => is_denoted(counts, *what),
        Form::Constant(_) => true,
        Form::Character(_) => true,
        Form::String(s) => (*s as usize) < counts.strings,
        Form::Parenthesized(inner) => is_expr(counts, t, inner),
        Form::Postfix { operand, suffixes } => is_expr(counts, t, operand)
            && are_postfixes(counts, t, suffixes.as_slice()),
        Form::Prefix { operand, .. } => is_expr(counts, t, operand),
        Form::SizeofExpr(operand) => is_expr(counts, t, operand),
        Form::SizeofType(kind) => is_type(counts, kind),
        Form::Cast(operand) => is_expr(counts, t, operand),
        Form::Chain { first, links } => is_expr(counts, t, first)
            && are_links(counts, t, links.as_slice()),
        Form::Conditional { choices, otherwise } => are_choices(counts, t, choices.as_slice())
            && is_expr(counts, t, otherwise),
        Form::Assignment { targets, value } => are_targets(counts, t, targets.as_slice())
            && is_expr(counts, t, value),
        Form::Comma { first, others } => is_expr(counts, t, first)
            && are_exprs(counts, t, others.as_slice()),
    }
}

#[cycle(fit)]
fn are_exprs(counts: Counts, t: &Types, all: &[Expr]) -> bool
    ensures { result ≡ exprs_fit counts t.now all.now }
{
    'exprs: for one in all {
        if !is_expr(counts, t, one) {
            return false;
        }
    }
    true
}

#[cycle(fit)]
fn is_operator(counts: Counts, t: &Types, operator: &PostfixOperator) -> bool
    ensures { result ≡ operator_fits counts t.now operator.now }
{
    match operator {
        PostfixOperator::Index(index) => is_expr(counts, t, index),
        PostfixOperator::Call(arguments) => are_exprs(counts, t, arguments.as_slice()),
        PostfixOperator::Member { structure, member } => has_member(t, *structure, *member),
        PostfixOperator::Arrow { structure, member } => has_member(t, *structure, *member),
        PostfixOperator::Descriptor(_) => true,
        PostfixOperator::Dimension { index, .. } => is_expr(counts, t, index),
        PostfixOperator::Increment => true,
        PostfixOperator::Decrement => true,
    }
}

#[cycle(fit)]
fn is_postfix(counts: Counts, t: &Types, one: &Postfix) -> bool
    ensures { result ≡ postfix_fits counts t.now one.now }
{
    is_operator(counts, t, &one.operator) && is_type(counts, &one.kind) && counts.has_token(one.at)
}

#[cycle(fit)]
fn are_postfixes(counts: Counts, t: &Types, all: &[Postfix]) -> bool
    ensures { result ≡ all_of (map (postfix_fits counts t.now) all.now) }
{
    'postfixes: for one in all {
        if !is_postfix(counts, t, one) {
            return false;
        }
    }
    true
}

#[cycle(fit)]
fn is_link(counts: Counts, t: &Types, one: &Link) -> bool
    ensures { result ≡ link_fits counts t.now one.now }
{
    is_expr(counts, t, &one.right) && is_type(counts, &one.kind) && counts.has_token(one.at)
}

#[cycle(fit)]
fn are_links(counts: Counts, t: &Types, all: &[Link]) -> bool
    ensures { result ≡ all_of (map (link_fits counts t.now) all.now) }
{
    'links: for one in all {
        if !is_link(counts, t, one) {
            return false;
        }
    }
    true
}

#[cycle(fit)]
fn is_choice(counts: Counts, t: &Types, one: &Choice) -> bool
    ensures { result ≡ choice_fits counts t.now one.now }
{
    is_expr(counts, t, &one.test)
        && is_expr(counts, t, &one.value)
        && is_type(counts, &one.kind)
        && counts.has_token(one.at)
}

#[cycle(fit)]
fn are_choices(counts: Counts, t: &Types, all: &[Choice]) -> bool
    ensures { result ≡ all_of (map (choice_fits counts t.now) all.now) }
{
    'choices: for one in all {
        if !is_choice(counts, t, one) {
            return false;
        }
    }
    true
}

#[cycle(fit)]
fn is_target(counts: Counts, t: &Types, one: &Target) -> bool
    ensures { result ≡ target_fits counts t.now one.now }
{
    is_expr(counts, t, &one.place) && counts.has_token(one.at)
}

#[cycle(fit)]
fn are_targets(counts: Counts, t: &Types, all: &[Target]) -> bool
    ensures { result ≡ all_of (map (target_fits counts t.now) all.now) }
{
    'targets: for one in all {
        if !is_target(counts, t, one) {
            return false;
        }
    }
    true
}
