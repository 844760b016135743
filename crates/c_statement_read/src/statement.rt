//! Statements. Each function reads what stands first and answers it with the tokens behind it; the number behind the last token of the unit is `end`,
//! and `at` that of the first token of the statement.

ghost use Rattle.std.specs.Prelude.{◌≡◌, suc, IfOk, length, map};
ghost use Rattle.c_grammar.specs.Grammar.{Scope as Names};
ghost use Rattle.c_grammar.specs.Reading.{Gives, inner};
ghost use Rattle.c_unit_grammar.specs.Statements.{after_stmt, after_items};
ghost use Rattle.c_unit_grammar.specs.Reading.{items_at, block_at, block_in, if_at, switch_at, case_at, default_at, while_at, do_while_at, for_at, break_at, continue_at, return_at, do_at, stmt_at, stmt_in};
ghost use Rattle.c_statement_read.specs.Views.{view_statement, view_item, items_of, after_item, item_at, block_of};

use crate::made;
use crate::part::{optional_step, optional_test, optional_value, start, test};
use crate::word::{else_at, while_word};
use c_declaration_read::read_declaration;
use c_expression_read::{
    braced, broken, colon, deep, ended, ends_braces, number, read_constant, read_expression,
};
use c_grammar::{ReadError, Token};
use c_scope::Scope;
use c_tree::{BlockItem, Statement};
use jf_base::Boxed;
use std::alloc::Global;

/// A statement one nesting down.
#[cycle(statement)]
#[tactic(auto, unfolding(c_unit_grammar::specs::Reading::stmt_in))]
pub fn nested<'a>(
    alloc: Global,
    end: u32,
    depth: u32,
    scope: &mut Scope,
    tokens: &'a [Token],
) -> Result<(Statement, &'a [Token]), ReadError>
    ensures read { Gives (λ x. (view_statement x.0, x.1.now)) result (stmt_in depth scope.old tokens.now) }
    ensures scope { IfOk result (λ x. scope.new ≡ after_stmt (view_statement x.0) scope.old) }
{
    if depth == 0 {
        return Err(deep(tokens));
    }
    statement(alloc, end, depth - 1, scope, tokens)
}

// A statement one nesting down, as a part of another.
#[cycle(statement)]
fn substatement<'a>(
    alloc: Global,
    end: u32,
    depth: u32,
    scope: &mut Scope,
    tokens: &'a [Token],
) -> Result<(Boxed<Statement>, &'a [Token]), ReadError>
    ensures read { Gives (λ x. (view_statement x.0, x.1.now)) result (stmt_in depth scope.old tokens.now) }
    ensures scope { IfOk result (λ x. scope.new ≡ after_stmt (view_statement x.0) scope.old) }
{
    let (one, rest) = nested(alloc, end, depth, scope, tokens)?;
    Ok((Boxed::new(alloc, one)?, rest))
}

// A part that is a scope of its own (ISO/IEC 9899:2011, 6.8.4p3 and 6.8.5p5).
#[cycle(statement)]
#[tactic(auto, using(crate::proofs::Kept::kept_statement))]
fn body<'a>(
    alloc: Global,
    end: u32,
    depth: u32,
    scope: &mut Scope,
    tokens: &'a [Token],
) -> Result<(Boxed<Statement>, &'a [Token]), ReadError>
    ensures read { Gives (λ x. (view_statement x.0, x.1.now)) result (stmt_in depth scope.old tokens.now) }
    ensures scope { IfOk result (λ _. scope.new ≡ scope.old) }
{
    let mark = scope.mark();
    let (body, rest) = substatement(alloc, end, depth, scope, tokens)?;
    scope.end(mark);
    Ok((body, rest))
}

// A declaration where specifiers begin, and else a statement (ISO/IEC 9899:2011, 6.8.2).
#[cycle(statement)]
#[tactic(auto, unfolding(c_unit_grammar::specs::Reading::stmt_in))]
fn item<'a>(
    alloc: Global,
    end: u32,
    depth: u32,
    scope: &mut Scope,
    tokens: &'a [Token],
) -> Result<(BlockItem, &'a [Token]), ReadError>
    ensures read { Gives (λ x. (view_item x.0, x.1.now)) result (item_at depth (stmt_in (suc depth)) scope.old tokens.now) }
    ensures scope { IfOk result (λ x. scope.new ≡ after_item (view_item x.0) scope.old) }
{
    if scope.starts_type(tokens) {
        let (declaration, rest) = read_declaration(alloc, end, depth, scope, tokens)?;
        Ok((BlockItem::Declaration(declaration), rest))
    } else {
        let (statement, rest) = statement(alloc, end, depth, scope, tokens)?;
        Ok((BlockItem::Statement(statement), rest))
    }
}

// What stands in a block.
#[cycle(statement)]
fn items<'a>(
    alloc: Global,
    end: u32,
    depth: u32,
    scope: &mut Scope,
    tokens: &'a [Token],
) -> Result<(Vec<BlockItem>, &'a [Token]), ReadError>
    ensures read { Gives (λ x. (items_of (map view_item x.0.items), x.1.now)) result (items_at depth (stmt_in (suc depth)) (length tokens.now) scope.old tokens.now) }
    ensures scope { IfOk result (λ x. scope.new ≡ after_items (items_of (map view_item x.0.items)) scope.old) }
{
    let mut items = Vec::new(alloc);
    let mut rest = tokens;
    'items: for _ in 0..tokens.len() {
        if ends_braces(rest) {
            return Ok((items, rest));
        }
        let (one, after) = item(alloc, end, depth, scope, rest)?;
        items.push(one)?;
        rest = after;
    }
    Ok((items, rest))
}

// What stands in a block, and its `}`, where so many nestings are left.
#[cycle(statement)]
#[tactic(auto, unfolding(c_unit_grammar::specs::Reading::block_at), using(crate::proofs::Kept::kept_items))]
fn closed_items<'a>(
    alloc: Global,
    end: u32,
    depth: u32,
    scope: &mut Scope,
    tokens: &'a [Token],
) -> Result<(Vec<BlockItem>, &'a [Token]), ReadError>
    ensures read { Gives (λ x. (items_of (map view_item x.0.items), x.1.now)) result (block_at depth (stmt_in (suc depth)) scope.old tokens.now) }
    ensures scope { IfOk result (λ _. scope.new ≡ scope.old) }
{
    let outside = scope.mark();
    let (items, rest) = items(alloc, end, depth, scope, tokens)?;
    let rest = braced(rest)?;
    scope.end(outside);
    Ok((items, rest))
}

/// What stands behind the `{` of a block one nesting down, and its `}`.
#[cycle(statement)]
#[tactic(auto, unfolding(c_unit_grammar::specs::Reading::block_in))]
pub fn block_items<'a>(
    alloc: Global,
    end: u32,
    depth: u32,
    scope: &mut Scope,
    tokens: &'a [Token],
) -> Result<(Vec<BlockItem>, &'a [Token]), ReadError>
    ensures read { Gives (λ x. (items_of (map view_item x.0.items), x.1.now)) result (block_in depth (stmt_in depth) scope.old tokens.now) }
    ensures scope { IfOk result (λ _. scope.new ≡ scope.old) }
{
    if depth == 0 {
        return Err(deep(tokens));
    }
    closed_items(alloc, end, depth - 1, scope, tokens)
}

// What stands behind `if`; an `else` belongs to the nearest (ISO/IEC 9899:2011, 6.8.4.1).
#[cycle(statement)]
#[tactic(auto, unfolding(c_unit_grammar::specs::Reading::if_at), using(crate::proofs::Kept::kept_test))]
fn if_statement<'a>(
    alloc: Global,
    end: u32,
    depth: u32,
    at: u32,
    scope: &mut Scope,
    tokens: &'a [Token],
) -> Result<(Statement, &'a [Token]), ReadError>
    ensures read { Gives (λ x. (view_statement x.0, x.1.now)) result (if_at (inner depth) (stmt_in depth) scope.old tokens.now) }
    ensures scope { IfOk result (λ x. scope.new ≡ after_stmt (view_statement x.0) scope.old) }
{
    let mark = scope.mark();
    let (test, rest) = test(alloc, end, depth, scope, tokens)?;
    let (taken, rest) = body(alloc, end, depth, scope, rest)?;
    match else_at(rest) {
        None => {
            scope.end(mark);
            Ok((made::only_if(test, taken, at), rest))
        }
        Some(rest) => {
            let (otherwise, rest) = body(alloc, end, depth, scope, rest)?;
            scope.end(mark);
            Ok((made::if_else(test, taken, otherwise, at), rest))
        }
    }
}

// What stands behind `switch` (ISO/IEC 9899:2011, 6.8.4.2).
#[cycle(statement)]
#[tactic(auto, unfolding(c_unit_grammar::specs::Reading::switch_at), using(crate::proofs::Kept::kept_test))]
fn switch<'a>(
    alloc: Global,
    end: u32,
    depth: u32,
    at: u32,
    scope: &mut Scope,
    tokens: &'a [Token],
) -> Result<(Statement, &'a [Token]), ReadError>
    ensures read { Gives (λ x. (view_statement x.0, x.1.now)) result (switch_at (inner depth) (stmt_in depth) scope.old tokens.now) }
    ensures scope { IfOk result (λ x. scope.new ≡ after_stmt (view_statement x.0) scope.old) }
{
    let mark = scope.mark();
    let (value, rest) = test(alloc, end, depth, scope, tokens)?;
    let (body, rest) = body(alloc, end, depth, scope, rest)?;
    scope.end(mark);
    Ok((made::switch(value, body, at), rest))
}

// What stands behind `case` (ISO/IEC 9899:2011, 6.8.1).
#[cycle(statement)]
#[tactic(auto, unfolding(c_unit_grammar::specs::Reading::case_at))]
fn case<'a>(
    alloc: Global,
    end: u32,
    depth: u32,
    at: u32,
    scope: &mut Scope,
    tokens: &'a [Token],
) -> Result<(Statement, &'a [Token]), ReadError>
    ensures read { Gives (λ x. (view_statement x.0, x.1.now)) result (case_at (inner depth) (stmt_in depth) scope.old tokens.now) }
    ensures scope { IfOk result (λ x. scope.new ≡ after_stmt (view_statement x.0) scope.old) }
{
    let (value, rest) = read_constant(alloc, end, depth, scope, tokens)?;
    let rest = colon(rest)?;
    let (labelled, rest) = substatement(alloc, end, depth, scope, rest)?;
    Ok((made::case(value, labelled, at), rest))
}

// What stands behind `default` (ISO/IEC 9899:2011, 6.8.1).
#[cycle(statement)]
#[tactic(auto, unfolding(c_unit_grammar::specs::Reading::default_at))]
fn default<'a>(
    alloc: Global,
    end: u32,
    depth: u32,
    at: u32,
    scope: &mut Scope,
    tokens: &'a [Token],
) -> Result<(Statement, &'a [Token]), ReadError>
    ensures read { Gives (λ x. (view_statement x.0, x.1.now)) result (default_at (stmt_in depth) scope.old tokens.now) }
    ensures scope { IfOk result (λ x. scope.new ≡ after_stmt (view_statement x.0) scope.old) }
{
    let rest = colon(tokens)?;
    let (labelled, rest) = substatement(alloc, end, depth, scope, rest)?;
    Ok((made::default(labelled, at), rest))
}

// What stands behind `while` (ISO/IEC 9899:2011, 6.8.5.1).
#[cycle(statement)]
#[tactic(auto, unfolding(c_unit_grammar::specs::Reading::while_at), using(crate::proofs::Kept::kept_test))]
fn while_loop<'a>(
    alloc: Global,
    end: u32,
    depth: u32,
    at: u32,
    scope: &mut Scope,
    tokens: &'a [Token],
) -> Result<(Statement, &'a [Token]), ReadError>
    ensures read { Gives (λ x. (view_statement x.0, x.1.now)) result (while_at (inner depth) (stmt_in depth) scope.old tokens.now) }
    ensures scope { IfOk result (λ x. scope.new ≡ after_stmt (view_statement x.0) scope.old) }
{
    let mark = scope.mark();
    let (test, rest) = test(alloc, end, depth, scope, tokens)?;
    let (body, rest) = body(alloc, end, depth, scope, rest)?;
    scope.end(mark);
    Ok((made::while_loop(test, body, at), rest))
}

// What stands behind `do` (ISO/IEC 9899:2011, 6.8.5.2).
#[cycle(statement)]
#[tactic(auto, unfolding(c_unit_grammar::specs::Reading::do_while_at), using(crate::proofs::Kept::kept_test))]
fn do_while<'a>(
    alloc: Global,
    end: u32,
    depth: u32,
    at: u32,
    scope: &mut Scope,
    tokens: &'a [Token],
) -> Result<(Statement, &'a [Token]), ReadError>
    ensures read { Gives (λ x. (view_statement x.0, x.1.now)) result (do_while_at (inner depth) (stmt_in depth) scope.old tokens.now) }
    ensures scope { IfOk result (λ x. scope.new ≡ after_stmt (view_statement x.0) scope.old) }
{
    let mark = scope.mark();
    let (body, rest) = body(alloc, end, depth, scope, tokens)?;
    let rest = while_word(rest)?;
    let (test, rest) = test(alloc, end, depth, scope, rest)?;
    let rest = ended(rest)?;
    scope.end(mark);
    Ok((made::do_while(body, test, at), rest))
}

// What stands behind `for` (ISO/IEC 9899:2011, 6.8.5.3).
#[cycle(statement)]
#[tactic(auto, unfolding(c_unit_grammar::specs::Reading::for_at, c_unit_grammar::specs::Reading::for_rest), using(crate::proofs::Kept::kept_for))]
fn for_loop<'a>(
    alloc: Global,
    end: u32,
    depth: u32,
    at: u32,
    scope: &mut Scope,
    tokens: &'a [Token],
) -> Result<(Statement, &'a [Token]), ReadError>
    ensures read { Gives (λ x. (view_statement x.0, x.1.now)) result (for_at depth (stmt_in depth) scope.old tokens.now) }
    ensures scope { IfOk result (λ x. scope.new ≡ after_stmt (view_statement x.0) scope.old) }
{
    match tokens {
        [Token::Open, rest @ ..] => {
            let mark = scope.mark();
            let (start, rest) = start(alloc, end, depth, scope, rest)?;
            let (test, rest) = optional_test(alloc, end, depth, scope, rest)?;
            let (step, rest) = optional_step(alloc, end, depth, scope, rest)?;
            let (body, rest) = body(alloc, end, depth, scope, rest)?;
            scope.end(mark);
            Ok((made::for_loop(start, test, step, body, at), rest))
        }
        _ => Err(broken(tokens)),
    }
}

// What stands behind `break` (ISO/IEC 9899:2011, 6.8.6.3).
#[tactic(auto, unfolding(c_unit_grammar::specs::Reading::break_at))]
fn break_statement(at: u32, tokens: &[Token]) -> Result<(Statement, &[Token]), ReadError>
    ensures read { Gives (λ x. (view_statement x.0, x.1.now)) result (break_at tokens.now) }
    ensures scope { (s : Names) → IfOk result (λ x. s ≡ after_stmt (view_statement x.0) s) }
{
    let rest = ended(tokens)?;
    Ok((Statement::Break { at }, rest))
}

// What stands behind `continue` (ISO/IEC 9899:2011, 6.8.6.2).
#[tactic(auto, unfolding(c_unit_grammar::specs::Reading::continue_at))]
fn continue_statement(at: u32, tokens: &[Token]) -> Result<(Statement, &[Token]), ReadError>
    ensures read { Gives (λ x. (view_statement x.0, x.1.now)) result (continue_at tokens.now) }
    ensures scope { (s : Names) → IfOk result (λ x. s ≡ after_stmt (view_statement x.0) s) }
{
    let rest = ended(tokens)?;
    Ok((Statement::Continue { at }, rest))
}

// What stands behind `return` (ISO/IEC 9899:2011, 6.8.6.4).
#[tactic(auto, unfolding(c_unit_grammar::specs::Reading::return_at))]
fn return_statement<'a>(
    alloc: Global,
    end: u32,
    depth: u32,
    at: u32,
    scope: &mut Scope,
    tokens: &'a [Token],
) -> Result<(Statement, &'a [Token]), ReadError>
    ensures read { Gives (λ x. (view_statement x.0, x.1.now)) result (return_at (inner depth) scope.old tokens.now) }
    ensures scope { IfOk result (λ x. scope.new ≡ after_stmt (view_statement x.0) scope.old) }
{
    let (value, rest) = optional_value(alloc, end, depth, scope, tokens)?;
    Ok((made::returned(value, at), rest))
}

// An expression and `;` (ISO/IEC 9899:2011, 6.8.3).
#[tactic(auto, unfolding(c_unit_grammar::specs::Reading::do_at))]
fn expression<'a>(
    alloc: Global,
    end: u32,
    depth: u32,
    at: u32,
    scope: &mut Scope,
    tokens: &'a [Token],
) -> Result<(Statement, &'a [Token]), ReadError>
    ensures read { Gives (λ x. (view_statement x.0, x.1.now)) result (do_at (inner depth) scope.old tokens.now) }
    ensures scope { IfOk result (λ x. scope.new ≡ after_stmt (view_statement x.0) scope.old) }
{
    let (value, rest) = read_expression(alloc, end, depth, scope, tokens)?;
    let rest = ended(rest)?;
    Ok((made::expression(value, at), rest))
}

// A block, behind its `{`.
#[cycle(statement)]
fn block<'a>(
    alloc: Global,
    end: u32,
    depth: u32,
    at: u32,
    scope: &mut Scope,
    tokens: &'a [Token],
) -> Result<(Statement, &'a [Token]), ReadError>
    ensures read { Gives (λ x. (view_statement x.0, x.1.now)) result (block_of (block_in depth (stmt_in depth) scope.old tokens.now)) }
    ensures scope { IfOk result (λ x. scope.new ≡ after_stmt (view_statement x.0) scope.old) }
{
    let (items, rest) = block_items(alloc, end, depth, scope, tokens)?;
    Ok((made::block(items, at), rest))
}

// A statement, where so many nestings are left (ISO/IEC 9899:2011, 6.8).
#[cycle(statement)]
#[tactic(auto, unfolding(c_unit_grammar::specs::Reading::stmt_at))]
fn statement<'a>(
    alloc: Global,
    end: u32,
    depth: u32,
    scope: &mut Scope,
    tokens: &'a [Token],
) -> Result<(Statement, &'a [Token]), ReadError>
    ensures read { Gives (λ x. (view_statement x.0, x.1.now)) result (stmt_at depth (stmt_in depth) (block_in depth (stmt_in depth)) scope.old tokens.now) }
    ensures scope { IfOk result (λ x. scope.new ≡ after_stmt (view_statement x.0) scope.old) }
{
    let at = number(end, tokens);
    match tokens.split_first() {
        Some((Token::BraceOpen, rest)) => block(alloc, end, depth, at, scope, rest),
        Some((Token::Semi, rest)) => Ok((Statement::Expression { value: None, at }, rest)),
        Some((Token::If, rest)) => if_statement(alloc, end, depth, at, scope, rest),
        Some((Token::Switch, rest)) => switch(alloc, end, depth, at, scope, rest),
        Some((Token::Case, rest)) => case(alloc, end, depth, at, scope, rest),
        Some((Token::Default, rest)) => default(alloc, end, depth, at, scope, rest),
        Some((Token::While, rest)) => while_loop(alloc, end, depth, at, scope, rest),
        Some((Token::Do, rest)) => do_while(alloc, end, depth, at, scope, rest),
        Some((Token::For, rest)) => for_loop(alloc, end, depth, at, scope, rest),
        Some((Token::Break, rest)) => break_statement(at, rest),
        Some((Token::Continue, rest)) => continue_statement(at, rest),
        Some((Token::Return, rest)) => return_statement(alloc, end, depth, at, scope, rest),
        _ => expression(alloc, end, depth, at, scope, tokens),
    }
}
