//! What stands behind the specifiers and the declarator of an external declaration. Each function reads what stands first and answers it with the tokens
//! behind it; the number behind the last token of the unit is `end`.

ghost use Rattle.std.specs.Prelude.{◌≡◌, ◌<◌, ◌^◌, ◌-◌, IfOk, sum, length, take, map};
ghost use Rattle.c_grammar.specs.Grammar.{Scope as Names, after_typed, bind, name_of};
ghost use Rattle.c_grammar.specs.Reading.{Gives};
ghost use Rattle.c_unit_grammar.specs.Statements.{body_scope, after_ext};
ghost use Rattle.c_unit_grammar.specs.Reading.{block_in, stmt_in};
ghost use Rattle.c_expression_read.specs.Views.{view_declarator, view_typed};
ghost use Rattle.c_statement_read.specs.Views.{view_item, items_of};
ghost use Rattle.c_external_read.specs.Views.{view_external, named, inside_body, outer_behind};
ghost use Rattle.c_external_read.specs.Counts.{IsCounted};

use crate::made;
use c_declaration_read::{brace_opened, declare, read_behind_declarator};
use c_expression_read::{is_typedef, number};
use c_grammar::{ReadError, Token};
use c_redeclare::declare_parameters;
use c_scope::Scope;
use c_statement_read::read_block;
use c_tree::{BlockItem, Declarator, External, Typed};
use std::alloc::{AllocError, Global};

// Declares the name of a function and, for its body, its parameters again (ISO/IEC 9899:2011, 6.2.1p4 and 6.9.1p7). The answer is what ends the body's
// scope.
#[tactic(auto, using(crate::proofs::Kept::kept_params))]
fn begin_body(
    scope: &mut Scope,
    is_typedef: bool,
    declarator: &Declarator,
) -> Result<usize, AllocError>
    ensures scope { IfOk result (λ _. scope.new ≡ body_scope is_typedef (view_declarator declarator.now) scope.old) }
    ensures outside { IfOk result (λ mark. take mark scope.new ≡ bind (name_of (view_declarator declarator.now)) is_typedef scope.old) }
{
    declare(scope, is_typedef, declarator)?;
    let mark = scope.mark();
    declare_parameters(scope, declarator)?;
    Ok(mark)
}

// What stands behind the `{` of a function's body, and its `}`. The body is a scope of its own, and the function's name is declared behind it.
fn body<'a>(
    alloc: Global,
    end: u32,
    depth: u32,
    first: &Typed,
    scope: &mut Scope,
    tokens: &'a [Token],
) -> Result<(Vec<BlockItem>, &'a [Token]), ReadError>
    ensures read { Gives (λ x. (items_of (map view_item x.0.items), x.1.now)) result (block_in depth (stmt_in depth) (inside_body (view_typed first.now) scope.old) tokens.now) }
    ensures scope { IfOk result (λ _. scope.new ≡ named (view_typed first.now) scope.old) }
{
    let is_typedef = is_typedef(first.specifiers.as_slice());
    let mark = begin_body(scope, is_typedef, &first.declarator)?;
    let (items, rest) = read_block(alloc, end, depth, scope, tokens)?;
    scope.end(mark);
    Ok((items, rest))
}

/// What stands behind the specifiers and the first declarator of an external declaration: the body of a function, or the rest of a declaration.
#[tactic(auto, unfolding(c_unit_grammar::specs::Reading::body_at))]
pub fn behind_first<'a>(
    alloc: Global,
    end: u32,
    depth: u32,
    first: Typed,
    counts: &[u32],
    scope: &mut Scope,
    tokens: &'a [Token],
) -> Result<(External, &'a [Token]), ReadError>
    requires { sum counts.now < 2 ^ 32 }
    ensures read { Gives (λ x. (view_external x.0, x.1.now)) result (outer_behind depth (view_typed first) scope.old tokens.now) }
    ensures scope { IfOk result (λ x. (s : Names) → scope.old ≡ after_typed (view_typed first) s → scope.new ≡ after_ext (view_external x.0) s) }
    ensures counted { IfOk result (λ x. IsCounted counts.now first.at (end - length x.1.now - first.at) x.0) }
{
    match brace_opened(tokens) {
        None => {
            let (declaration, rest) = read_behind_declarator(
                alloc, end, depth, first, scope, tokens,
            )?;
            Ok((External::Declaration(declaration), rest))
        }
        Some(rest) => {
            let (body, rest) = body(alloc, end, depth, &first, scope, rest)?;
            let behind = number(end, rest);
            Ok((made::function(first, body, counts, behind), rest))
        }
    }
}
