//! What stands first among tokens, with the names in scope.
//!
//! Each function takes the number `end` of the token behind the last one of the unit, which the tokens reach to, and how many nestings are left; it
//! declares in the scope what it reads. Where it answers with a fault, what stands in the scope is not told.

ghost use Rattle.std.specs.Prelude.{◌≡◌, IfOk, List, map};
ghost use Rattle.c_grammar.specs.declared.token.Token.{Token as Lexeme};
ghost use Rattle.c_grammar.specs.Reading.{Gives};
ghost use Rattle.c_unit_grammar.specs.Statements.{Stmt, spell_stmt, after_stmt, takes_else, StopsElse, WithinStmt};
ghost use Rattle.c_unit_grammar.specs.Reading.{block_in, stmt_in};
ghost use Rattle.c_expression_read.specs.Gives.{IsReadAs};
ghost use Rattle.c_statement_read.specs.Views.{view_statement, view_item, items_of};

use crate::statement::{block_items, nested};
use c_grammar::{ReadError, Token};
use c_scope::Scope;
use c_tree::{BlockItem, Statement};
use std::alloc::Global;

/// The statement that stands first, one nesting down, and the tokens behind it (ISO/IEC 9899:2011, 6.8). An `else` behind a statement that could have it is
/// never left.
pub fn read_statement<'a>(
    alloc: Global,
    end: u32,
    depth: u32,
    scope: &mut Scope,
    tokens: &'a [Token],
) -> Result<(Statement, &'a [Token]), ReadError>
    ensures read { Gives (λ x. (view_statement x.0, x.1.now)) result (stmt_in depth scope.old tokens.now) }
    ensures scope { IfOk result (λ x. scope.new ≡ after_stmt (view_statement x.0) scope.old) }
    ensures found { IfOk result (λ x. (tokens.now ≡ spell_stmt (view_statement x.0) x.1.now) × WithinStmt depth scope.old (view_statement x.0) × StopsElse (takes_else (view_statement x.0)) x.1.now) }
    ensures only { (one : Stmt) (rest : List Lexeme) → WithinStmt depth scope.old one → StopsElse (takes_else one) rest → tokens.now ≡ spell_stmt one rest → IsReadAs one rest (λ x. (view_statement x.0, x.1.now)) result }
{
    nested(alloc, end, depth, scope, tokens)
}

/// What stands behind the `{` of a block, one nesting down, and the tokens behind its `}` (ISO/IEC 9899:2011, 6.8.2). The block is a scope of its own,
/// which ends there.
pub fn read_block<'a>(
    alloc: Global,
    end: u32,
    depth: u32,
    scope: &mut Scope,
    tokens: &'a [Token],
) -> Result<(Vec<BlockItem>, &'a [Token]), ReadError>
    ensures read { Gives (λ x. (items_of (map view_item x.0.items), x.1.now)) result (block_in depth (stmt_in depth) scope.old tokens.now) }
    ensures scope { IfOk result (λ _. scope.new ≡ scope.old) }
{
    block_items(alloc, end, depth, scope, tokens)
}
