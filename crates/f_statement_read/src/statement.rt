//! The statement that tokens are.

ghost use Rattle.std.specs.Prelude.{◌≡◌};
ghost use Rattle.f_declaration_grammar.specs.DeclarationReading.{declared_at};
ghost use Rattle.f_statement_grammar.specs.Statements.{declaring, statement_at};
ghost use Rattle.f_expr_read.specs.Gives.{Gives};
ghost use Rattle.f_expr_read.specs.Views.{tokens_of};
ghost use Rattle.f_statement_read.specs.Views.{view_statement};

use f_declaration_read::read_declaration;
use f_declared::Declared;
use f_expr_read::ReadError;
use f_lex::Spanned;
use f_line_read::{Line, read_line};
use std::alloc::Global;

/// A statement of a file (ISO/IEC 1539-1:2018, 5.1).
#[derive(Drop)]
pub enum Statement {
    /// A statement of an executable part, or one that begins, divides or ends a construct
    Executable(Line),
    /// A statement of a specification part, or one that begins, divides or ends a unit, an interface or the definition of a derived type
    Declaring(Declared),
}

fn declaration(alloc: Global, tokens: &[Spanned]) -> Result<Statement, ReadError>
    ensures { Gives view_statement result (declaring (declared_at 65 (tokens_of tokens.now))) }
{
    Ok(Statement::Declaring(read_declaration(alloc, tokens)?))
}

/// The statement that all the tokens are, without the end of the statement. Where they can be read as an executable statement, they are that.
/// Expressions keep to 64 nestings. `Form` says that the tokens are no statement.
#[tactic(auto, unfolding(f_statement_grammar::specs::Statements::statement_at))]
pub fn read_statement(alloc: Global, tokens: &[Spanned]) -> Result<Statement, ReadError>
    ensures exact { Gives view_statement result (statement_at 65 (tokens_of tokens.now)) }
{
    match read_line(alloc, tokens) {
        Ok(line) => Ok(Statement::Executable(line)),
        Err(ReadError::Memory) => Err(ReadError::Memory),
        Err(ReadError::Form) => declaration(alloc, tokens),
    }
}
