//! Reading all statements of a file.

ghost use Rattle.std.specs.Prelude.{◌≡◌, map, true, [], ◌∷◌, ◌++◌, IfOk};
ghost use Rattle.f_statement_grammar.specs.Statements.{statement_at};
ghost use Rattle.f_expr_read.specs.Views.{tokens_of};
ghost use Rattle.f_statement_read.specs.Views.{view_statement};
ghost use Rattle.f_file_read.specs.Reading.{formed, read_piece, read_file, at_end};
ghost use Rattle.f_file_read.specs.Views.{view_open, view_read, Answers};

use crate::stack::{Opened, Rule, depth_of, file_alone, open_unit, placed, refused};
use f_expr_read::ReadError;
use f_lex::Spanned;
use f_statement_cut::{statement_at, too_deep};
use f_statement_read::{Statement, read_statement};
use jf_base::{Place, Refusal};
use std::alloc::{AllocError, Global};

/// A statement of these tokens, which begins here, behind those that left this open.
fn formed(
    alloc: Global,
    stack: Vec<Opened>,
    at: Place,
    tokens: &[Spanned],
) -> Result<(Vec<Opened>, Statement), Refusal>
    ensures { Answers view_read result (formed (view_open stack.items) at true (statement_at 65 (tokens_of tokens.now))) }
{
    match read_statement(alloc, tokens) {
        Ok(statement) => {
            let next = placed(alloc, stack, &statement, at)?;
            Ok((next, statement))
        }
        Err(ReadError::Memory) => Err(Refusal::Memory),
        Err(ReadError::Form) => Err(refused(at, Rule::NoForm)),
    }
}

#[tactic(auto, unfolding(crate::specs::Reading::read_piece))]
fn read_piece(
    alloc: Global,
    stack: Vec<Opened>,
    at: Place,
    tokens: &[Spanned],
    end: Option<Place>,
) -> Result<(Vec<Opened>, Statement), Refusal>
    ensures { Answers view_read result (read_piece (view_open stack.items) at (tokens.now, end)) }
{
    match too_deep(depth_of(&stack), tokens) {
        Some(place) => Err(refused(place, Rule::TooNested)),
        None => match end {
            None => Err(refused(at, Rule::NoForm)),
            Some(_) => formed(alloc, stack, at, tokens),
        },
    }
}

fn and_last(statements: Vec<Statement>, last: Statement) -> Result<Vec<Statement>, AllocError>
    ensures { IfOk result (λ all. map view_statement all.items ≡ map view_statement statements.items ++ view_statement last ∷ []) }
{
    let mut all = statements;
    all.push(last)?;
    Ok(all)
}

// The statements, where no unit is open any more.
fn at_end(stack: &[Opened], statements: Vec<Statement>) -> Result<Vec<Statement>, Refusal>
    ensures { Answers (λ v. map view_statement v.items) result (at_end (view_open stack.now, map view_statement statements.items)) }
{
    match open_unit(stack) {
        None => Ok(statements),
        Some(place) => Err(refused(place, Rule::Misplaced)),
    }
}

/// The statements of a file, of all its tokens: each has its form and its place, and nothing is open at the end (ISO/IEC 1539-1:2018, 5.1 to 5.3).
/// Otherwise the first statement that breaks a rule, by the tag of the rule and where: S01 where it has no form or its end is missing, at its first
/// token; S02 where it has no place, at its first token, or at the end where a unit lacks its own, at that unit's first token; S03 where constructs,
/// parentheses and brackets nest more than 64 deep, at the token that opens a nesting too many. In one statement S03 that comes of parentheses or
/// brackets stands before the others.
pub fn read_statements(alloc: Global, tokens: &[Spanned]) -> Result<Vec<Statement>, Refusal>
    ensures { Answers (λ v. map view_statement v.items) result (read_file tokens.now) }
{
    let mut stack = file_alone(alloc)?;
    let mut statements = Vec::new(alloc);
    let mut rest = tokens;
    'statements: while let Some((first, _)) = rest.split_first() {
        let at = first.place;
        let (statement, end, behind) = statement_at(rest);
        let (next, read) = read_piece(alloc, stack, at, statement, end)?;
        stack = next;
        statements = and_last(statements, read)?;
        rest = behind;
    }
    at_end(&stack, statements)
}
