//! The statements that are still to be put together.

ghost use Rattle.std.specs.Prelude.{◌≡◌, [], ◌∷◌, List, IfOk, MatchOption};
ghost use Rattle.f_statement_read.specs.declared.statement.Statement.TheVariants.{Executable};
ghost use Rattle.f_construct_parts.specs.Views.{IfMisplaced, next_line, next_statement, next_of, starts, divides_if, is_else, divides_case, divides_rank, ends_select};
ghost use Rattle.f_construct_parts.specs.declared.statements.Next.TheVariants.{Other};
ghost use Rattle.f_construct_parts.specs.declared.statements.BlockError.TheVariants.{Memory};

use f_line_read::{Construct, Line};
use f_statement_read::Statement;
use std::alloc::{AllocError, AllocFailed};
use std::marker::Model;

/// Why no block was built.
#[derive(Clone, Copy, PartialEq, Eq, Debug)]
pub enum BlockError {
    /// Memory was wanting.
    Memory,
    /// A statement has no place inside a construct, or a construct isn't ended.
    Misplaced,
}

impl From<AllocError> for BlockError {
    ghost from_gives = { λ _ e. e ≡ Memory };

    fn from(_error: AllocError) -> BlockError {
        BlockError::Memory
    }
}

impl<T: Drop> From<AllocFailed<T>> for BlockError {
    ghost from_gives = { λ _ e. e ≡ Memory };

    fn from(_error: AllocFailed<T>) -> BlockError {
        BlockError::Memory
    }
}

/// What the next statement does to a construct.
#[derive(Clone, Copy)]
pub enum Next {
    Action,
    IfAction,
    IfThen,
    Do,
    SelectCase,
    SelectRank,
    ElseIf,
    Else,
    Case,
    Rank,
    EndIf,
    EndDo,
    EndSelect,
    /// No executable statement is there.
    Other,
}

/// Statements, of which the next is taken away first. They lie from the last to the first.
#[derive(Drop)]
pub struct Statements {
    backward: Vec<Statement>,
}

impl Model for Statements {
    ghost use Rattle.std.specs.Prelude.{List, reverse};
    ghost use Rattle.std.specs.Coded.{coded_list};
    ghost use Rattle.f_statement_read.specs.declared.statement.Statement.{Statement};
    ghost use Rattle.f_statement_read.specs.contracts.statement.Statement as statement;

    ghost Value = { List Statement };

    ghost coded = { coded_list statement.the_row.coded };

    ghost view = { λ s. reverse s.backward.items };
}

impl Next {
    /// An action statement or a construct begins.
    pub fn starts(self) -> bool
        ensures { result ≡ starts self }
    {
        matches!(
            self,
            Next::Action
                | Next::IfAction
                | Next::IfThen
                | Next::Do
                | Next::SelectCase
                | Next::SelectRank
        )
    }

    /// ELSE IF
    pub fn divides_if(self) -> bool
        ensures { result ≡ divides_if self }
    {
        matches!(self, Next::ElseIf)
    }

    /// ELSE
    pub fn is_else(self) -> bool
        ensures { result ≡ is_else self }
    {
        matches!(self, Next::Else)
    }

    /// CASE
    pub fn divides_case(self) -> bool
        ensures { result ≡ divides_case self }
    {
        matches!(self, Next::Case)
    }

    /// RANK
    pub fn divides_rank(self) -> bool
        ensures { result ≡ divides_rank self }
    {
        matches!(self, Next::Rank)
    }

    /// END SELECT
    pub fn ends_select(self) -> bool
        ensures { result ≡ ends_select self }
    {
        matches!(self, Next::EndSelect)
    }
}

/// What a statement does to a construct.
pub fn next_line(line: &Line) -> Next
    ensures { result ≡ next_line line.now }
{
    match line {
        Line::Action(_) => Next::Action,
        Line::IfAction { .. } => Next::IfAction,
        Line::IfThen { .. } => Next::IfThen,
        Line::ElseIf { .. } => Next::ElseIf,
        Line::Else { .. } => Next::Else,
        Line::Do { .. } => Next::Do,
        Line::SelectCase { .. } => Next::SelectCase,
        Line::Case { .. } => Next::Case,
        Line::SelectRank { .. } => Next::SelectRank,
        Line::Rank { .. } => Next::Rank,
        Line::End { construct, .. } => match construct {
            Construct::If => Next::EndIf,
            Construct::Do => Next::EndDo,
            Construct::Select => Next::EndSelect,
        },
    }
}

fn line_of(statement: Statement) -> Result<Line, BlockError>
    ensures line { IfOk result (λ l. statement ≡ Executable l) }
    ensures misplaced { IfMisplaced result (next_statement statement ≡ Other) }
{
    match statement {
        Statement::Executable(line) => Ok(line),
        Statement::Declaring(_) => Err(BlockError::Misplaced),
    }
}

impl Statements {
    /// These statements, from the first to the last.
    pub fn from_vec(statements: Vec<Statement>) -> Statements
        ensures { result ≡ statements.items }
    {
        let mut backward = statements;
        backward.reverse();
        Statements { backward }
    }

    /// The next statement.
    pub fn peek(&self) -> Option<&Statement>
        ensures { MatchOption result (self.now ≡ []) (λ s. (rest : _) × self.now ≡ s.now ∷ rest) }
    {
        self.backward.last()
    }

    /// Takes the next statement away.
    pub fn pop(&mut self) -> Option<Statement>
        ensures { MatchOption result (self.old ≡ [] × self.new ≡ []) (λ s. self.old ≡ s ∷ self.new) }
    {
        self.backward.pop()
    }

    /// What the next statement does to a construct.
    #[tactic(auto, unfolding(crate::specs::Views::next_of))]
    pub fn next(&self) -> Next
        ensures { result ≡ next_of self.now }
    {
        match self.peek() {
            Some(Statement::Executable(line)) => next_line(line),
            Some(Statement::Declaring(_)) => Next::Other,
            None => Next::Other,
        }
    }

    /// Takes the next statement away, which is an executable one.
    #[tactic(auto, unfolding(crate::specs::Views::next_of))]
    pub fn line(&mut self) -> Result<Line, BlockError>
        ensures line { IfOk result (λ l. self.old ≡ Executable l ∷ self.new) }
        ensures misplaced { IfMisplaced result (next_of self.old ≡ Other) }
    {
        match self.pop() {
            Some(statement) => line_of(statement),
            None => Err(BlockError::Misplaced),
        }
    }
}
