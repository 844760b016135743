//! The trees of an execution part that is read.

ghost use Rattle.std.specs.Prelude.{◌≡◌, [], ◌∷◌, List, true, IfOk, IsSome, Some};
ghost use Rattle.f_line_read.specs.Lines.{view_line};
ghost use Rattle.f_statement_grammar.specs.Statements as grammar;
ghost use Rattle.f_unit_grammar.specs.Units.{InSelectCase, InSelectRank};
ghost use Rattle.f_construct_parts.specs.Lines.{blocks_of, select_case_line, select_rank_line};
ghost use Rattle.f_construct_parts.specs.Views.{next_line, starts};
ghost use Rattle.f_constructs.specs.Frames.{nest_front, nest_states};
ghost use Rattle.f_constructs.specs.Next.{after_next, started};
ghost use Rattle.f_constructs.specs.Execution.{front, states, after};

use crate::begin::{action, do_begun, if_action, if_then, select_case, select_rank};
use crate::divide::{divide, divide_cases, divide_ranks};
use crate::nest::Nest;
use crate::stack::Stack;
use crate::{select_case as case_blocks, select_rank as rank_blocks};
use f_construct_parts::head::{SelectCaseHead, SelectRankHead};
use f_construct_parts::{Next, next_line};
use f_line_read::Line;
use f_tree::Statement;
use jf_base::{Boxed, List};
use std::alloc::{AllocError, Global};

/// A SELECT statement whose first block hasn't begun
#[derive(Drop)]
pub enum Selecting {
    Nothing,
    Case(Boxed<SelectCaseHead>),
    Rank(Boxed<SelectRankHead>),
}

/// The action statements and constructs of an execution part (ISO/IEC 1539-1:2018, 5.1 and 11.1), up to the statement that is put in next.
#[derive(Drop)]
pub struct Execution {
    pub nest: Nest,
    pub selecting: Selecting,
}

// A block is read, and no SELECT statement stands before it without its first block.
#[tactic(auto, unfolding(crate::specs::Execution::front, crate::specs::Execution::states))]
fn in_block(nest: Nest) -> Execution
    ensures front { (rest : List grammar.Statement) → front result rest ≡ nest_front nest rest }
    ensures states { states result ≡ nest_states nest }
{
    Execution {
        nest,
        selecting: Selecting::Nothing,
    }
}

// A statement that has a place in every block.
fn begin(nest: Nest, line: Line) -> Result<Execution, AllocError>
    requires { starts (next_line line) ≡ true }
    ensures front { IfOk result (λ e. (rest : List grammar.Statement) → front e rest ≡ nest_front nest (grammar.Executable (view_line line) ∷ rest)) }
    ensures states { IfOk result (λ e. states e ≡ started (next_line line) (nest_states nest)) }
{
    match next_line(&line) {
        Next::Action => Ok(in_block(action(nest, line)?)),
        Next::IfAction => Ok(in_block(if_action(nest, line)?)),
        Next::IfThen => Ok(in_block(if_then(nest, line)?)),
        Next::Do => Ok(in_block(do_begun(nest, line)?)),
        Next::SelectCase => select_case(nest, line),
        Next::SelectRank => select_rank(nest, line),
        _ => unreachable!(),
    }
}

// A statement behind those of a block.
#[tactic(auto, using(crate::proofs::Places::begun_on))]
fn put_in_block(nest: Nest, line: Line) -> Result<Execution, AllocError>
    requires { IsSome (after_next (nest_states nest) (next_line line)) }
    ensures front { IfOk result (λ e. (rest : List grammar.Statement) → front e rest ≡ nest_front nest (grammar.Executable (view_line line) ∷ rest)) }
    ensures states { IfOk result (λ e. after_next (nest_states nest) (next_line line) ≡ Some (states e)) }
{
    if next_line(&line).starts() {
        begin(nest, line)
    } else {
        Ok(in_block(divide(nest, line)?))
    }
}

// A statement behind SELECT CASE.
fn put_in_cases(nest: Nest, head: SelectCaseHead, line: Line) -> Result<Execution, AllocError>
    requires { IsSome (after_next (InSelectCase ∷ nest_states nest) (next_line line)) }
    ensures front { IfOk result (λ e. (rest : List grammar.Statement) → front e rest ≡ nest_front nest (select_case_line head.is_one_word head.selector ∷ grammar.Executable (view_line line) ∷ rest)) }
    ensures states { IfOk result (λ e. after_next (InSelectCase ∷ nest_states nest) (next_line line) ≡ Some (states e)) }
{
    let Nest {
        alloc,
        frames,
        block,
    } = nest;
    let start = case_blocks::begun(alloc, block, head);
    Ok(in_block(divide_cases(alloc, frames, start, line)?))
}

// A statement behind SELECT RANK.
fn put_in_ranks(nest: Nest, head: SelectRankHead, line: Line) -> Result<Execution, AllocError>
    requires { IsSome (after_next (InSelectRank ∷ nest_states nest) (next_line line)) }
    ensures front { IfOk result (λ e. (rest : List grammar.Statement) → front e rest ≡ nest_front nest (select_rank_line head.renamed head.selector ∷ grammar.Executable (view_line line) ∷ rest)) }
    ensures states { IfOk result (λ e. after_next (InSelectRank ∷ nest_states nest) (next_line line) ≡ Some (states e)) }
{
    let Nest {
        alloc,
        frames,
        block,
    } = nest;
    let start = rank_blocks::begun(alloc, block, head);
    Ok(in_block(divide_ranks(alloc, frames, start, line)?))
}

impl Execution {
    /// No statement.
    #[tactic(auto, unfolding(crate::specs::Execution::front, crate::specs::Execution::states))]
    pub fn new(alloc: Global) -> Execution
        ensures nothing { (rest : List grammar.Statement) → front result rest ≡ rest }
        ensures closed { states result ≡ [] }
    {
        Execution {
            nest: Nest {
                alloc,
                frames: Stack::new(alloc),
                block: List::from_vec(Vec::new(alloc)),
            },
            selecting: Selecting::Nothing,
        }
    }

    /// One statement more, which has a place here. An error is want of memory.
    #[tactic(auto, unfolding(crate::specs::Execution::front, crate::specs::Execution::states), using(crate::proofs::Places::after_line))]
    pub fn put(self, line: Line) -> Result<Execution, AllocError>
        requires { IsSome (after (states self) (view_line line)) }
        ensures front { IfOk result (λ e. (rest : List grammar.Statement) → front e rest ≡ front self (grammar.Executable (view_line line) ∷ rest)) }
        ensures states { IfOk result (λ e. after (states self) (view_line line) ≡ Some (states e)) }
    {
        let Execution { nest, selecting } = self;
        match selecting {
            Selecting::Nothing => put_in_block(nest, line),
            Selecting::Case(head) => put_in_cases(nest, head.into_inner(), line),
            Selecting::Rank(head) => put_in_ranks(nest, head.into_inner(), line),
        }
    }

    /// The trees, where each construct is ended.
    #[tactic(auto, unfolding(crate::specs::Execution::front, crate::specs::Execution::states))]
    pub fn finish(self) -> List<Statement>
        requires { states self ≡ [] }
        ensures { (rest : List grammar.Statement) → blocks_of result rest ≡ front self rest }
    {
        self.nest.block
    }
}
