//! Statements that divide and end constructs.

ghost use Rattle.std.specs.Prelude.{◌≡◌, ◌∷◌, List, map, false, IfOk, IsSome, Some};
ghost use Rattle.f_line_read.specs.Lines.{view_line};
ghost use Rattle.f_statement_grammar.specs.Statements as grammar;
ghost use Rattle.f_construct_parts.specs.Walking.{moved};
ghost use Rattle.f_construct_parts.specs.Lines.{blocks_of};
ghost use Rattle.f_construct_parts.specs.Views.{next_line, starts};
ghost use Rattle.f_constructs.specs.Frames.{frame_front, frame_state, frames_front, nest_front, nest_states, if_start_front, case_start_front, rank_start_front, if_front, else_if_front, else_front, do_front, case_front, rank_front};
ghost use Rattle.f_constructs.specs.Next.{if_next, else_next, do_next, cases_next, case_next, ranks_next, rank_next, role_next, after_next};

use crate::do_construct::end_do;
use crate::frame::{
    CaseFrame, CaseStart, DoFrame, ElseFrame, ElseIfFrame, Frame, IfFrame, IfStart, RankFrame,
    RankStart,
};
use crate::if_construct::{behind_else_if, behind_if, else_if, end_else, end_if, otherwise};
use crate::nest::Nest;
use crate::select_case::{behind_case, case, end_select_case};
use crate::select_rank::{behind_rank, end_select_rank, rank};
use crate::stack::Stack;
use f_construct_parts::{Next, next_line};
use f_line_read::Line;
use f_tree::Statement;
use jf_base::List;
use std::alloc::{AllocError, Global};

// A statement behind a block of IF or ELSE IF.
fn divide_if(
    alloc: Global,
    frames: Stack<Frame>,
    start: IfStart,
    line: Line,
) -> Result<Nest, AllocError>
    requires divides { starts (next_line line) ≡ false }
    requires placed { IsSome (moved (if_next (next_line line)) (map frame_state frames)) }
    ensures front { IfOk result (λ n. (rest : List grammar.Statement) → nest_front n rest ≡ frames_front frames (if_start_front start (grammar.Executable (view_line line) ∷ rest))) }
    ensures states { IfOk result (λ n. moved (if_next (next_line line)) (map frame_state frames) ≡ Some (nest_states n)) }
{
    match next_line(&line) {
        Next::ElseIf => else_if(alloc, frames, start, line),
        Next::Else => otherwise(alloc, frames, start, line),
        Next::EndIf => end_if(alloc, frames, start, line),
        _ => unreachable!(),
    }
}

/// CASE or END SELECT.
pub fn divide_cases(
    alloc: Global,
    frames: Stack<Frame>,
    start: CaseStart,
    line: Line,
) -> Result<Nest, AllocError>
    requires { IsSome (moved (cases_next (next_line line)) (map frame_state frames)) }
    ensures front { IfOk result (λ n. (rest : List grammar.Statement) → nest_front n rest ≡ frames_front frames (case_start_front start (grammar.Executable (view_line line) ∷ rest))) }
    ensures states { IfOk result (λ n. moved (cases_next (next_line line)) (map frame_state frames) ≡ Some (nest_states n)) }
{
    match next_line(&line) {
        Next::Case => case(alloc, frames, start, line),
        Next::EndSelect => end_select_case(alloc, frames, start, line),
        _ => unreachable!(),
    }
}

/// RANK or END SELECT.
pub fn divide_ranks(
    alloc: Global,
    frames: Stack<Frame>,
    start: RankStart,
    line: Line,
) -> Result<Nest, AllocError>
    requires { IsSome (moved (ranks_next (next_line line)) (map frame_state frames)) }
    ensures front { IfOk result (λ n. (rest : List grammar.Statement) → nest_front n rest ≡ frames_front frames (rank_start_front start (grammar.Executable (view_line line) ∷ rest))) }
    ensures states { IfOk result (λ n. moved (ranks_next (next_line line)) (map frame_state frames) ≡ Some (nest_states n)) }
{
    match next_line(&line) {
        Next::Rank => rank(alloc, frames, start, line),
        Next::EndSelect => end_select_rank(alloc, frames, start, line),
        _ => unreachable!(),
    }
}

// A statement behind the first block of IF.
fn in_if(
    alloc: Global,
    frames: Stack<Frame>,
    frame: IfFrame,
    block: List<Statement>,
    line: Line,
) -> Result<Nest, AllocError>
    requires divides { starts (next_line line) ≡ false }
    requires placed { IsSome (moved (if_next (next_line line)) (map frame_state frames)) }
    ensures front { IfOk result (λ n. (rest : List grammar.Statement) → nest_front n rest ≡ frames_front frames (if_front frame (blocks_of block (grammar.Executable (view_line line) ∷ rest)))) }
    ensures states { IfOk result (λ n. moved (if_next (next_line line)) (map frame_state frames) ≡ Some (nest_states n)) }
{
    divide_if(alloc, frames, behind_if(alloc, frame, block), line)
}

// A statement behind the block of ELSE IF.
fn in_else_if(
    alloc: Global,
    frames: Stack<Frame>,
    frame: ElseIfFrame,
    block: List<Statement>,
    line: Line,
) -> Result<Nest, AllocError>
    requires divides { starts (next_line line) ≡ false }
    requires placed { IsSome (moved (if_next (next_line line)) (map frame_state frames)) }
    ensures front { IfOk result (λ n. (rest : List grammar.Statement) → nest_front n rest ≡ frames_front frames (else_if_front frame (blocks_of block (grammar.Executable (view_line line) ∷ rest)))) }
    ensures states { IfOk result (λ n. moved (if_next (next_line line)) (map frame_state frames) ≡ Some (nest_states n)) }
{
    let start = behind_else_if(frame, block)?;
    divide_if(alloc, frames, start, line)
}

// A statement behind the block of ELSE.
fn in_else(
    alloc: Global,
    frames: Stack<Frame>,
    frame: ElseFrame,
    block: List<Statement>,
    line: Line,
) -> Result<Nest, AllocError>
    requires divides { starts (next_line line) ≡ false }
    requires placed { IsSome (moved (else_next (next_line line)) (map frame_state frames)) }
    ensures front { IfOk result (λ n. (rest : List grammar.Statement) → nest_front n rest ≡ frames_front frames (else_front frame (blocks_of block (grammar.Executable (view_line line) ∷ rest)))) }
    ensures states { IfOk result (λ n. moved (else_next (next_line line)) (map frame_state frames) ≡ Some (nest_states n)) }
{
    match next_line(&line) {
        Next::EndIf => end_else(alloc, frames, frame, block, line),
        _ => unreachable!(),
    }
}

// A statement behind the block of DO.
fn in_do(
    alloc: Global,
    frames: Stack<Frame>,
    frame: DoFrame,
    block: List<Statement>,
    line: Line,
) -> Result<Nest, AllocError>
    requires divides { starts (next_line line) ≡ false }
    requires placed { IsSome (moved (do_next (next_line line)) (map frame_state frames)) }
    ensures front { IfOk result (λ n. (rest : List grammar.Statement) → nest_front n rest ≡ frames_front frames (do_front frame (blocks_of block (grammar.Executable (view_line line) ∷ rest)))) }
    ensures states { IfOk result (λ n. moved (do_next (next_line line)) (map frame_state frames) ≡ Some (nest_states n)) }
{
    match next_line(&line) {
        Next::EndDo => end_do(alloc, frames, frame, block, line),
        _ => unreachable!(),
    }
}

// A statement behind the block of CASE.
fn in_case(
    alloc: Global,
    frames: Stack<Frame>,
    frame: CaseFrame,
    block: List<Statement>,
    line: Line,
) -> Result<Nest, AllocError>
    requires divides { starts (next_line line) ≡ false }
    requires placed { IsSome (moved (case_next (next_line line)) (map frame_state frames)) }
    ensures front { IfOk result (λ n. (rest : List grammar.Statement) → nest_front n rest ≡ frames_front frames (case_front frame (blocks_of block (grammar.Executable (view_line line) ∷ rest)))) }
    ensures states { IfOk result (λ n. moved (case_next (next_line line)) (map frame_state frames) ≡ Some (nest_states n)) }
{
    let start = behind_case(frame, block)?;
    divide_cases(alloc, frames, start, line)
}

// A statement behind the block of RANK.
fn in_rank(
    alloc: Global,
    frames: Stack<Frame>,
    frame: RankFrame,
    block: List<Statement>,
    line: Line,
) -> Result<Nest, AllocError>
    requires divides { starts (next_line line) ≡ false }
    requires placed { IsSome (moved (rank_next (next_line line)) (map frame_state frames)) }
    ensures front { IfOk result (λ n. (rest : List grammar.Statement) → nest_front n rest ≡ frames_front frames (rank_front frame (blocks_of block (grammar.Executable (view_line line) ∷ rest)))) }
    ensures states { IfOk result (λ n. moved (rank_next (next_line line)) (map frame_state frames) ≡ Some (nest_states n)) }
{
    let start = behind_rank(frame, block)?;
    divide_ranks(alloc, frames, start, line)
}

// A statement behind the block in a construct.
#[tactic(auto, unfolding(crate::specs::Frames::frame_front, crate::specs::Frames::frame_state))]
fn in_frame(
    alloc: Global,
    frames: Stack<Frame>,
    frame: Frame,
    block: List<Statement>,
    line: Line,
) -> Result<Nest, AllocError>
    requires divides { starts (next_line line) ≡ false }
    requires placed { IsSome (moved (role_next (frame_state frame) (next_line line)) (map frame_state frames)) }
    ensures front { IfOk result (λ n. (rest : List grammar.Statement) → nest_front n rest ≡ frames_front frames (frame_front frame (blocks_of block (grammar.Executable (view_line line) ∷ rest)))) }
    ensures states { IfOk result (λ n. moved (role_next (frame_state frame) (next_line line)) (map frame_state frames) ≡ Some (nest_states n)) }
{
    match frame {
        Frame::If(boxed) => in_if(alloc, frames, boxed.into_inner(), block, line),
        Frame::ElseIf(boxed) => in_else_if(alloc, frames, boxed.into_inner(), block, line),
        Frame::Else(boxed) => in_else(alloc, frames, boxed.into_inner(), block, line),
        Frame::Do(boxed) => in_do(alloc, frames, boxed.into_inner(), block, line),
        Frame::Case(boxed) => in_case(alloc, frames, boxed.into_inner(), block, line),
        Frame::Rank(boxed) => in_rank(alloc, frames, boxed.into_inner(), block, line),
    }
}

/// A statement that divides or ends the innermost construct, behind a block of that.
pub fn divide(nest: Nest, line: Line) -> Result<Nest, AllocError>
    requires divides { starts (next_line line) ≡ false }
    requires placed { IsSome (after_next (nest_states nest) (next_line line)) }
    ensures front { IfOk result (λ n. (rest : List grammar.Statement) → nest_front n rest ≡ nest_front nest (grammar.Executable (view_line line) ∷ rest)) }
    ensures states { IfOk result (λ n. after_next (nest_states nest) (next_line line) ≡ Some (nest_states n)) }
{
    let Nest {
        alloc,
        mut frames,
        block,
    } = nest;
    match frames.pop() {
        None => unreachable!(),
        Some(frame) => in_frame(alloc, frames, frame, block, line),
    }
}
