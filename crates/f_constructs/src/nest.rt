//! A block that is read, and what is open around it.

ghost use Rattle.std.specs.Prelude.{◌≡◌, [], ◌∷◌, List, map, IfOk};
ghost use Rattle.f_statement_grammar.specs.Statements as grammar;
ghost use Rattle.f_unit_grammar.specs.Units.{InIf, InElse, InDo, InCase, InRank};
ghost use Rattle.f_construct_parts.specs.Lines.{blocks_of, if_line, else_if_line, else_line, loop_line, case_line, rank_line};
ghost use Rattle.f_constructs.specs.Frames.{frame_state, frames_front, nest_front, nest_states, if_start_front, case_start_front, rank_start_front};

use crate::frame::{CaseFrame, DoFrame, ElseFrame, ElseIfFrame, Frame, IfFrame, RankFrame};
use crate::stack::Stack;
use f_tree::Statement;
use jf_base::{Boxed, List};
use std::alloc::{AllocError, Global};

/// A block that is read, its statements up to here, and the constructs that are open around it
#[derive(Drop)]
pub struct Nest {
    pub alloc: Global,
    pub frames: Stack<Frame>,
    pub block: List<Statement>,
}

// The block inside of this construct begins.
fn enter(alloc: Global, frames: Stack<Frame>, frame: Frame) -> Result<Nest, AllocError>
    ensures inside { IfOk result (λ n. n.frames ≡ frame ∷ frames) }
    ensures begins { IfOk result (λ n. n.block ≡ []) }
{
    let mut frames = frames;
    frames.push(frame)?;
    Ok(Nest {
        alloc,
        frames,
        block: List::from_vec(Vec::new(alloc)),
    })
}

#[tactic(auto, unfolding(crate::specs::Frames::frame_front, crate::specs::Frames::frame_state))]
pub fn within_if(alloc: Global, frames: Stack<Frame>, frame: IfFrame) -> Result<Nest, AllocError>
    ensures front { IfOk result (λ n. (rest : List grammar.Statement) → nest_front n rest ≡ frames_front frames (blocks_of frame.around (if_line frame.head.condition ∷ rest))) }
    ensures states { IfOk result (λ n. nest_states n ≡ InIf ∷ map frame_state frames) }
{
    let boxed = Boxed::new(alloc, frame)?;
    enter(alloc, frames, Frame::If(boxed))
}

#[tactic(auto, unfolding(crate::specs::Frames::frame_front, crate::specs::Frames::frame_state))]
pub fn within_else_if(
    alloc: Global,
    frames: Stack<Frame>,
    frame: ElseIfFrame,
) -> Result<Nest, AllocError>
    ensures front { IfOk result (λ n. (rest : List grammar.Statement) → nest_front n rest ≡ frames_front frames (if_start_front frame.start (else_if_line frame.part.is_one_word frame.part.condition ∷ rest))) }
    ensures states { IfOk result (λ n. nest_states n ≡ InIf ∷ map frame_state frames) }
{
    let boxed = Boxed::new(alloc, frame)?;
    enter(alloc, frames, Frame::ElseIf(boxed))
}

#[tactic(auto, unfolding(crate::specs::Frames::frame_front, crate::specs::Frames::frame_state))]
pub fn within_else(
    alloc: Global,
    frames: Stack<Frame>,
    frame: ElseFrame,
) -> Result<Nest, AllocError>
    ensures front { IfOk result (λ n. (rest : List grammar.Statement) → nest_front n rest ≡ frames_front frames (if_start_front frame.start (else_line ∷ rest))) }
    ensures states { IfOk result (λ n. nest_states n ≡ InElse ∷ map frame_state frames) }
{
    let boxed = Boxed::new(alloc, frame)?;
    enter(alloc, frames, Frame::Else(boxed))
}

#[tactic(auto, unfolding(crate::specs::Frames::frame_front, crate::specs::Frames::frame_state))]
pub fn within_do(alloc: Global, frames: Stack<Frame>, frame: DoFrame) -> Result<Nest, AllocError>
    ensures front { IfOk result (λ n. (rest : List grammar.Statement) → nest_front n rest ≡ frames_front frames (blocks_of frame.around (loop_line frame.head.control ∷ rest))) }
    ensures states { IfOk result (λ n. nest_states n ≡ InDo ∷ map frame_state frames) }
{
    let boxed = Boxed::new(alloc, frame)?;
    enter(alloc, frames, Frame::Do(boxed))
}

#[tactic(auto, unfolding(crate::specs::Frames::frame_front, crate::specs::Frames::frame_state))]
pub fn within_case(
    alloc: Global,
    frames: Stack<Frame>,
    frame: CaseFrame,
) -> Result<Nest, AllocError>
    ensures front { IfOk result (λ n. (rest : List grammar.Statement) → nest_front n rest ≡ frames_front frames (case_start_front frame.start (case_line frame.part.choice ∷ rest))) }
    ensures states { IfOk result (λ n. nest_states n ≡ InCase ∷ map frame_state frames) }
{
    let boxed = Boxed::new(alloc, frame)?;
    enter(alloc, frames, Frame::Case(boxed))
}

#[tactic(auto, unfolding(crate::specs::Frames::frame_front, crate::specs::Frames::frame_state))]
pub fn within_rank(
    alloc: Global,
    frames: Stack<Frame>,
    frame: RankFrame,
) -> Result<Nest, AllocError>
    ensures front { IfOk result (λ n. (rest : List grammar.Statement) → nest_front n rest ≡ frames_front frames (rank_start_front frame.start (rank_line frame.part.choice ∷ rest))) }
    ensures states { IfOk result (λ n. nest_states n ≡ InRank ∷ map frame_state frames) }
{
    let boxed = Boxed::new(alloc, frame)?;
    enter(alloc, frames, Frame::Rank(boxed))
}
