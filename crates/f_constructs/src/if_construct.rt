//! IF constructs, divided and ended (ISO/IEC 1539-1:2018, 11.1.8).

ghost use Rattle.std.specs.Prelude.{◌≡◌, ◌∷◌, List, map, IfOk};
ghost use Rattle.f_line_read.specs.Lines.{view_line};
ghost use Rattle.f_statement_grammar.specs.Statements as grammar;
ghost use Rattle.f_unit_grammar.specs.Units.{InIf, InElse};
ghost use Rattle.f_construct_parts.specs.declared.statements.Next.TheVariants as next;
ghost use Rattle.f_construct_parts.specs.Lines.{blocks_of, if_line, else_if_line, else_line};
ghost use Rattle.f_construct_parts.specs.Parts.{if_end_of};
ghost use Rattle.f_construct_parts.specs.Views.{next_line};
ghost use Rattle.f_constructs.specs.Frames.{frame_state, frames_front, nest_front, nest_states, if_start_front};

use crate::frame::{ElseFrame, ElseIfFrame, Frame, IfFrame, IfStart};
use crate::head::{else_if_head, else_place, if_ending};
use crate::nest::{Nest, within_else, within_else_if};
use crate::stack::Stack;
use f_construct_parts::made::{push_else_if, push_if_construct, with_else, without_else};
use f_construct_parts::{IfBehind, IfEnd, IfParts};
use f_line_read::Line;
use f_tree::Statement;
use jf_base::List;
use std::alloc::{AllocError, Global};

/// The first block is read.
pub fn behind_if(alloc: Global, frame: IfFrame, block: List<Statement>) -> IfStart
    ensures { (rest : List grammar.Statement) → if_start_front result rest ≡ blocks_of frame.around (if_line frame.head.condition ∷ blocks_of block rest) }
{
    IfStart {
        around: frame.around,
        head: frame.head,
        body: block,
        else_ifs: List::from_vec(Vec::new(alloc)),
    }
}

/// The block of an ELSE IF statement is read.
pub fn behind_else_if(frame: ElseIfFrame, block: List<Statement>) -> Result<IfStart, AllocError>
    ensures { IfOk result (λ s. (rest : List grammar.Statement) → if_start_front s rest ≡ if_start_front frame.start (else_if_line frame.part.is_one_word frame.part.condition ∷ blocks_of block rest)) }
{
    let ElseIfFrame { start, part } = frame;
    let IfStart {
        around,
        head,
        body,
        mut else_ifs,
    } = start;
    push_else_if(&mut else_ifs, part, block)?;
    Ok(IfStart {
        around,
        head,
        body,
        else_ifs,
    })
}

/// An ELSE IF statement.
pub fn else_if(
    alloc: Global,
    frames: Stack<Frame>,
    start: IfStart,
    line: Line,
) -> Result<Nest, AllocError>
    requires { next_line line ≡ next.ElseIf }
    ensures front { IfOk result (λ n. (rest : List grammar.Statement) → nest_front n rest ≡ frames_front frames (if_start_front start (grammar.Executable (view_line line) ∷ rest))) }
    ensures states { IfOk result (λ n. nest_states n ≡ InIf ∷ map frame_state frames) }
{
    let part = else_if_head(line);
    within_else_if(alloc, frames, ElseIfFrame { start, part })
}

/// An ELSE statement.
pub fn otherwise(
    alloc: Global,
    frames: Stack<Frame>,
    start: IfStart,
    line: Line,
) -> Result<Nest, AllocError>
    requires { next_line line ≡ next.Else }
    ensures front { IfOk result (λ n. (rest : List grammar.Statement) → nest_front n rest ≡ frames_front frames (if_start_front start (grammar.Executable (view_line line) ∷ rest))) }
    ensures states { IfOk result (λ n. nest_states n ≡ InElse ∷ map frame_state frames) }
{
    let place = else_place(line);
    within_else(alloc, frames, ElseFrame { start, place })
}

// The construct is put behind what is around it.
fn closed(start: IfStart, end: IfEnd) -> Result<List<Statement>, AllocError>
    ensures { IfOk result (λ b. (rest : List grammar.Statement) → blocks_of b rest ≡ if_start_front start (if_end_of end rest)) }
{
    let IfStart {
        around,
        head,
        body,
        else_ifs,
    } = start;
    let mut block = around;
    let parts = IfParts {
        body,
        behind: IfBehind { else_ifs, end },
    };
    push_if_construct(&mut block, head, parts)?;
    Ok(block)
}

/// END IF behind a block of IF or ELSE IF.
pub fn end_if(
    alloc: Global,
    frames: Stack<Frame>,
    start: IfStart,
    line: Line,
) -> Result<Nest, AllocError>
    requires { next_line line ≡ next.EndIf }
    ensures front { IfOk result (λ n. (rest : List grammar.Statement) → nest_front n rest ≡ frames_front frames (if_start_front start (grammar.Executable (view_line line) ∷ rest))) }
    ensures states { IfOk result (λ n. nest_states n ≡ map frame_state frames) }
{
    let block = closed(start, without_else(if_ending(line)))?;
    Ok(Nest {
        alloc,
        frames,
        block,
    })
}

/// END IF behind the block of ELSE.
pub fn end_else(
    alloc: Global,
    frames: Stack<Frame>,
    frame: ElseFrame,
    block: List<Statement>,
    line: Line,
) -> Result<Nest, AllocError>
    requires { next_line line ≡ next.EndIf }
    ensures front { IfOk result (λ n. (rest : List grammar.Statement) → nest_front n rest ≡ frames_front frames (if_start_front frame.start (else_line ∷ blocks_of block (grammar.Executable (view_line line) ∷ rest)))) }
    ensures states { IfOk result (λ n. nest_states n ≡ map frame_state frames) }
{
    let ElseFrame { start, place } = frame;
    let block = closed(start, with_else(place, block, if_ending(line)))?;
    Ok(Nest {
        alloc,
        frames,
        block,
    })
}
