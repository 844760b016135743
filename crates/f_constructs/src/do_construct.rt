//! DO constructs, ended (ISO/IEC 1539-1:2018, 11.1.7).

ghost use Rattle.std.specs.Prelude.{◌≡◌, ◌∷◌, List, map, IfOk};
ghost use Rattle.f_line_read.specs.Lines.{view_line};
ghost use Rattle.f_statement_grammar.specs.Statements as grammar;
ghost use Rattle.f_construct_parts.specs.declared.statements.Next.TheVariants as next;
ghost use Rattle.f_construct_parts.specs.Lines.{blocks_of, loop_line};
ghost use Rattle.f_construct_parts.specs.Parts.{do_parts_of};
ghost use Rattle.f_construct_parts.specs.Views.{next_line};
ghost use Rattle.f_constructs.specs.Frames.{frame_state, frames_front, nest_front, nest_states};

use crate::frame::{DoFrame, Frame};
use crate::head::do_ending;
use crate::nest::Nest;
use crate::stack::Stack;
use f_construct_parts::DoParts;
use f_construct_parts::made::push_do_construct;
use f_line_read::Line;
use f_tree::Statement;
use jf_base::List;
use std::alloc::{AllocError, Global};

// The construct is put behind what is around it.
fn closed(frame: DoFrame, parts: DoParts) -> Result<List<Statement>, AllocError>
    ensures { IfOk result (λ b. (rest : List grammar.Statement) → blocks_of b rest ≡ blocks_of frame.around (loop_line frame.head.control ∷ do_parts_of parts rest)) }
{
    let DoFrame { around, head } = frame;
    let mut block = around;
    push_do_construct(&mut block, head, parts)?;
    Ok(block)
}

/// END DO.
pub fn end_do(
    alloc: Global,
    frames: Stack<Frame>,
    frame: DoFrame,
    block: List<Statement>,
    line: Line,
) -> Result<Nest, AllocError>
    requires { next_line line ≡ next.EndDo }
    ensures front { IfOk result (λ n. (rest : List grammar.Statement) → nest_front n rest ≡ frames_front frames (blocks_of frame.around (loop_line frame.head.control ∷ blocks_of block (grammar.Executable (view_line line) ∷ rest)))) }
    ensures states { IfOk result (λ n. nest_states n ≡ map frame_state frames) }
{
    let parts = DoParts {
        body: block,
        ending: do_ending(line),
    };
    let block = closed(frame, parts)?;
    Ok(Nest {
        alloc,
        frames,
        block,
    })
}
