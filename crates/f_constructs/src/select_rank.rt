//! SELECT RANK constructs, divided and ended (ISO/IEC 1539-1:2018, 11.1.10).

ghost use Rattle.std.specs.Prelude.{◌≡◌, ◌∷◌, List, map, IfOk};
ghost use Rattle.f_line_grammar.specs.Lines as form;
ghost use Rattle.f_line_read.specs.Lines.{view_line};
ghost use Rattle.f_statement_grammar.specs.Statements as grammar;
ghost use Rattle.f_unit_grammar.specs.Units.{InRank};
ghost use Rattle.f_construct_parts.specs.declared.statements.Next.TheVariants as next;
ghost use Rattle.f_construct_parts.specs.Lines.{blocks_of, end_line, rank_line, select_rank_line};
ghost use Rattle.f_construct_parts.specs.Views.{next_line};
ghost use Rattle.f_constructs.specs.Frames.{frame_state, frames_front, nest_front, nest_states, rank_start_front};

use crate::frame::{Frame, RankFrame, RankStart};
use crate::head::{rank_head, select_ending};
use crate::nest::{Nest, within_rank};
use crate::stack::Stack;
use f_construct_parts::RankParts;
use f_construct_parts::head::SelectRankHead;
use f_construct_parts::made::{push_rank, push_select_rank};
use f_line_read::Line;
use f_tree::{Ending, Statement};
use jf_base::List;
use std::alloc::{AllocError, Global};

/// No block is read.
pub fn begun(alloc: Global, around: List<Statement>, head: SelectRankHead) -> RankStart
    ensures { (rest : List grammar.Statement) → rank_start_front result rest ≡ blocks_of around (select_rank_line head.renamed head.selector ∷ rest) }
{
    RankStart {
        around,
        head,
        ranks: List::from_vec(Vec::new(alloc)),
    }
}

/// The block of a RANK statement is read.
pub fn behind_rank(frame: RankFrame, block: List<Statement>) -> Result<RankStart, AllocError>
    ensures { IfOk result (λ s. (rest : List grammar.Statement) → rank_start_front s rest ≡ rank_start_front frame.start (rank_line frame.part.choice ∷ blocks_of block rest)) }
{
    let RankFrame { start, part } = frame;
    let RankStart {
        around,
        head,
        mut ranks,
    } = start;
    push_rank(&mut ranks, part, block)?;
    Ok(RankStart {
        around,
        head,
        ranks,
    })
}

/// A RANK statement.
pub fn rank(
    alloc: Global,
    frames: Stack<Frame>,
    start: RankStart,
    line: Line,
) -> Result<Nest, AllocError>
    requires { next_line line ≡ next.Rank }
    ensures front { IfOk result (λ n. (rest : List grammar.Statement) → nest_front n rest ≡ frames_front frames (rank_start_front start (grammar.Executable (view_line line) ∷ rest))) }
    ensures states { IfOk result (λ n. nest_states n ≡ InRank ∷ map frame_state frames) }
{
    let part = rank_head(line);
    within_rank(alloc, frames, RankFrame { start, part })
}

// The construct is put behind what is around it.
fn closed(start: RankStart, ending: Ending) -> Result<List<Statement>, AllocError>
    ensures { IfOk result (λ b. (rest : List grammar.Statement) → blocks_of b rest ≡ rank_start_front start (end_line form.Select ending ∷ rest)) }
{
    let RankStart {
        around,
        head,
        ranks,
    } = start;
    let mut block = around;
    push_select_rank(&mut block, head, RankParts { ranks, ending })?;
    Ok(block)
}

/// END SELECT.
pub fn end_select_rank(
    alloc: Global,
    frames: Stack<Frame>,
    start: RankStart,
    line: Line,
) -> Result<Nest, AllocError>
    requires { next_line line ≡ next.EndSelect }
    ensures front { IfOk result (λ n. (rest : List grammar.Statement) → nest_front n rest ≡ frames_front frames (rank_start_front start (grammar.Executable (view_line line) ∷ rest))) }
    ensures states { IfOk result (λ n. nest_states n ≡ map frame_state frames) }
{
    let block = closed(start, select_ending(line))?;
    Ok(Nest {
        alloc,
        frames,
        block,
    })
}
