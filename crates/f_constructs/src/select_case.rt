//! SELECT CASE constructs, divided and ended (ISO/IEC 1539-1:2018, 11.1.9).

ghost use Rattle.std.specs.Prelude.{◌≡◌, ◌∷◌, List, map, IfOk};
ghost use Rattle.f_line_grammar.specs.Lines as form;
ghost use Rattle.f_line_read.specs.Lines.{view_line};
ghost use Rattle.f_statement_grammar.specs.Statements as grammar;
ghost use Rattle.f_unit_grammar.specs.Units.{InCase};
ghost use Rattle.f_construct_parts.specs.declared.statements.Next.TheVariants as next;
ghost use Rattle.f_construct_parts.specs.Lines.{blocks_of, end_line, case_line, select_case_line};
ghost use Rattle.f_construct_parts.specs.Views.{next_line};
ghost use Rattle.f_constructs.specs.Frames.{frame_state, frames_front, nest_front, nest_states, case_start_front};

use crate::frame::{CaseFrame, CaseStart, Frame};
use crate::head::{case_head, select_ending};
use crate::nest::{Nest, within_case};
use crate::stack::Stack;
use f_construct_parts::CaseParts;
use f_construct_parts::head::SelectCaseHead;
use f_construct_parts::made::{push_case, push_select_case};
use f_line_read::Line;
use f_tree::{Ending, Statement};
use jf_base::List;
use std::alloc::{AllocError, Global};

/// No block is read.
pub fn begun(alloc: Global, around: List<Statement>, head: SelectCaseHead) -> CaseStart
    ensures { (rest : List grammar.Statement) → case_start_front result rest ≡ blocks_of around (select_case_line head.is_one_word head.selector ∷ rest) }
{
    CaseStart {
        around,
        head,
        cases: List::from_vec(Vec::new(alloc)),
    }
}

/// The block of a CASE statement is read.
pub fn behind_case(frame: CaseFrame, block: List<Statement>) -> Result<CaseStart, AllocError>
    ensures { IfOk result (λ s. (rest : List grammar.Statement) → case_start_front s rest ≡ case_start_front frame.start (case_line frame.part.choice ∷ blocks_of block rest)) }
{
    let CaseFrame { start, part } = frame;
    let CaseStart {
        around,
        head,
        mut cases,
    } = start;
    push_case(&mut cases, part, block)?;
    Ok(CaseStart {
        around,
        head,
        cases,
    })
}

/// A CASE statement.
pub fn case(
    alloc: Global,
    frames: Stack<Frame>,
    start: CaseStart,
    line: Line,
) -> Result<Nest, AllocError>
    requires { next_line line ≡ next.Case }
    ensures front { IfOk result (λ n. (rest : List grammar.Statement) → nest_front n rest ≡ frames_front frames (case_start_front start (grammar.Executable (view_line line) ∷ rest))) }
    ensures states { IfOk result (λ n. nest_states n ≡ InCase ∷ map frame_state frames) }
{
    let part = case_head(line);
    within_case(alloc, frames, CaseFrame { start, part })
}

// The construct is put behind what is around it.
fn closed(start: CaseStart, ending: Ending) -> Result<List<Statement>, AllocError>
    ensures { IfOk result (λ b. (rest : List grammar.Statement) → blocks_of b rest ≡ case_start_front start (end_line form.Select ending ∷ rest)) }
{
    let CaseStart {
        around,
        head,
        cases,
    } = start;
    let mut block = around;
    push_select_case(&mut block, head, CaseParts { cases, ending })?;
    Ok(block)
}

/// END SELECT.
pub fn end_select_case(
    alloc: Global,
    frames: Stack<Frame>,
    start: CaseStart,
    line: Line,
) -> Result<Nest, AllocError>
    requires { next_line line ≡ next.EndSelect }
    ensures front { IfOk result (λ n. (rest : List grammar.Statement) → nest_front n rest ≡ frames_front frames (case_start_front start (grammar.Executable (view_line line) ∷ rest))) }
    ensures states { IfOk result (λ n. nest_states n ≡ map frame_state frames) }
{
    let block = closed(start, select_ending(line))?;
    Ok(Nest {
        alloc,
        frames,
        block,
    })
}
