//! Statements that have a place in every block: action statements, and the first statements of constructs.

ghost use Rattle.std.specs.Prelude.{◌≡◌, ◌∷◌, List, IfOk};
ghost use Rattle.f_line_read.specs.Lines.{view_line};
ghost use Rattle.f_statement_grammar.specs.Statements as grammar;
ghost use Rattle.f_unit_grammar.specs.Units.{InIf, InDo, InSelectCase, InSelectRank};
ghost use Rattle.f_construct_parts.specs.declared.statements.Next.TheVariants as next;
ghost use Rattle.f_construct_parts.specs.Views.{next_line};
ghost use Rattle.f_constructs.specs.Frames.{nest_front, nest_states};
ghost use Rattle.f_constructs.specs.Execution.{front, states};

use crate::execution::{Execution, Selecting};
use crate::frame::{DoFrame, IfFrame};
use crate::head::{
    action_head, do_head, if_action_head, if_head, select_case_head, select_rank_head,
};
use crate::nest::{Nest, within_do, within_if};
use f_construct_parts::made::{push_action, push_if_action};
use f_line_read::Line;
use jf_base::Boxed;
use std::alloc::AllocError;

/// An action statement.
pub fn action(nest: Nest, line: Line) -> Result<Nest, AllocError>
    requires { next_line line ≡ next.Action }
    ensures front { IfOk result (λ n. (rest : List grammar.Statement) → nest_front n rest ≡ nest_front nest (grammar.Executable (view_line line) ∷ rest)) }
    ensures states { IfOk result (λ n. nest_states n ≡ nest_states nest) }
{
    let Nest {
        alloc,
        frames,
        mut block,
    } = nest;
    push_action(&mut block, action_head(line))?;
    Ok(Nest {
        alloc,
        frames,
        block,
    })
}

/// An IF statement.
pub fn if_action(nest: Nest, line: Line) -> Result<Nest, AllocError>
    requires { next_line line ≡ next.IfAction }
    ensures front { IfOk result (λ n. (rest : List grammar.Statement) → nest_front n rest ≡ nest_front nest (grammar.Executable (view_line line) ∷ rest)) }
    ensures states { IfOk result (λ n. nest_states n ≡ nest_states nest) }
{
    let Nest {
        alloc,
        frames,
        mut block,
    } = nest;
    push_if_action(&mut block, if_action_head(line))?;
    Ok(Nest {
        alloc,
        frames,
        block,
    })
}

/// The first statement of an IF construct.
pub fn if_then(nest: Nest, line: Line) -> Result<Nest, AllocError>
    requires { next_line line ≡ next.IfThen }
    ensures front { IfOk result (λ n. (rest : List grammar.Statement) → nest_front n rest ≡ nest_front nest (grammar.Executable (view_line line) ∷ rest)) }
    ensures states { IfOk result (λ n. nest_states n ≡ InIf ∷ nest_states nest) }
{
    let Nest {
        alloc,
        frames,
        block,
    } = nest;
    let head = if_head(line);
    within_if(
        alloc,
        frames,
        IfFrame {
            around: block,
            head,
        },
    )
}

/// A DO statement.
pub fn do_begun(nest: Nest, line: Line) -> Result<Nest, AllocError>
    requires { next_line line ≡ next.Do }
    ensures front { IfOk result (λ n. (rest : List grammar.Statement) → nest_front n rest ≡ nest_front nest (grammar.Executable (view_line line) ∷ rest)) }
    ensures states { IfOk result (λ n. nest_states n ≡ InDo ∷ nest_states nest) }
{
    let Nest {
        alloc,
        frames,
        block,
    } = nest;
    let head = do_head(line);
    within_do(
        alloc,
        frames,
        DoFrame {
            around: block,
            head,
        },
    )
}

/// The first statement of a SELECT CASE construct.
#[tactic(auto, unfolding(crate::specs::Execution::front, crate::specs::Execution::states))]
pub fn select_case(nest: Nest, line: Line) -> Result<Execution, AllocError>
    requires { next_line line ≡ next.SelectCase }
    ensures front { IfOk result (λ e. (rest : List grammar.Statement) → front e rest ≡ nest_front nest (grammar.Executable (view_line line) ∷ rest)) }
    ensures states { IfOk result (λ e. states e ≡ InSelectCase ∷ nest_states nest) }
{
    let head = Boxed::new(nest.alloc, select_case_head(line))?;
    Ok(Execution {
        nest,
        selecting: Selecting::Case(head),
    })
}

/// The first statement of a SELECT RANK construct.
#[tactic(auto, unfolding(crate::specs::Execution::front, crate::specs::Execution::states))]
pub fn select_rank(nest: Nest, line: Line) -> Result<Execution, AllocError>
    requires { next_line line ≡ next.SelectRank }
    ensures front { IfOk result (λ e. (rest : List grammar.Statement) → front e rest ≡ nest_front nest (grammar.Executable (view_line line) ∷ rest)) }
    ensures states { IfOk result (λ e. states e ≡ InSelectRank ∷ nest_states nest) }
{
    let head = Boxed::new(nest.alloc, select_rank_head(line))?;
    Ok(Execution {
        nest,
        selecting: Selecting::Rank(head),
    })
}
