//! Trees put behind others.

ghost use Rattle.std.specs.Prelude.{◌≡◌, ◌∷◌, List, OnOk};
ghost use Rattle.f_line_grammar.specs.Lines as form;
ghost use Rattle.f_statement_grammar.specs.Statements as grammar;
ghost use Rattle.f_construct_parts.specs.Lines.{action_line, guarded_line, if_line, else_if_line, else_line, loop_line, select_case_line, case_line, select_rank_line, rank_line, blocks_of, end_line, if_lines, do_lines, select_lines, select_rank_lines};
ghost use Rattle.f_construct_parts.specs.Parts.{else_ifs_of, cases_of, ranks_of, if_parts_of, if_end_of, do_parts_of, case_parts_of, rank_parts_of};

use crate::head::{
    ActionHead, CaseHead, DoHead, ElseIfHead, IfActionHead, IfHead, RankHead, SelectCaseHead,
    SelectRankHead,
};
use crate::part::{CaseParts, DoParts, IfEnd, IfParts, RankParts};
use f_tree::{
    Case, DoConstruct, Else, ElseIf, Ending, IfConstruct, RankCase, SelectCase, SelectRank,
    Statement,
};
use jf_base::{List, Place};
use std::alloc::AllocError;

fn if_construct(head: IfHead, parts: IfParts) -> IfConstruct
    ensures { (rest : List grammar.Statement) → if_lines result rest ≡ if_line head.condition ∷ if_parts_of parts rest }
{
    IfConstruct {
        place: head.place,
        condition: head.condition,
        body: parts.body,
        else_ifs: parts.behind.else_ifs,
        otherwise: parts.behind.end.otherwise,
        ending: parts.behind.end.ending,
    }
}

fn do_construct(head: DoHead, parts: DoParts) -> DoConstruct
    ensures { (rest : List grammar.Statement) → do_lines result rest ≡ loop_line head.control ∷ do_parts_of parts rest }
{
    DoConstruct {
        place: head.place,
        control: head.control,
        body: parts.body,
        ending: parts.ending,
    }
}

fn select_case(head: SelectCaseHead, parts: CaseParts) -> SelectCase
    ensures { (rest : List grammar.Statement) → select_lines result rest ≡ select_case_line head.is_one_word head.selector ∷ case_parts_of parts rest }
{
    SelectCase {
        place: head.place,
        is_one_word: head.is_one_word,
        selector: head.selector,
        cases: parts.cases,
        ending: parts.ending,
    }
}

fn select_rank(head: SelectRankHead, parts: RankParts) -> SelectRank
    ensures { (rest : List grammar.Statement) → select_rank_lines result rest ≡ select_rank_line head.renamed head.selector ∷ rank_parts_of parts rest }
{
    SelectRank {
        place: head.place,
        renamed: head.renamed,
        selector: head.selector,
        ranks: parts.ranks,
        ending: parts.ending,
    }
}

pub fn push_action(block: &mut List<Statement>, head: ActionHead) -> Result<(), AllocError>
    ensures { OnOk result ((rest : List grammar.Statement) → blocks_of block.new rest ≡ blocks_of block.old (action_line head.action ∷ rest)) }
{
    block.push(Statement::Action(head.action))
}

pub fn push_if_action(block: &mut List<Statement>, head: IfActionHead) -> Result<(), AllocError>
    ensures { OnOk result ((rest : List grammar.Statement) → blocks_of block.new rest ≡ blocks_of block.old (guarded_line head.condition head.action ∷ rest)) }
{
    block.push(Statement::IfAction {
        place: head.place,
        condition: head.condition,
        action: head.action,
    })
}

pub fn push_if_construct(
    block: &mut List<Statement>,
    head: IfHead,
    parts: IfParts,
) -> Result<(), AllocError>
    ensures { OnOk result ((rest : List grammar.Statement) → blocks_of block.new rest ≡ blocks_of block.old (if_line head.condition ∷ if_parts_of parts rest)) }
{
    block.push(Statement::If(if_construct(head, parts)))
}

pub fn push_do_construct(
    block: &mut List<Statement>,
    head: DoHead,
    parts: DoParts,
) -> Result<(), AllocError>
    ensures { OnOk result ((rest : List grammar.Statement) → blocks_of block.new rest ≡ blocks_of block.old (loop_line head.control ∷ do_parts_of parts rest)) }
{
    block.push(Statement::Do(do_construct(head, parts)))
}

pub fn push_select_case(
    block: &mut List<Statement>,
    head: SelectCaseHead,
    parts: CaseParts,
) -> Result<(), AllocError>
    ensures { OnOk result ((rest : List grammar.Statement) → blocks_of block.new rest ≡ blocks_of block.old (select_case_line head.is_one_word head.selector ∷ case_parts_of parts rest)) }
{
    block.push(Statement::SelectCase(select_case(head, parts)))
}

pub fn push_select_rank(
    block: &mut List<Statement>,
    head: SelectRankHead,
    parts: RankParts,
) -> Result<(), AllocError>
    ensures { OnOk result ((rest : List grammar.Statement) → blocks_of block.new rest ≡ blocks_of block.old (select_rank_line head.renamed head.selector ∷ rank_parts_of parts rest)) }
{
    block.push(Statement::SelectRank(select_rank(head, parts)))
}

pub fn push_else_if(
    parts: &mut List<ElseIf>,
    head: ElseIfHead,
    body: List<Statement>,
) -> Result<(), AllocError>
    ensures { OnOk result ((rest : List grammar.Statement) → else_ifs_of parts.new rest ≡ else_ifs_of parts.old (else_if_line head.is_one_word head.condition ∷ blocks_of body rest)) }
{
    parts.push(ElseIf {
        place: head.place,
        is_one_word: head.is_one_word,
        condition: head.condition,
        body,
    })
}

pub fn push_case(
    cases: &mut List<Case>,
    head: CaseHead,
    body: List<Statement>,
) -> Result<(), AllocError>
    ensures { OnOk result ((rest : List grammar.Statement) → cases_of cases.new rest ≡ cases_of cases.old (case_line head.choice ∷ blocks_of body rest)) }
{
    cases.push(Case {
        place: head.place,
        choice: head.choice,
        body,
    })
}

pub fn push_rank(
    ranks: &mut List<RankCase>,
    head: RankHead,
    body: List<Statement>,
) -> Result<(), AllocError>
    ensures { OnOk result ((rest : List grammar.Statement) → ranks_of ranks.new rest ≡ ranks_of ranks.old (rank_line head.choice ∷ blocks_of body rest)) }
{
    ranks.push(RankCase {
        place: head.place,
        choice: head.choice,
        body,
    })
}

/// END IF alone.
pub fn without_else(ending: Ending) -> IfEnd
    ensures { (rest : List grammar.Statement) → if_end_of result rest ≡ end_line form.If ending ∷ rest }
{
    IfEnd {
        otherwise: None,
        ending,
    }
}

/// ELSE, its block and END IF.
pub fn with_else(place: Place, body: List<Statement>, ending: Ending) -> IfEnd
    ensures { (rest : List grammar.Statement) → if_end_of result rest ≡ else_line ∷ blocks_of body (end_line form.If ending ∷ rest) }
{
    IfEnd {
        otherwise: Some(Else { place, body }),
        ending,
    }
}
