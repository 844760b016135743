//! The next statement, taken away where it is of a kind.

ghost use Rattle.std.specs.Prelude.{◌≡◌, ◌∷◌, ◌<◌, length, false, IfOk};
ghost use Rattle.f_line_grammar.specs.Lines as form;
ghost use Rattle.f_statement_grammar.specs.Statements as grammar;
ghost use Rattle.f_construct_parts.specs.declared.statements.Next.TheVariants as next;
ghost use Rattle.f_construct_parts.specs.Lines.{action_line, guarded_line, if_line, else_if_line, else_line, loop_line, select_case_line, case_line, select_rank_line, rank_line};
ghost use Rattle.f_construct_parts.specs.Views.{IfMisplaced, seen, next_of, divides_if, is_else, divides_case, divides_rank, ends_if, ends_do, ends_select};

use crate::head;
use crate::head::{
    ActionHead, CaseHead, DoHead, ElseIfHead, End, IfActionHead, IfHead, RankHead, SelectCaseHead,
    SelectRankHead,
};
use crate::statements::{BlockError, Statements};
use jf_base::Place;

#[tactic(auto, unfolding(crate::specs::Views::next_of))]
pub fn action(statements: &mut Statements) -> Result<ActionHead, BlockError>
    ensures taken { IfOk result (λ h. seen statements.old ≡ action_line h.action ∷ seen statements.new) }
    ensures shorter { IfOk result (λ h. length statements.new < length statements.old) }
    ensures misplaced { IfMisplaced result (next_of statements.old ≡ next.Action → ⊥) }
{
    let line = statements.line()?;
    head::action_head(line)
}

#[tactic(auto, unfolding(crate::specs::Views::next_of))]
pub fn if_action(statements: &mut Statements) -> Result<IfActionHead, BlockError>
    ensures taken { IfOk result (λ h. seen statements.old ≡ guarded_line h.condition h.action ∷ seen statements.new) }
    ensures shorter { IfOk result (λ h. length statements.new < length statements.old) }
    ensures misplaced { IfMisplaced result (next_of statements.old ≡ next.IfAction → ⊥) }
{
    let line = statements.line()?;
    head::if_action_head(line)
}

#[tactic(auto, unfolding(crate::specs::Views::next_of))]
pub fn if_then(statements: &mut Statements) -> Result<IfHead, BlockError>
    ensures taken { IfOk result (λ h. seen statements.old ≡ if_line h.condition ∷ seen statements.new) }
    ensures shorter { IfOk result (λ h. length statements.new < length statements.old) }
    ensures misplaced { IfMisplaced result (next_of statements.old ≡ next.IfThen → ⊥) }
{
    let line = statements.line()?;
    head::if_head(line)
}

#[tactic(auto, unfolding(crate::specs::Views::next_of))]
pub fn else_if(statements: &mut Statements) -> Result<ElseIfHead, BlockError>
    ensures taken { IfOk result (λ h. seen statements.old ≡ else_if_line h.is_one_word h.condition ∷ seen statements.new) }
    ensures shorter { IfOk result (λ h. length statements.new < length statements.old) }
    ensures misplaced { IfMisplaced result (divides_if (next_of statements.old) ≡ false) }
{
    let line = statements.line()?;
    head::else_if_head(line)
}

#[tactic(auto, unfolding(crate::specs::Views::next_of))]
pub fn otherwise(statements: &mut Statements) -> Result<Place, BlockError>
    ensures taken { IfOk result (λ h. seen statements.old ≡ else_line ∷ seen statements.new) }
    ensures shorter { IfOk result (λ h. length statements.new < length statements.old) }
    ensures misplaced { IfMisplaced result (is_else (next_of statements.old) ≡ false) }
{
    let line = statements.line()?;
    head::else_head(line)
}

#[tactic(auto, unfolding(crate::specs::Views::next_of))]
pub fn loop_head(statements: &mut Statements) -> Result<DoHead, BlockError>
    ensures taken { IfOk result (λ h. seen statements.old ≡ loop_line h.control ∷ seen statements.new) }
    ensures shorter { IfOk result (λ h. length statements.new < length statements.old) }
    ensures misplaced { IfMisplaced result (next_of statements.old ≡ next.Do → ⊥) }
{
    let line = statements.line()?;
    head::do_head(line)
}

#[tactic(auto, unfolding(crate::specs::Views::next_of))]
pub fn select_case(statements: &mut Statements) -> Result<SelectCaseHead, BlockError>
    ensures taken { IfOk result (λ h. seen statements.old ≡ select_case_line h.is_one_word h.selector ∷ seen statements.new) }
    ensures shorter { IfOk result (λ h. length statements.new < length statements.old) }
    ensures misplaced { IfMisplaced result (next_of statements.old ≡ next.SelectCase → ⊥) }
{
    let line = statements.line()?;
    head::select_case_head(line)
}

#[tactic(auto, unfolding(crate::specs::Views::next_of))]
pub fn case(statements: &mut Statements) -> Result<CaseHead, BlockError>
    ensures taken { IfOk result (λ h. seen statements.old ≡ case_line h.choice ∷ seen statements.new) }
    ensures shorter { IfOk result (λ h. length statements.new < length statements.old) }
    ensures misplaced { IfMisplaced result (divides_case (next_of statements.old) ≡ false) }
{
    let line = statements.line()?;
    head::case_head(line)
}

#[tactic(auto, unfolding(crate::specs::Views::next_of))]
pub fn select_rank(statements: &mut Statements) -> Result<SelectRankHead, BlockError>
    ensures taken { IfOk result (λ h. seen statements.old ≡ select_rank_line h.renamed h.selector ∷ seen statements.new) }
    ensures shorter { IfOk result (λ h. length statements.new < length statements.old) }
    ensures misplaced { IfMisplaced result (next_of statements.old ≡ next.SelectRank → ⊥) }
{
    let line = statements.line()?;
    head::select_rank_head(line)
}

#[tactic(auto, unfolding(crate::specs::Views::next_of))]
pub fn rank(statements: &mut Statements) -> Result<RankHead, BlockError>
    ensures taken { IfOk result (λ h. seen statements.old ≡ rank_line h.choice ∷ seen statements.new) }
    ensures shorter { IfOk result (λ h. length statements.new < length statements.old) }
    ensures misplaced { IfMisplaced result (divides_rank (next_of statements.old) ≡ false) }
{
    let line = statements.line()?;
    head::rank_head(line)
}

#[tactic(auto, unfolding(crate::specs::Views::next_of))]
pub fn if_end(statements: &mut Statements) -> Result<End, BlockError>
    ensures taken { IfOk result (λ h. seen statements.old ≡ grammar.Executable (form.End form.If h.is_one_word) ∷ seen statements.new) }
    ensures shorter { IfOk result (λ h. length statements.new < length statements.old) }
    ensures misplaced { IfMisplaced result (ends_if (next_of statements.old) ≡ false) }
{
    let line = statements.line()?;
    head::if_end(line)
}

#[tactic(auto, unfolding(crate::specs::Views::next_of))]
pub fn do_end(statements: &mut Statements) -> Result<End, BlockError>
    ensures taken { IfOk result (λ h. seen statements.old ≡ grammar.Executable (form.End form.Do h.is_one_word) ∷ seen statements.new) }
    ensures shorter { IfOk result (λ h. length statements.new < length statements.old) }
    ensures misplaced { IfMisplaced result (ends_do (next_of statements.old) ≡ false) }
{
    let line = statements.line()?;
    head::do_end(line)
}

#[tactic(auto, unfolding(crate::specs::Views::next_of))]
pub fn select_end(statements: &mut Statements) -> Result<End, BlockError>
    ensures taken { IfOk result (λ h. seen statements.old ≡ grammar.Executable (form.End form.Select h.is_one_word) ∷ seen statements.new) }
    ensures shorter { IfOk result (λ h. length statements.new < length statements.old) }
    ensures misplaced { IfMisplaced result (ends_select (next_of statements.old) ≡ false) }
{
    let line = statements.line()?;
    head::select_end(line)
}
