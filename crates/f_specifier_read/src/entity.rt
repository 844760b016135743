//! What is declared, and its initial value (ISO/IEC 1539-1:2018, 8.2 and 15.4.3.6).

ghost use Rattle.std.specs.Prelude.{◌≡◌};
ghost use Rattle.f_declaration_grammar.specs.DeclarationReading.{null_at, initial_at};
ghost use Rattle.f_expr_read.specs.Gives.{Gives};
ghost use Rattle.f_expr_read.specs.Views.{tokens_of};
ghost use Rattle.f_declared.specs.Views.{initial_of};

use crate::dimension::maybe_dimensions;
use crate::list::Parse;
use crate::word::{name, this};
use f_action_read::{arrow_at, assign_at, closed, opened};
use f_expr_read::{ReadError, read_expression};
use f_lex::Spanned;
use f_tree::{Entity, Initial, ProcedurePointer};
use jf_base::Place;
use std::alloc::Global;

/// The place of `null` in `null()`, which is due, and what stands behind it.
#[tactic(auto, unfolding(f_declaration_grammar::specs::DeclarationReading::null_at))]
pub fn null(tokens: &[Spanned]) -> Result<(Place, &[Spanned]), ReadError>
    ensures { Gives (λ x. tokens_of x.1.now) result (null_at (tokens_of tokens.now)) }
{
    let (place, rest) = this("null", tokens)?;
    let rest = opened(rest)?;
    let rest = closed(rest)?;
    Ok((place, rest))
}

#[tactic(auto, unfolding(f_declaration_grammar::specs::DeclarationReading::initial_at))]
fn initial(alloc: Global, tokens: &[Spanned]) -> Result<(Option<Initial>, &[Spanned]), ReadError>
    ensures { Gives (λ x. (initial_of x.0, tokens_of x.1.now)) result (initial_at 65 (tokens_of tokens.now)) }
{
    match assign_at(tokens) {
        Some(rest) => {
            let (value, rest) = read_expression(alloc, rest)?;
            Ok((Some(Initial::Value(value)), rest))
        }
        None => match arrow_at(tokens) {
            None => Ok((None, tokens)),
            Some(rest) => {
                let (place, rest) = null(rest)?;
                Ok((Some(Initial::Null { place }), rest))
            }
        },
    }
}

impl Parse for Entity {
    ghost use Rattle.f_declaration_grammar.specs.Declarations.{Entity as SeenEntity};
    ghost use Rattle.f_declaration_grammar.specs.DeclarationReading.{entity_at};
    ghost use Rattle.f_declared.specs.Views.{view_entity};

    ghost Seen = { SeenEntity };

    ghost seen = { view_entity };

    ghost one = { entity_at 65 };

    #[tactic(auto, unfolding(f_declaration_grammar::specs::DeclarationReading::entity_at))]
    fn parse(alloc: Global, tokens: &[Spanned]) -> Result<(Entity, &[Spanned]), ReadError> {
        let (name, rest) = name(alloc, tokens)?;
        let (dimensions, rest) = maybe_dimensions(alloc, rest)?;
        let (initial, rest) = initial(alloc, rest)?;
        let entity = Entity {
            name,
            dimensions,
            initial,
        };
        Ok((entity, rest))
    }
}

impl Parse for ProcedurePointer {
    ghost use Rattle.f_declaration_grammar.specs.Declarations.{ProcPointer};
    ghost use Rattle.f_declaration_grammar.specs.DeclarationReading.{pointer_at};
    ghost use Rattle.f_declared.specs.Views.{view_pointer};

    ghost Seen = { ProcPointer };

    ghost seen = { view_pointer };

    ghost one = { pointer_at };

    #[tactic(auto, unfolding(f_declaration_grammar::specs::DeclarationReading::pointer_at))]
    fn parse(
        alloc: Global,
        tokens: &[Spanned],
    ) -> Result<(ProcedurePointer, &[Spanned]), ReadError> {
        let (name, rest) = name(alloc, tokens)?;
        match arrow_at(rest) {
            None => Ok((ProcedurePointer { name, null: None }, rest)),
            Some(rest) => {
                let (place, rest) = null(rest)?;
                let null = Some(place);
                Ok((ProcedurePointer { name, null }, rest))
            }
        }
    }
}
