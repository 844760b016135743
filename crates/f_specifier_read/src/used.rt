//! Names of modules that are used (ISO/IEC 1539-1:2018, 14.2.2).

ghost use Rattle.std.specs.Prelude.{◌≡◌};
ghost use Rattle.f_grammar.specs.ActionReading.{arrow_at};
ghost use Rattle.f_expr_read.specs.Gives.{Gives};
ghost use Rattle.f_expr_read.specs.Views.{tokens_of};

use crate::list::Parse;
use crate::word::name;
use f_action_read::arrow_at;
use f_expr_read::ReadError;
use f_lex::Spanned;
use f_tree::{Only, Rename};
use std::alloc::Global;

// What stands behind `=>`, which is due.
fn arrow(tokens: &[Spanned]) -> Result<&[Spanned], ReadError>
    ensures { Gives (λ x. tokens_of x.now) result (arrow_at (tokens_of tokens.now)) }
{
    match arrow_at(tokens) {
        Some(rest) => Ok(rest),
        None => Err(ReadError::Form),
    }
}

impl Parse for Rename {
    ghost use Rattle.f_declaration_grammar.specs.Declarations.{Rename as SeenRename};
    ghost use Rattle.f_declaration_grammar.specs.DeclarationReading.{rename_at};
    ghost use Rattle.f_declared.specs.Views.{view_rename};

    ghost Seen = { SeenRename };

    ghost seen = { view_rename };

    ghost one = { rename_at };

    #[tactic(auto, unfolding(f_declaration_grammar::specs::DeclarationReading::rename_at))]
    fn parse(alloc: Global, tokens: &[Spanned]) -> Result<(Rename, &[Spanned]), ReadError> {
        let (local, rest) = name(alloc, tokens)?;
        let rest = arrow(rest)?;
        let (used, rest) = name(alloc, rest)?;
        Ok((Rename { local, used }, rest))
    }
}

impl Parse for Only {
    ghost use Rattle.f_declaration_grammar.specs.Declarations.{Only as SeenOnly};
    ghost use Rattle.f_declaration_grammar.specs.DeclarationReading.{only_at};
    ghost use Rattle.f_declared.specs.Views.{view_only};

    ghost Seen = { SeenOnly };

    ghost seen = { view_only };

    ghost one = { only_at };

    #[tactic(auto, unfolding(f_declaration_grammar::specs::DeclarationReading::only_at))]
    fn parse(alloc: Global, tokens: &[Spanned]) -> Result<(Only, &[Spanned]), ReadError> {
        let (first, rest) = name(alloc, tokens)?;
        match arrow_at(rest) {
            None => Ok((Only::Plain(first), rest)),
            Some(rest) => {
                let (used, rest) = name(alloc, rest)?;
                let local = first;
                Ok((Only::Renamed(Rename { local, used }), rest))
            }
        }
    }
}
