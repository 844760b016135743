//! USE statements (ISO/IEC 1539-1:2018, 14.2.2).

ghost use Rattle.std.specs.Prelude.{◌≡◌};
ghost use Rattle.f_declaration_grammar.specs.DeclarationReading.{ends, only_colon_at, onlys_at, renames_at, uses_at, module_at, use_at};
ghost use Rattle.f_expr_read.specs.Gives.{Gives, seen};
ghost use Rattle.f_expr_read.specs.Views.{tokens_of};
ghost use Rattle.f_declared.specs.Views.{view_uses, view_declared};

use f_action_read::comma;
use f_declared::Declared;
use f_expr_read::{ReadError, colon_at, comma_at};
use f_lex::Spanned;
use f_specifier_read::{listed, maybe_colons, name, this, this_at};
use f_tree::{Use, UseList};
use jf_base::{List, Place};
use std::alloc::Global;

// The names, where no tokens are left.
#[tactic(auto, unfolding(f_declaration_grammar::specs::DeclarationReading::ends))]
fn ended(names: UseList, tokens: &[Spanned]) -> Result<UseList, ReadError>
    ensures { Gives view_uses result (ends (view_uses names) (tokens_of tokens.now)) }
{
    match tokens {
        [] => Ok(names),
        [_, ..] => Err(ReadError::Form),
    }
}

// What stands behind ONLY and `:`, where they stand first.
#[tactic(auto, unfolding(f_declaration_grammar::specs::DeclarationReading::only_colon_at))]
fn only_colon(tokens: &[Spanned]) -> Option<&[Spanned]>
    ensures { only_colon_at (tokens_of tokens.now) ≡ seen (λ x. tokens_of x.now) result }
{
    match this_at("only", tokens) {
        None => None,
        Some((_, rest)) => match colon_at(rest) {
            None => None,
            Some((_, rest)) => Some(rest),
        },
    }
}

// The names behind ONLY and `:`, up to the end.
#[tactic(auto, unfolding(f_declaration_grammar::specs::DeclarationReading::onlys_at))]
fn only_names(alloc: Global, tokens: &[Spanned]) -> Result<UseList, ReadError>
    ensures { Gives view_uses result (onlys_at (tokens_of tokens.now)) }
{
    match tokens {
        [] => Ok(UseList::Only(List::from_vec(Vec::new(alloc)))),
        [_, ..] => {
            let (names, rest) = listed(alloc, tokens)?;
            ended(UseList::Only(names), rest)
        }
    }
}

// Names that are changed, up to the end.
#[tactic(auto, unfolding(f_declaration_grammar::specs::DeclarationReading::renames_at))]
fn renames(alloc: Global, tokens: &[Spanned]) -> Result<UseList, ReadError>
    ensures { Gives view_uses result (renames_at (tokens_of tokens.now)) }
{
    let (renames, rest) = listed(alloc, tokens)?;
    ended(UseList::Renamed(renames), rest)
}

// Which names are used, up to the end.
#[tactic(auto, unfolding(f_declaration_grammar::specs::DeclarationReading::uses_at))]
fn used_names(alloc: Global, tokens: &[Spanned]) -> Result<UseList, ReadError>
    ensures { Gives view_uses result (uses_at (tokens_of tokens.now)) }
{
    match tokens {
        [] => Ok(UseList::All),
        [_, ..] => {
            let rest = comma(tokens)?;
            match only_colon(rest) {
                None => renames(alloc, rest),
                Some(rest) => only_names(alloc, rest),
            }
        }
    }
}

#[tactic(auto, unfolding(f_declaration_grammar::specs::DeclarationReading::module_at))]
fn used_module(
    alloc: Global,
    place: Place,
    is_intrinsic: bool,
    tokens: &[Spanned],
) -> Result<Declared, ReadError>
    ensures { Gives view_declared result (module_at is_intrinsic (tokens_of tokens.now)) }
{
    let (has_colons, rest) = maybe_colons(tokens);
    let (module, rest) = name(alloc, rest)?;
    let list = used_names(alloc, rest)?;
    Ok(Declared::Use(Use {
        place,
        is_intrinsic,
        has_colons,
        module,
        list,
    }))
}

/// The USE statement whose word stands at a place, from the tokens behind it.
#[tactic(auto, unfolding(f_declaration_grammar::specs::DeclarationReading::use_at))]
pub fn use_statement(alloc: Global, place: Place, tokens: &[Spanned]) -> Result<Declared, ReadError>
    ensures { Gives view_declared result (use_at (tokens_of tokens.now)) }
{
    match comma_at(tokens) {
        None => used_module(alloc, place, false, tokens),
        Some((_, rest)) => {
            let (_, rest) = this("intrinsic", rest)?;
            used_module(alloc, place, true, rest)
        }
    }
}
