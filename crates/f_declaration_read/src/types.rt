//! Statements that declare types and what has them (ISO/IEC 1539-1:2018, 7.5.2, 8.2 and 15.4.3.6).

ghost use Rattle.std.specs.Prelude.{◌≡◌};
ghost use Rattle.f_grammar.specs.Reading.{colons_at};
ghost use Rattle.f_declaration_grammar.specs.DeclarationReading.{variables_at, behind_type, typed_at, type_start_at, pointers_at, procedure_at};
ghost use Rattle.f_expr_read.specs.Gives.{Gives};
ghost use Rattle.f_expr_read.specs.Views.{tokens_of, view_type};
ghost use Rattle.f_declared.specs.Views.{view_name, view_declared};

use crate::group::begins_head;
use f_action_read::{closed, comma, opened};
use f_declared::{Declared, TypeStart};
use f_expr_read::{ReadError, colons_at, read_type};
use f_header_read::{finished, head_behind};
use f_lex::Spanned;
use f_specifier_read::{behind_commas, listed, maybe_colons, name, this};
use f_tree::{Name, Prefix, ProcedurePointers, TypeSpec, Variables};
use jf_base::Place;
use std::alloc::Global;

// What stands behind `::`, which is due.
fn colons(tokens: &[Spanned]) -> Result<&[Spanned], ReadError>
    ensures { Gives (λ x. tokens_of x.now) result (colons_at (tokens_of tokens.now)) }
{
    match colons_at(tokens) {
        Some((_, rest)) => Ok(rest),
        None => Err(ReadError::Form),
    }
}

// The declaration of variables of this type, from what stands behind it.
#[tactic(auto, unfolding(f_declaration_grammar::specs::DeclarationReading::variables_at))]
fn variables(alloc: Global, declared: TypeSpec, tokens: &[Spanned]) -> Result<Declared, ReadError>
    ensures { Gives view_declared result (variables_at 65 (view_type declared) (tokens_of tokens.now)) }
{
    let (attributes, rest) = behind_commas(alloc, tokens)?;
    let (has_colons, rest) = maybe_colons(rest);
    let (entities, rest) = listed(alloc, rest)?;
    finished(
        Declared::Variables(Variables {
            declared,
            attributes,
            has_colons,
            entities,
        }),
        rest,
    )
}

#[tactic(auto, unfolding(f_declaration_grammar::specs::DeclarationReading::behind_type))]
fn behind_type(alloc: Global, declared: TypeSpec, tokens: &[Spanned]) -> Result<Declared, ReadError>
    ensures { Gives view_declared result (behind_type 65 (view_type declared) (tokens_of tokens.now)) }
{
    if begins_head(tokens) {
        head_behind(alloc, Prefix::Type(declared), tokens)
    } else {
        variables(alloc, declared, tokens)
    }
}

/// The statement that begins with a type and is all the tokens.
#[tactic(auto, unfolding(f_declaration_grammar::specs::DeclarationReading::typed_at))]
pub fn typed(alloc: Global, tokens: &[Spanned]) -> Result<Declared, ReadError>
    ensures { Gives view_declared result (typed_at 65 (tokens_of tokens.now)) }
{
    let (declared, rest) = read_type(alloc, tokens)?;
    behind_type(alloc, declared, rest)
}

/// The beginning of the definition of a derived type whose word TYPE stands at a place, from the tokens behind it.
#[tactic(auto, unfolding(f_declaration_grammar::specs::DeclarationReading::type_start_at))]
pub fn type_start(alloc: Global, place: Place, tokens: &[Spanned]) -> Result<Declared, ReadError>
    ensures { Gives view_declared result (type_start_at (tokens_of tokens.now)) }
{
    let (attributes, rest) = behind_commas(alloc, tokens)?;
    let (has_colons, rest) = maybe_colons(rest);
    let (name, rest) = name(alloc, rest)?;
    finished(
        Declared::TypeStart(TypeStart {
            place,
            attributes,
            has_colons,
            name,
        }),
        rest,
    )
}

#[tactic(auto, unfolding(f_declaration_grammar::specs::DeclarationReading::pointers_at))]
fn pointers(
    alloc: Global,
    place: Place,
    interface: Name,
    tokens: &[Spanned],
) -> Result<Declared, ReadError>
    ensures { Gives view_declared result (pointers_at (view_name interface) (tokens_of tokens.now)) }
{
    let rest = comma(tokens)?;
    let (_, rest) = this("pointer", rest)?;
    let (attributes, rest) = behind_commas(alloc, rest)?;
    let rest = colons(rest)?;
    let (pointers, rest) = listed(alloc, rest)?;
    finished(
        Declared::ProcedurePointers(ProcedurePointers {
            place,
            interface,
            attributes,
            pointers,
        }),
        rest,
    )
}

/// The PROCEDURE statement whose word stands at a place, from the tokens behind it.
#[tactic(auto, unfolding(f_declaration_grammar::specs::DeclarationReading::procedure_at))]
pub fn procedure(alloc: Global, place: Place, tokens: &[Spanned]) -> Result<Declared, ReadError>
    ensures { Gives view_declared result (procedure_at (tokens_of tokens.now)) }
{
    let rest = opened(tokens)?;
    let (interface, rest) = name(alloc, rest)?;
    let rest = closed(rest)?;
    pointers(alloc, place, interface, rest)
}
