//! Statements that list names alone: IMPORT, PUBLIC, PRIVATE, PROGRAM and MODULE (ISO/IEC 1539-1:2018, 8.8, 8.6.1, 14.1 and 14.2.1).

ghost use Rattle.std.specs.Prelude.{◌≡◌, ℕ, List as ListOf, Bool, map};
ghost use Rattle.f_declaration_grammar.specs.Declarations.{Declared as SeenDeclared, Import as SeenImport, Accesses};
ghost use Rattle.f_declaration_grammar.specs.DeclarationReading.{ends, named_at, names_at};
ghost use Rattle.f_expr_read.specs.Gives.{Gives};
ghost use Rattle.f_expr_read.specs.Views.{tokens_of};
ghost use Rattle.f_declared.specs.Views.{view_name, view_access, view_declared};

use f_declared::Declared;
use f_expr_read::ReadError;
use f_lex::Spanned;
use f_specifier_read::{listed, maybe_colons, name};
use f_tree::{Access, AccessStatement, Import, Name};
use jf_base::{List, Place};
use std::alloc::Global;

/// The name that all the tokens are.
#[tactic(auto, unfolding(f_declaration_grammar::specs::DeclarationReading::named_at, f_declaration_grammar::specs::DeclarationReading::ends))]
pub fn only_name(alloc: Global, tokens: &[Spanned]) -> Result<Name, ReadError>
    ensures { (make : ListOf ℕ → SeenDeclared) → Gives (λ x. make x.bytes) result (named_at make (tokens_of tokens.now)) }
{
    let (name, rest) = name(alloc, tokens)?;
    match rest {
        [] => Ok(name),
        [_, ..] => Err(ReadError::Form),
    }
}

// The names that all the tokens are, where there are some, and whether `::` stands before them.
#[tactic(auto, unfolding(f_declaration_grammar::specs::DeclarationReading::names_at, f_declaration_grammar::specs::DeclarationReading::ends))]
fn names(alloc: Global, tokens: &[Spanned]) -> Result<(bool, List<Name>), ReadError>
    ensures { (make : Bool → ListOf (ListOf ℕ) → SeenDeclared) → Gives (λ x. make x.0 (map view_name x.1)) result (names_at make (tokens_of tokens.now)) }
{
    match tokens {
        [] => Ok((false, List::from_vec(Vec::new(alloc)))),
        [_, ..] => {
            let (has_colons, rest) = maybe_colons(tokens);
            let (names, rest) = listed(alloc, rest)?;
            match rest {
                [] => Ok((has_colons, names)),
                [_, ..] => Err(ReadError::Form),
            }
        }
    }
}

/// The IMPORT statement whose word stands at a place, from the tokens behind it.
pub fn import(alloc: Global, place: Place, tokens: &[Spanned]) -> Result<Declared, ReadError>
    ensures { Gives view_declared result (names_at SeenImport (tokens_of tokens.now)) }
{
    let (has_colons, names) = names(alloc, tokens)?;
    Ok(Declared::Import(Import {
        place,
        has_colons,
        names,
    }))
}

/// The PUBLIC or PRIVATE statement whose word stands at a place, from the tokens behind it.
pub fn access_statement(
    alloc: Global,
    place: Place,
    access: Access,
    tokens: &[Spanned],
) -> Result<Declared, ReadError>
    ensures { Gives view_declared result (names_at (Accesses (view_access access)) (tokens_of tokens.now)) }
{
    let (has_colons, names) = names(alloc, tokens)?;
    Ok(Declared::Access(AccessStatement {
        place,
        access,
        has_colons,
        names,
    }))
}
