//! Trees made of their parts.

ghost use Rattle.std.specs.Prelude.{◌≡◌, ◌∷◌, IfOk, map};
ghost use Rattle.std.specs.Option.{option_map};
ghost use Rattle.c_grammar.specs.Grammar.{Specs};
ghost use Rattle.c_unit_grammar.specs.Statements.{Braced, Bare, Declares, init};
ghost use Rattle.c_expression_read.specs.Views.{view_specifier, view_typed, view_declarator, specs_of};
ghost use Rattle.c_declaration_read.specs.Views.{view_initializer, view_init, view_declaration, initials_of, with_first};

use c_expression_read::in_front;
use c_tree::{Declaration, Declarator, InitDeclarator, Initializer, Specifier, Typed};
use jf_base::List;
use std::alloc::{AllocError, Global};

/// Initial values in braces: the first and the others, and whether a comma is behind them.
pub fn braced(
    first: Initializer,
    others: Vec<Initializer>,
    has_comma: bool,
    at: u32,
) -> Result<Initializer, AllocError>
    ensures { IfOk result (λ i. view_initializer i ≡ Braced (view_initializer first) (initials_of (map view_initializer others.items)) has_comma) }
{
    let items = List::from_vec(in_front(first, others)?);
    Ok(Initializer::Braced {
        items,
        has_comma,
        at,
    })
}

/// A declarator with its initial value, where it has one.
pub fn init_declarator(
    declarator: Declarator,
    value: Option<Initializer>,
    at: u32,
) -> InitDeclarator
    ensures { view_init result ≡ init (view_declarator declarator) (option_map view_initializer value) }
{
    InitDeclarator {
        declarator,
        value,
        at,
    }
}

/// Specifiers without a declarator.
pub fn bare_declaration(alloc: Global, specifiers: Vec<Specifier>, at: u32) -> Declaration
    ensures { view_declaration result ≡ Bare (specs_of (map view_specifier specifiers.items)) }
{
    let (specifiers, declarators) = (List::from_vec(specifiers), List::from_vec(Vec::new(alloc)));
    Declaration {
        specifiers,
        declarators,
        at,
    }
}

/// Specifiers with a first declarator, its initial value, and the other declarators.
pub fn declaration(
    first: Typed,
    value: Option<Initializer>,
    others: Vec<InitDeclarator>,
) -> Result<Declaration, AllocError>
    ensures { IfOk result (λ d. view_declaration d ≡ with_first (view_typed first) (option_map view_initializer value) (map view_init others.items)) }
{
    let Typed {
        specifiers,
        declarator,
        at,
    } = first;
    let name_at = declarator.at;
    let first = init_declarator(declarator, value, name_at);
    let declarators = List::from_vec(in_front(first, others)?);
    Ok(Declaration {
        specifiers,
        declarators,
        at,
    })
}
