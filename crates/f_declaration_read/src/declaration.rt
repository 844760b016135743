//! Statements by the words that begin them.

ghost use Rattle.f_declaration_grammar.specs.DeclarationReading.{implicit_at, abstract_at, declared_at};
ghost use Rattle.f_expr_read.specs.Gives.{Gives};
ghost use Rattle.f_expr_read.specs.Views.{tokens_of};
ghost use Rattle.f_declared.specs.Views.{view_declared};
ghost use Rattle.f_declaration_read.specs.Words.{start_or_typed, by_type_word, by_part_word, by_unit_word, by_first_word};

use crate::import::{access_statement, import, only_name};
use crate::types::{procedure, type_start, typed};
use crate::uses::use_statement;
use f_declared::Declared;
use f_expr_read::{ReadError, name_at, open_at};
use f_header_read::{end, finished, head_behind, head_of, joined_by};
use f_lex::Spanned;
use f_specifier_read::this;
use f_tree::{Access, Prefix, ProcedureKind};
use jf_base::{List, Place};
use std::alloc::Global;

#[tactic(auto, unfolding(f_declaration_grammar::specs::DeclarationReading::implicit_at))]
fn implicit(place: Place, tokens: &[Spanned]) -> Result<Declared, ReadError>
    ensures { Gives view_declared result (implicit_at (tokens_of tokens.now)) }
{
    let (_, rest) = this("none", tokens)?;
    finished(Declared::ImplicitNone { place }, rest)
}

#[tactic(auto, unfolding(f_declaration_grammar::specs::DeclarationReading::abstract_at))]
fn abstract_interface(place: Place, tokens: &[Spanned]) -> Result<Declared, ReadError>
    ensures { Gives view_declared result (abstract_at (tokens_of tokens.now)) }
{
    let (_, rest) = this("interface", tokens)?;
    let is_abstract = true;
    finished(Declared::InterfaceStart { place, is_abstract }, rest)
}

// A statement that begins with TYPE, which stands before these tokens and first in the whole.
#[tactic(auto, unfolding(crate::specs::Words::start_or_typed))]
fn start_or_typed(
    alloc: Global,
    place: Place,
    tokens: &[Spanned],
    whole: &[Spanned],
) -> Result<Declared, ReadError>
    ensures { Gives view_declared result (start_or_typed 65 (tokens_of tokens.now) (tokens_of whole.now)) }
{
    match open_at(tokens) {
        None => type_start(alloc, place, tokens),
        Some(_) => typed(alloc, whole),
    }
}

// A statement that begins with a word of a type, or with END and another word in one. The word stands before the tokens, and first in the whole.
#[tactic(auto, unfolding(crate::specs::Words::by_type_word))]
fn by_type_word(
    alloc: Global,
    word: &List<u8>,
    place: Place,
    tokens: &[Spanned],
    whole: &[Spanned],
) -> Result<Declared, ReadError>
    ensures { Gives view_declared result (by_type_word 65 word.now (tokens_of tokens.now) (tokens_of whole.now)) }
{
    let bytes = word.as_slice();
    if bytes == "type".as_bytes() {
        return start_or_typed(alloc, place, tokens, whole);
    }
    if bytes == "integer".as_bytes() {
        return typed(alloc, whole);
    }
    if bytes == "logical".as_bytes() {
        return typed(alloc, whole);
    }
    if bytes == "character".as_bytes() {
        return typed(alloc, whole);
    }
    joined_by(alloc, place, word, tokens)
}

// A statement of a specification part, or one that begins with END or a type.
#[tactic(auto, unfolding(crate::specs::Words::by_part_word))]
fn by_part_word(
    alloc: Global,
    word: &List<u8>,
    place: Place,
    tokens: &[Spanned],
    whole: &[Spanned],
) -> Result<Declared, ReadError>
    ensures { Gives view_declared result (by_part_word 65 word.now (tokens_of tokens.now) (tokens_of whole.now)) }
{
    let bytes = word.as_slice();
    if bytes == "use".as_bytes() {
        return use_statement(alloc, place, tokens);
    }
    if bytes == "import".as_bytes() {
        return import(alloc, place, tokens);
    }
    if bytes == "implicit".as_bytes() {
        return implicit(place, tokens);
    }
    if bytes == "interface".as_bytes() {
        let is_abstract = false;
        return finished(Declared::InterfaceStart { place, is_abstract }, tokens);
    }
    if bytes == "abstract".as_bytes() {
        return abstract_interface(place, tokens);
    }
    if bytes == "public".as_bytes() {
        return access_statement(alloc, place, Access::Public, tokens);
    }
    if bytes == "private".as_bytes() {
        return access_statement(alloc, place, Access::Private, tokens);
    }
    if bytes == "save".as_bytes() {
        return finished(Declared::Save { place }, tokens);
    }
    if bytes == "procedure".as_bytes() {
        return procedure(alloc, place, tokens);
    }
    if bytes == "end".as_bytes() {
        return end(alloc, place, tokens);
    }
    by_type_word(alloc, word, place, tokens, whole)
}

// The statement that a word begins. The word stands before the tokens, and first in the whole.
#[tactic(auto, unfolding(crate::specs::Words::by_unit_word))]
fn by_unit_word(
    alloc: Global,
    word: &List<u8>,
    place: Place,
    tokens: &[Spanned],
    whole: &[Spanned],
) -> Result<Declared, ReadError>
    ensures { Gives view_declared result (by_unit_word 65 word.now (tokens_of tokens.now) (tokens_of whole.now)) }
{
    let bytes = word.as_slice();
    if bytes == "program".as_bytes() {
        let name = only_name(alloc, tokens)?;
        return Ok(Declared::Program { place, name });
    }
    if bytes == "module".as_bytes() {
        let name = only_name(alloc, tokens)?;
        return Ok(Declared::Module { place, name });
    }
    if bytes == "subroutine".as_bytes() {
        let none = List::from_vec(Vec::new(alloc));
        return head_of(alloc, none, ProcedureKind::Subroutine, place, tokens);
    }
    if bytes == "function".as_bytes() {
        let none = List::from_vec(Vec::new(alloc));
        return head_of(alloc, none, ProcedureKind::Function, place, tokens);
    }
    if bytes == "recursive".as_bytes() {
        return head_behind(alloc, Prefix::Recursive { place }, tokens);
    }
    if bytes == "contains".as_bytes() {
        return finished(Declared::Contains { place }, tokens);
    }
    by_part_word(alloc, word, place, tokens, whole)
}

#[tactic(auto, unfolding(crate::specs::Words::by_first_word))]
fn by_first_word(alloc: Global, tokens: &[Spanned]) -> Result<Declared, ReadError>
    ensures { Gives view_declared result (by_first_word 65 (tokens_of tokens.now)) }
{
    match name_at(tokens) {
        None => Err(ReadError::Form),
        Some((word, place, rest)) => by_unit_word(alloc, word, place, rest, tokens),
    }
}

/// The statement of a specification part, or the one that begins, divides or ends a unit, an interface or the definition of a derived type, that all
/// the tokens are, without the end of the statement. Expressions keep to 64 nestings. `Form` says that the tokens are none.
pub fn read_declaration(alloc: Global, tokens: &[Spanned]) -> Result<Declared, ReadError>
    ensures exact { Gives view_declared result (declared_at 65 (tokens_of tokens.now)) }
{
    by_first_word(alloc, tokens)
}
