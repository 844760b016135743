//! END statements (ISO/IEC 1539-1:2018, 7.5.2, 14.1, 14.2.1, 15.4.3.2 and 15.6.2).

ghost use Rattle.std.specs.Prelude.{◌≡◌, Some};
ghost use Rattle.f_declaration_grammar.specs.Declarations.{EndOf};
ghost use Rattle.f_declaration_grammar.specs.DeclarationReading.{named_at, end_name_at, end_by, end_at, joined_by};
ghost use Rattle.f_expr_read.specs.Gives.{Gives};
ghost use Rattle.f_expr_read.specs.Views.{tokens_of};
ghost use Rattle.f_declared.specs.Views.{view_declared, view_ended};

use crate::finish::finished;
use f_declared::{Declared, Ended};
use f_expr_read::{ReadError, name_at};
use f_lex::Spanned;
use f_specifier_read::name;
use jf_base::{List, Place};
use std::alloc::Global;

// An END statement with the name that is due behind its words.
#[tactic(auto, unfolding(f_declaration_grammar::specs::DeclarationReading::named_at))]
fn named(
    alloc: Global,
    place: Place,
    what: Ended,
    is_one_word: bool,
    tokens: &[Spanned],
) -> Result<Declared, ReadError>
    ensures { Gives view_declared result (named_at (λ m. EndOf (view_ended what) is_one_word (Some m)) (tokens_of tokens.now)) }
{
    let (name, rest) = name(alloc, tokens)?;
    let name = Some(name);
    finished(
        Declared::EndOf {
            place,
            what,
            is_one_word,
            name,
        },
        rest,
    )
}

// An END statement behind its words.
#[tactic(auto, unfolding(f_declaration_grammar::specs::DeclarationReading::end_name_at, f_declaration_grammar::specs::DeclarationReading::named_at))]
fn behind_words(
    alloc: Global,
    place: Place,
    what: Ended,
    is_one_word: bool,
    tokens: &[Spanned],
) -> Result<Declared, ReadError>
    ensures { Gives view_declared result (end_name_at (view_ended what) is_one_word (tokens_of tokens.now)) }
{
    match tokens {
        [] => Ok(Declared::EndOf {
            place,
            what,
            is_one_word,
            name: None,
        }),
        [_, ..] => match what {
            Ended::Program => named(alloc, place, Ended::Program, is_one_word, tokens),
            Ended::Module => named(alloc, place, Ended::Module, is_one_word, tokens),
            Ended::Subroutine => named(alloc, place, Ended::Subroutine, is_one_word, tokens),
            Ended::Function => named(alloc, place, Ended::Function, is_one_word, tokens),
            Ended::Type => named(alloc, place, Ended::Type, is_one_word, tokens),
            Ended::Interface => Err(ReadError::Form),
        },
    }
}

// An END statement behind END, by its second word.
#[tactic(auto, unfolding(f_declaration_grammar::specs::DeclarationReading::end_by))]
fn end_by(
    alloc: Global,
    place: Place,
    word: &List<u8>,
    tokens: &[Spanned],
) -> Result<Declared, ReadError>
    ensures { Gives view_declared result (end_by word.now (tokens_of tokens.now)) }
{
    let word = word.as_slice();
    if word == "program".as_bytes() {
        return behind_words(alloc, place, Ended::Program, false, tokens);
    }
    if word == "module".as_bytes() {
        return behind_words(alloc, place, Ended::Module, false, tokens);
    }
    if word == "subroutine".as_bytes() {
        return behind_words(alloc, place, Ended::Subroutine, false, tokens);
    }
    if word == "function".as_bytes() {
        return behind_words(alloc, place, Ended::Function, false, tokens);
    }
    if word == "type".as_bytes() {
        return behind_words(alloc, place, Ended::Type, false, tokens);
    }
    if word == "interface".as_bytes() {
        return behind_words(alloc, place, Ended::Interface, false, tokens);
    }
    Err(ReadError::Form)
}

/// The END statement whose word END stands at a place, from the tokens behind it, which are all that is left of the statement.
#[tactic(auto, unfolding(f_declaration_grammar::specs::DeclarationReading::end_at))]
pub fn end(alloc: Global, place: Place, tokens: &[Spanned]) -> Result<Declared, ReadError>
    ensures { Gives view_declared result (end_at (tokens_of tokens.now)) }
{
    match tokens {
        [] => Ok(Declared::End { place }),
        [_, ..] => match name_at(tokens) {
            None => Err(ReadError::Form),
            Some((word, _, rest)) => end_by(alloc, place, word, rest),
        },
    }
}

/// The END statement that a word begins in which END and a second word are joined, from the tokens behind it, which are all that is left of the
/// statement.
#[tactic(auto, unfolding(f_declaration_grammar::specs::DeclarationReading::joined_by))]
pub fn joined_by(
    alloc: Global,
    place: Place,
    word: &List<u8>,
    tokens: &[Spanned],
) -> Result<Declared, ReadError>
    ensures { Gives view_declared result (joined_by word.now (tokens_of tokens.now)) }
{
    let word = word.as_slice();
    if word == "endprogram".as_bytes() {
        return behind_words(alloc, place, Ended::Program, true, tokens);
    }
    if word == "endmodule".as_bytes() {
        return behind_words(alloc, place, Ended::Module, true, tokens);
    }
    if word == "endsubroutine".as_bytes() {
        return behind_words(alloc, place, Ended::Subroutine, true, tokens);
    }
    if word == "endfunction".as_bytes() {
        return behind_words(alloc, place, Ended::Function, true, tokens);
    }
    if word == "endtype".as_bytes() {
        return behind_words(alloc, place, Ended::Type, true, tokens);
    }
    if word == "endinterface".as_bytes() {
        return behind_words(alloc, place, Ended::Interface, true, tokens);
    }
    Err(ReadError::Form)
}
