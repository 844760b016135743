//! The tokens of definitions of derived types, of access statements and of procedure pointers. What stands last is put first.

ghost use Rattle.std.specs.Prelude.{◌≡◌, OnOk, map, codes};
ghost use Rattle.f_tree.specs.Lexemes.{if_there, name_of};
ghost use Rattle.f_tree.specs.Declarations.{comma_dimension, ending, ending_words, null_target};

use crate::declaration::{
    AccessStatement, Component, DerivedType, Dimension, Ending, EndingForm, PointerAttribute,
    ProcedurePointer, ProcedurePointers, TypeAttribute,
};
use crate::lexeme::Lexemes;
use crate::name::Name;
use crate::spell::{Spell, put_behind_commas, put_each, put_listed};
use crate::spell_declaration::{access_word, put_bind, put_colons, put_dimensions};
use crate::spell_expression::put_type;
use f_lex::Mark;
use jf_base::{List, Place};
use std::alloc::AllocError;

fn put_name_if_there(out: &mut Lexemes, name: &Option<Name>) -> Result<(), AllocError>
    ensures { OnOk result (out.new ≡ if_there name_of name.now out.old) }
{
    match name {
        None => Ok(()),
        Some(name) => out.name(name),
    }
}

fn put_ending_words(
    out: &mut Lexemes,
    form: EndingForm,
    word: &str,
    joined: &str,
    place: Place,
) -> Result<(), AllocError>
    ensures { OnOk result (out.new ≡ ending_words form word.now joined.now place out.old) }
{
    match form {
        EndingForm::Bare => out.placed_word("end", place),
        EndingForm::TwoWords => {
            out.word(word)?;
            out.placed_word("end", place)
        }
        EndingForm::OneWord => out.placed_word(joined, place),
    }
}

/// Puts an END statement in front, by its word and by END and its word in one.
pub fn put_ending(
    out: &mut Lexemes,
    end: &Ending,
    word: &str,
    joined: &str,
) -> Result<(), AllocError>
    ensures { OnOk result (out.new ≡ ending word.now joined.now end.now out.old) }
{
    out.statement_end()?;
    put_name_if_there(out, &end.name)?;
    put_ending_words(out, end.form, word, joined, end.place)
}

impl Spell for TypeAttribute {
    ghost use Rattle.f_tree.specs.Declarations.{type_attribute};

    ghost spelled = { type_attribute };

    fn put(&self, out: &mut Lexemes) -> Result<(), AllocError> {
        match self {
            TypeAttribute::Bind { place, bind } => {
                put_bind(out, bind)?;
                out.placed_word("bind", *place)
            }
            TypeAttribute::Access { place, access } => {
                out.placed_word(access_word(*access), *place)
            }
        }
    }
}

fn put_comma_dimension(
    out: &mut Lexemes,
    dimensions: &Option<List<Dimension>>,
) -> Result<(), AllocError>
    ensures { OnOk result (out.new ≡ if_there comma_dimension dimensions.now out.old) }
{
    match dimensions {
        None => Ok(()),
        Some(dimensions) => {
            put_dimensions(out, dimensions.as_slice())?;
            out.word("dimension")?;
            out.mark(Mark::Comma)
        }
    }
}

impl Spell for Component {
    ghost use Rattle.f_tree.specs.Declarations.{component};

    ghost spelled = { component };

    fn put(&self, out: &mut Lexemes) -> Result<(), AllocError> {
        out.statement_end()?;
        put_listed(out, self.fields.as_slice())?;
        out.mark(Mark::DoubleColon)?;
        put_comma_dimension(out, &self.dimensions)?;
        put_type(out, &self.declared)
    }
}

impl Spell for DerivedType {
    ghost use Rattle.f_tree.specs.Declarations.{derived_type};

    ghost spelled = { derived_type };

    fn put(&self, out: &mut Lexemes) -> Result<(), AllocError> {
        put_ending(out, &self.ending, "type", "endtype")?;
        put_each(out, self.components.as_slice())?;
        out.statement_end()?;
        out.name(&self.name)?;
        put_colons(out, self.has_colons)?;
        put_behind_commas(out, self.attributes.as_slice())?;
        out.placed_word("type", self.place)
    }
}

impl Spell for AccessStatement {
    ghost use Rattle.f_tree.specs.Declarations.{access_statement};

    ghost spelled = { access_statement };

    fn put(&self, out: &mut Lexemes) -> Result<(), AllocError> {
        put_listed(out, self.names.as_slice())?;
        put_colons(out, self.has_colons)?;
        out.placed_word(access_word(self.access), self.place)
    }
}

impl Spell for PointerAttribute {
    ghost use Rattle.f_tree.specs.Declarations.{pointer_attribute};

    ghost spelled = { pointer_attribute };

    fn put(&self, out: &mut Lexemes) -> Result<(), AllocError> {
        match self {
            PointerAttribute::Save { place } => out.placed_word("save", *place),
            PointerAttribute::Access { place, access } => {
                out.placed_word(access_word(*access), *place)
            }
        }
    }
}

fn put_null(out: &mut Lexemes, null: Option<Place>) -> Result<(), AllocError>
    ensures { OnOk result (out.new ≡ if_there null_target null out.old) }
{
    match null {
        None => Ok(()),
        Some(place) => {
            out.mark(Mark::Close)?;
            out.mark(Mark::Open)?;
            out.placed_word("null", place)?;
            out.mark(Mark::Arrow)
        }
    }
}

impl Spell for ProcedurePointer {
    ghost use Rattle.f_tree.specs.Declarations.{procedure_pointer};

    ghost spelled = { procedure_pointer };

    fn put(&self, out: &mut Lexemes) -> Result<(), AllocError> {
        put_null(out, self.null)?;
        out.name(&self.name)
    }
}

impl Spell for ProcedurePointers {
    ghost use Rattle.f_tree.specs.Declarations.{procedure_pointers};

    ghost spelled = { procedure_pointers };

    fn put(&self, out: &mut Lexemes) -> Result<(), AllocError> {
        put_listed(out, self.pointers.as_slice())?;
        out.mark(Mark::DoubleColon)?;
        put_behind_commas(out, self.attributes.as_slice())?;
        out.word("pointer")?;
        out.mark(Mark::Comma)?;
        out.mark(Mark::Close)?;
        out.name(&self.interface)?;
        out.mark(Mark::Open)?;
        out.placed_word("procedure", self.place)
    }
}
