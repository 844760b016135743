//! The tokens of declarations. What stands last is put first.

ghost use Rattle.std.specs.Prelude.{◌≡◌, OnOk, map, codes};
ghost use Rattle.f_lex.specs.declared.token.Mark.TheVariants.{DoubleColon};
ghost use Rattle.f_tree.specs.Lexemes.{if_there, mark_of, when};
ghost use Rattle.f_tree.specs.Declarations.{access_word, intent_words, binding_name, bind_list, before_colon, dimensions, initial_value, colons, use_list, comma_intrinsic};
ghost use Rattle.f_tree.specs.Expressions.{expression};

use crate::declaration::{
    Access, Attribute, AttributeForm, Bind, BindingName, Dimension, Entity, Field, Import, Initial,
    Intent, Only, Rename, Use, UseList, Variables,
};
use crate::expression::Expression;
use crate::lexeme::Lexemes;
use crate::spell::{Spell, put_behind_commas, put_listed};
use crate::spell_expression::{put_expression, put_type};
use f_lex::Mark;
use jf_base::List;
use std::alloc::AllocError;

pub fn access_word(access: Access) -> &'static str
    ensures { result.now ≡ access_word access }
{
    match access {
        Access::Public => "public",
        Access::Private => "private",
    }
}

fn put_intent(out: &mut Lexemes, intent: Intent) -> Result<(), AllocError>
    ensures { OnOk result (out.new ≡ intent_words intent out.old) }
{
    match intent {
        Intent::In => {
            out.word("in")?;
            Ok(())
        }
        Intent::Out => {
            out.word("out")?;
            Ok(())
        }
        Intent::InOut => {
            out.word("inout")?;
            Ok(())
        }
        Intent::InOutTwoWords => {
            out.word("out")?;
            out.word("in")?;
            Ok(())
        }
    }
}

fn put_binding_name(out: &mut Lexemes, name: &Option<BindingName>) -> Result<(), AllocError>
    ensures { OnOk result (out.new ≡ if_there binding_name name.now out.old) }
{
    match name {
        None => Ok(()),
        Some(name) => {
            out.text(&name.bytes, &name.kind, name.place)?;
            out.mark(Mark::Assign)?;
            out.word("name")?;
            out.mark(Mark::Comma)?;
            Ok(())
        }
    }
}

pub fn put_bind(out: &mut Lexemes, bind: &Bind) -> Result<(), AllocError>
    ensures { OnOk result (out.new ≡ bind_list bind.now out.old) }
{
    out.mark(Mark::Close)?;
    put_binding_name(out, &bind.name)?;
    out.word("c")?;
    out.mark(Mark::Open)?;
    Ok(())
}

pub fn put_if_there(out: &mut Lexemes, e: &Option<Expression>) -> Result<(), AllocError>
    ensures { OnOk result (out.new ≡ if_there expression e.now out.old) }
{
    match e {
        None => Ok(()),
        Some(e) => {
            put_expression(out, e)?;
            Ok(())
        }
    }
}

fn put_before_colon(out: &mut Lexemes, e: &Option<Expression>) -> Result<(), AllocError>
    ensures { OnOk result (out.new ≡ if_there before_colon e.now out.old) }
{
    match e {
        None => Ok(()),
        Some(e) => {
            out.mark(Mark::Colon)?;
            put_expression(out, e)?;
            Ok(())
        }
    }
}

impl Spell for Dimension {
    ghost use Rattle.f_tree.specs.Declarations.{dimension};

    ghost spelled = { dimension };

    fn put(&self, out: &mut Lexemes) -> Result<(), AllocError> {
        match self {
            Dimension::Upper(upper) => {
                put_expression(out, upper)?;
                Ok(())
            }
            Dimension::Bounds(lower, upper) => {
                put_expression(out, upper)?;
                out.mark(Mark::Colon)?;
                put_expression(out, lower)?;
                Ok(())
            }
            Dimension::Deferred { lower, place } => {
                out.placed_mark(Mark::Colon, *place)?;
                put_if_there(out, lower)?;
                Ok(())
            }
            Dimension::AssumedSize { lower, place } => {
                out.placed_mark(Mark::Star, *place)?;
                put_before_colon(out, lower)?;
                Ok(())
            }
            Dimension::AssumedRank { place } => {
                out.placed_mark(Mark::DotDot, *place)?;
                Ok(())
            }
        }
    }
}

pub fn put_dimensions(out: &mut Lexemes, all: &[Dimension]) -> Result<(), AllocError>
    ensures { OnOk result (out.new ≡ dimensions all.now out.old) }
{
    out.mark(Mark::Close)?;
    put_listed(out, all)?;
    out.mark(Mark::Open)?;
    Ok(())
}

fn put_dimensions_if_there(
    out: &mut Lexemes,
    all: &Option<List<Dimension>>,
) -> Result<(), AllocError>
    ensures { OnOk result (out.new ≡ if_there dimensions all.now out.old) }
{
    match all {
        None => Ok(()),
        Some(all) => {
            put_dimensions(out, all.as_slice())?;
            Ok(())
        }
    }
}

impl Spell for Attribute {
    ghost use Rattle.f_tree.specs.Declarations.{attribute};

    ghost spelled = { attribute };

    fn put(&self, out: &mut Lexemes) -> Result<(), AllocError> {
        let place = self.place;
        match &self.form {
            AttributeForm::Parameter => out.placed_word("parameter", place),
            AttributeForm::Dimension(all) => {
                put_dimensions(out, all.as_slice())?;
                out.placed_word("dimension", place)
            }
            AttributeForm::Allocatable => out.placed_word("allocatable", place),
            AttributeForm::Pointer => out.placed_word("pointer", place),
            AttributeForm::Target => out.placed_word("target", place),
            AttributeForm::Optional => out.placed_word("optional", place),
            AttributeForm::Value => out.placed_word("value", place),
            AttributeForm::Contiguous => out.placed_word("contiguous", place),
            AttributeForm::Save => out.placed_word("save", place),
            AttributeForm::Access(access) => out.placed_word(access_word(*access), place),
            AttributeForm::Bind(bind) => {
                put_bind(out, bind)?;
                out.placed_word("bind", place)
            }
            AttributeForm::Intent(intent) => {
                out.mark(Mark::Close)?;
                put_intent(out, *intent)?;
                out.mark(Mark::Open)?;
                out.placed_word("intent", place)
            }
        }
    }
}

fn put_initial(out: &mut Lexemes, initial: &Option<Initial>) -> Result<(), AllocError>
    ensures { OnOk result (out.new ≡ if_there initial_value initial.now out.old) }
{
    match initial {
        None => Ok(()),
        Some(Initial::Value(value)) => {
            put_expression(out, value)?;
            out.mark(Mark::Assign)?;
            Ok(())
        }
        Some(Initial::Null { place }) => {
            out.mark(Mark::Close)?;
            out.mark(Mark::Open)?;
            out.placed_word("null", *place)?;
            out.mark(Mark::Arrow)?;
            Ok(())
        }
    }
}

impl Spell for Entity {
    ghost use Rattle.f_tree.specs.Declarations.{entity};

    ghost spelled = { entity };

    fn put(&self, out: &mut Lexemes) -> Result<(), AllocError> {
        put_initial(out, &self.initial)?;
        put_dimensions_if_there(out, &self.dimensions)?;
        out.name(&self.name)
    }
}

impl Spell for Field {
    ghost use Rattle.f_tree.specs.Declarations.{field};

    ghost spelled = { field };

    fn put(&self, out: &mut Lexemes) -> Result<(), AllocError> {
        put_dimensions_if_there(out, &self.dimensions)?;
        out.name(&self.name)
    }
}

pub fn put_colons(out: &mut Lexemes, is_there: bool) -> Result<(), AllocError>
    ensures { OnOk result (out.new ≡ colons is_there out.old) }
{
    if is_there {
        out.mark(Mark::DoubleColon)?;
    }
    Ok(())
}

impl Spell for Variables {
    ghost use Rattle.f_tree.specs.Declarations.{variables};

    ghost spelled = { variables };

    fn put(&self, out: &mut Lexemes) -> Result<(), AllocError> {
        put_listed(out, self.entities.as_slice())?;
        put_colons(out, self.has_colons)?;
        put_behind_commas(out, self.attributes.as_slice())?;
        put_type(out, &self.declared)
    }
}

impl Spell for Rename {
    ghost use Rattle.f_tree.specs.Declarations.{rename};

    ghost spelled = { rename };

    fn put(&self, out: &mut Lexemes) -> Result<(), AllocError> {
        out.name(&self.used)?;
        out.mark(Mark::Arrow)?;
        out.name(&self.local)
    }
}

impl Spell for Only {
    ghost use Rattle.f_tree.specs.Declarations.{only_name};

    ghost spelled = { only_name };

    fn put(&self, out: &mut Lexemes) -> Result<(), AllocError> {
        match self {
            Only::Plain(name) => out.name(name),
            Only::Renamed(rename) => rename.put(out),
        }
    }
}

fn put_use_list(out: &mut Lexemes, list: &UseList) -> Result<(), AllocError>
    ensures { OnOk result (out.new ≡ use_list list.now out.old) }
{
    match list {
        UseList::All => Ok(()),
        UseList::Renamed(renames) => put_behind_commas(out, renames.as_slice()),
        UseList::Only(names) => {
            put_listed(out, names.as_slice())?;
            out.mark(Mark::Colon)?;
            out.word("only")?;
            out.mark(Mark::Comma)
        }
    }
}

fn put_intrinsic(out: &mut Lexemes, is_intrinsic: bool) -> Result<(), AllocError>
    ensures { OnOk result (out.new ≡ when is_intrinsic comma_intrinsic out.old) }
{
    if is_intrinsic {
        out.word("intrinsic")?;
        out.mark(Mark::Comma)?;
    }
    Ok(())
}

impl Spell for Use {
    ghost use Rattle.f_tree.specs.Declarations.{use_line};

    ghost spelled = { use_line };

    fn put(&self, out: &mut Lexemes) -> Result<(), AllocError> {
        out.statement_end()?;
        put_use_list(out, &self.list)?;
        out.name(&self.module)?;
        put_colons(out, self.has_colons)?;
        put_intrinsic(out, self.is_intrinsic)?;
        out.placed_word("use", self.place)
    }
}

impl Spell for Import {
    ghost use Rattle.f_tree.specs.Declarations.{import_statement};

    ghost spelled = { import_statement };

    fn put(&self, out: &mut Lexemes) -> Result<(), AllocError> {
        put_listed(out, self.names.as_slice())?;
        put_colons(out, self.has_colons)?;
        out.placed_word("import", self.place)
    }
}
