//! Attributes (ISO/IEC 1539-1:2018, 7.5.2, 8.5 and 15.4.3.6).

ghost use Rattle.std.specs.Prelude.{◌≡◌, map};
ghost use Rattle.f_declaration_grammar.specs.DeclarationReading.{label_at, bind_at, in_at, intent_by, intent_at, dimension_at, bind_attr_at, intent_attr_at, attr_by, type_attr_by, pointer_attr_by};
ghost use Rattle.f_expr_read.specs.Gives.{Gives};
ghost use Rattle.f_expr_read.specs.Views.{tokens_of};
ghost use Rattle.f_declared.specs.Views.{label_of, view_bind, view_intent, view_form, view_type_attribute, view_pointer_attribute};

use crate::dimension::dimensions;
use crate::list::Parse;
use crate::word::{text, this, this_at};
use f_action_read::{closed, opened};
use f_expr_read::{ReadError, comma_at, name_at, word_at};
use f_lex::Spanned;
use f_tree::{
    Access, Attribute, AttributeForm, Bind, BindingName, Intent, PointerAttribute, TypeAttribute,
};
use jf_base::{List, Place};
use std::alloc::Global;

// A label behind a comma, where one stands first.
#[tactic(auto, unfolding(f_declaration_grammar::specs::DeclarationReading::label_at))]
fn label(alloc: Global, tokens: &[Spanned]) -> Result<(Option<BindingName>, &[Spanned]), ReadError>
    ensures { Gives (λ x. (label_of x.0, tokens_of x.1.now)) result (label_at (tokens_of tokens.now)) }
{
    match comma_at(tokens) {
        None => Ok((None, tokens)),
        Some((_, rest)) => match word_at("name", rest) {
            None => Err(ReadError::Form),
            Some((_, rest)) => {
                let (name, rest) = text(alloc, rest)?;
                Ok((Some(name), rest))
            }
        },
    }
}

/// `(c)` with its label, behind BIND, and what stands behind it (8.5.5).
#[tactic(auto, unfolding(f_declaration_grammar::specs::DeclarationReading::bind_at))]
pub fn bind(alloc: Global, tokens: &[Spanned]) -> Result<(Bind, &[Spanned]), ReadError>
    ensures { Gives (λ x. (view_bind x.0, tokens_of x.1.now)) result (bind_at (tokens_of tokens.now)) }
{
    let rest = opened(tokens)?;
    let (_, rest) = this("c", rest)?;
    let (name, rest) = label(alloc, rest)?;
    let rest = closed(rest)?;
    Ok((Bind { name }, rest))
}

// IN or IN OUT, behind IN.
#[tactic(auto, unfolding(f_declaration_grammar::specs::DeclarationReading::in_at))]
fn behind_in(tokens: &[Spanned]) -> Result<(Intent, &[Spanned]), ReadError>
    ensures { Gives (λ x. (view_intent x.0, tokens_of x.1.now)) result (in_at (tokens_of tokens.now)) }
{
    match this_at("out", tokens) {
        None => Ok((Intent::In, tokens)),
        Some((_, rest)) => Ok((Intent::InOutTwoWords, rest)),
    }
}

#[tactic(auto, unfolding(f_declaration_grammar::specs::DeclarationReading::intent_by))]
fn intent_by<'a>(
    word: &List<u8>,
    tokens: &'a [Spanned],
) -> Result<(Intent, &'a [Spanned]), ReadError>
    ensures { Gives (λ x. (view_intent x.0, tokens_of x.1.now)) result (intent_by word.now (tokens_of tokens.now)) }
{
    let word = word.as_slice();
    if word == "in".as_bytes() {
        return behind_in(tokens);
    }
    if word == "out".as_bytes() {
        return Ok((Intent::Out, tokens));
    }
    if word == "inout".as_bytes() {
        return Ok((Intent::InOut, tokens));
    }
    Err(ReadError::Form)
}

// What an argument is for, in parentheses, behind INTENT.
#[tactic(auto, unfolding(f_declaration_grammar::specs::DeclarationReading::intent_at))]
fn intent(tokens: &[Spanned]) -> Result<(Intent, &[Spanned]), ReadError>
    ensures { Gives (λ x. (view_intent x.0, tokens_of x.1.now)) result (intent_at (tokens_of tokens.now)) }
{
    let rest = opened(tokens)?;
    match name_at(rest) {
        None => Err(ReadError::Form),
        Some((word, _, rest)) => {
            let (intent, rest) = intent_by(word, rest)?;
            let rest = closed(rest)?;
            Ok((intent, rest))
        }
    }
}

#[tactic(auto, unfolding(f_declaration_grammar::specs::DeclarationReading::dimension_at))]
fn dimension(alloc: Global, tokens: &[Spanned]) -> Result<(AttributeForm, &[Spanned]), ReadError>
    ensures { Gives (λ x. (view_form x.0, tokens_of x.1.now)) result (dimension_at 65 (tokens_of tokens.now)) }
{
    let rest = opened(tokens)?;
    let (dimensions, rest) = dimensions(alloc, rest)?;
    Ok((AttributeForm::Dimension(dimensions), rest))
}

#[tactic(auto, unfolding(f_declaration_grammar::specs::DeclarationReading::bind_attr_at))]
fn bound(alloc: Global, tokens: &[Spanned]) -> Result<(AttributeForm, &[Spanned]), ReadError>
    ensures { Gives (λ x. (view_form x.0, tokens_of x.1.now)) result (bind_attr_at (tokens_of tokens.now)) }
{
    let (bind, rest) = bind(alloc, tokens)?;
    Ok((AttributeForm::Bind(bind), rest))
}

#[tactic(auto, unfolding(f_declaration_grammar::specs::DeclarationReading::intent_attr_at))]
fn intended(tokens: &[Spanned]) -> Result<(AttributeForm, &[Spanned]), ReadError>
    ensures { Gives (λ x. (view_form x.0, tokens_of x.1.now)) result (intent_attr_at (tokens_of tokens.now)) }
{
    let (intent, rest) = intent(tokens)?;
    Ok((AttributeForm::Intent(intent), rest))
}

// The attribute that a word begins.
#[tactic(auto, unfolding(f_declaration_grammar::specs::DeclarationReading::attr_by))]
fn form_by<'a>(
    alloc: Global,
    word: &List<u8>,
    tokens: &'a [Spanned],
) -> Result<(AttributeForm, &'a [Spanned]), ReadError>
    ensures { Gives (λ x. (view_form x.0, tokens_of x.1.now)) result (attr_by 65 word.now (tokens_of tokens.now)) }
{
    let word = word.as_slice();
    if word == "parameter".as_bytes() {
        return Ok((AttributeForm::Parameter, tokens));
    }
    if word == "dimension".as_bytes() {
        return dimension(alloc, tokens);
    }
    if word == "allocatable".as_bytes() {
        return Ok((AttributeForm::Allocatable, tokens));
    }
    if word == "pointer".as_bytes() {
        return Ok((AttributeForm::Pointer, tokens));
    }
    if word == "target".as_bytes() {
        return Ok((AttributeForm::Target, tokens));
    }
    if word == "optional".as_bytes() {
        return Ok((AttributeForm::Optional, tokens));
    }
    if word == "value".as_bytes() {
        return Ok((AttributeForm::Value, tokens));
    }
    if word == "contiguous".as_bytes() {
        return Ok((AttributeForm::Contiguous, tokens));
    }
    if word == "save".as_bytes() {
        return Ok((AttributeForm::Save, tokens));
    }
    if word == "public".as_bytes() {
        return Ok((AttributeForm::Access(Access::Public), tokens));
    }
    if word == "private".as_bytes() {
        return Ok((AttributeForm::Access(Access::Private), tokens));
    }
    if word == "bind".as_bytes() {
        return bound(alloc, tokens);
    }
    if word == "intent".as_bytes() {
        return intended(tokens);
    }
    Err(ReadError::Form)
}

impl Parse for Attribute {
    ghost use Rattle.f_declaration_grammar.specs.Declarations.{Attr};
    ghost use Rattle.f_declaration_grammar.specs.DeclarationReading.{attr_at};
    ghost use Rattle.f_declared.specs.Views.{view_attribute};

    ghost Seen = { Attr };

    ghost seen = { view_attribute };

    ghost one = { attr_at 65 };

    #[tactic(auto, unfolding(f_declaration_grammar::specs::DeclarationReading::attr_at))]
    fn parse(alloc: Global, tokens: &[Spanned]) -> Result<(Attribute, &[Spanned]), ReadError> {
        match name_at(tokens) {
            None => Err(ReadError::Form),
            Some((word, place, rest)) => {
                let (form, rest) = form_by(alloc, word, rest)?;
                Ok((Attribute { place, form }, rest))
            }
        }
    }
}

// The attribute of a derived type that a word at this place begins.
#[tactic(auto, unfolding(f_declaration_grammar::specs::DeclarationReading::type_attr_by))]
fn type_attribute_by<'a>(
    alloc: Global,
    word: &List<u8>,
    place: Place,
    tokens: &'a [Spanned],
) -> Result<(TypeAttribute, &'a [Spanned]), ReadError>
    ensures { Gives (λ x. (view_type_attribute x.0, tokens_of x.1.now)) result (type_attr_by word.now (tokens_of tokens.now)) }
{
    let word = word.as_slice();
    if word == "bind".as_bytes() {
        let (bind, rest) = bind(alloc, tokens)?;
        return Ok((TypeAttribute::Bind { place, bind }, rest));
    }
    if word == "public".as_bytes() {
        let access = Access::Public;
        return Ok((TypeAttribute::Access { place, access }, tokens));
    }
    if word == "private".as_bytes() {
        let access = Access::Private;
        return Ok((TypeAttribute::Access { place, access }, tokens));
    }
    Err(ReadError::Form)
}

impl Parse for TypeAttribute {
    ghost use Rattle.f_declaration_grammar.specs.Declarations.{TypeAttr};
    ghost use Rattle.f_declaration_grammar.specs.DeclarationReading.{type_attr_at};
    ghost use Rattle.f_declared.specs.Views.{view_type_attribute};

    ghost Seen = { TypeAttr };

    ghost seen = { view_type_attribute };

    ghost one = { type_attr_at };

    #[tactic(auto, unfolding(f_declaration_grammar::specs::DeclarationReading::type_attr_at))]
    fn parse(alloc: Global, tokens: &[Spanned]) -> Result<(TypeAttribute, &[Spanned]), ReadError> {
        match name_at(tokens) {
            None => Err(ReadError::Form),
            Some((word, place, rest)) => type_attribute_by(alloc, word, place, rest),
        }
    }
}

// The attribute of procedure pointers that a word at this place is.
#[tactic(auto, unfolding(f_declaration_grammar::specs::DeclarationReading::pointer_attr_by))]
fn pointer_attribute_by<'a>(
    word: &List<u8>,
    place: Place,
    tokens: &'a [Spanned],
) -> Result<(PointerAttribute, &'a [Spanned]), ReadError>
    ensures { Gives (λ x. (view_pointer_attribute x.0, tokens_of x.1.now)) result (pointer_attr_by word.now (tokens_of tokens.now)) }
{
    let word = word.as_slice();
    if word == "save".as_bytes() {
        return Ok((PointerAttribute::Save { place }, tokens));
    }
    if word == "public".as_bytes() {
        let access = Access::Public;
        return Ok((PointerAttribute::Access { place, access }, tokens));
    }
    if word == "private".as_bytes() {
        let access = Access::Private;
        return Ok((PointerAttribute::Access { place, access }, tokens));
    }
    Err(ReadError::Form)
}

impl Parse for PointerAttribute {
    ghost use Rattle.f_declaration_grammar.specs.Declarations.{PointerAttr};
    ghost use Rattle.f_declaration_grammar.specs.DeclarationReading.{pointer_attr_at};
    ghost use Rattle.f_declared.specs.Views.{view_pointer_attribute};

    ghost Seen = { PointerAttr };

    ghost seen = { view_pointer_attribute };

    ghost one = { pointer_attr_at };

    #[tactic(auto, unfolding(f_declaration_grammar::specs::DeclarationReading::pointer_attr_at))]
    fn parse(
        _alloc: Global,
        tokens: &[Spanned],
    ) -> Result<(PointerAttribute, &[Spanned]), ReadError> {
        match name_at(tokens) {
            None => Err(ReadError::Form),
            Some((word, place, rest)) => pointer_attribute_by(word, place, rest),
        }
    }
}
