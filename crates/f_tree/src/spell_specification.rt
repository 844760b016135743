//! The tokens of specifications and interfaces. What stands last is put first.

ghost use Rattle.std.specs.Prelude.{◌≡◌, OnOk, map, codes};
ghost use Rattle.f_tree.specs.Lexemes.{if_there, each};
ghost use Rattle.f_tree.specs.Declarations.{ending};
ghost use Rattle.f_tree.specs.Units.{procedure_word, joined_word, dummies, head, import_line, implicit_line, declaration, interface, interface_body, interface_words, specification};

use crate::declaration::{Declaration, Ending, Import, Interface, InterfaceBody, Specification};
use crate::lexeme::Lexemes;
use crate::name::Name;
use crate::spell::{Spell, put_each, put_listed};
use crate::spell_declaration::put_bind;
use crate::spell_definition::put_ending;
use crate::spell_expression::put_type;
use crate::unit::{Head, Prefix, ProcedureKind, Suffix};
use f_lex::Mark;
use jf_base::{List, Place};
use std::alloc::AllocError;

fn procedure_word(kind: ProcedureKind) -> &'static str
    ensures { result.now ≡ procedure_word kind }
{
    match kind {
        ProcedureKind::Subroutine => "subroutine",
        ProcedureKind::Function => "function",
    }
}

fn joined_word(kind: ProcedureKind) -> &'static str
    ensures { result.now ≡ joined_word kind }
{
    match kind {
        ProcedureKind::Subroutine => "endsubroutine",
        ProcedureKind::Function => "endfunction",
    }
}

/// Puts the END statement of a procedure in front.
pub fn put_procedure_ending(
    out: &mut Lexemes,
    end: &Ending,
    kind: ProcedureKind,
) -> Result<(), AllocError>
    ensures { OnOk result (out.new ≡ ending (procedure_word kind) (joined_word kind) end.now out.old) }
{
    put_ending(out, end, procedure_word(kind), joined_word(kind))
}

impl Spell for Prefix {
    ghost use Rattle.f_tree.specs.Declarations.{ending};
    ghost use Rattle.f_tree.specs.Units.{prefix};

    ghost spelled = { prefix };

    fn put(&self, out: &mut Lexemes) -> Result<(), AllocError> {
        match self {
            Prefix::Recursive { place } => out.placed_word("recursive", *place),
            Prefix::Type(declared) => put_type(out, declared),
        }
    }
}

impl Spell for Suffix {
    ghost use Rattle.f_tree.specs.Declarations.{ending};
    ghost use Rattle.f_tree.specs.Units.{suffix};

    ghost spelled = { suffix };

    fn put(&self, out: &mut Lexemes) -> Result<(), AllocError> {
        match self {
            Suffix::Bind { place, bind } => {
                put_bind(out, bind)?;
                out.placed_word("bind", *place)
            }
            Suffix::Result { place, name } => {
                out.mark(Mark::Close)?;
                out.name(name)?;
                out.mark(Mark::Open)?;
                out.placed_word("result", *place)
            }
        }
    }
}

fn put_dummies(out: &mut Lexemes, names: &Option<List<Name>>) -> Result<(), AllocError>
    ensures { OnOk result (out.new ≡ if_there dummies names.now out.old) }
{
    match names {
        None => Ok(()),
        Some(names) => {
            out.mark(Mark::Close)?;
            put_listed(out, names.as_slice())?;
            out.mark(Mark::Open)
        }
    }
}

/// Puts the first statement of a procedure in front.
pub fn put_head(out: &mut Lexemes, h: &Head) -> Result<(), AllocError>
    ensures { OnOk result (out.new ≡ head h.now out.old) }
{
    out.statement_end()?;
    put_each(out, h.suffixes.as_slice())?;
    put_dummies(out, &h.dummies)?;
    out.name(&h.name)?;
    out.placed_word(procedure_word(h.kind), h.place)?;
    put_each(out, h.prefixes.as_slice())
}

fn put_import(out: &mut Lexemes, import: &Option<Import>) -> Result<(), AllocError>
    ensures { OnOk result (out.new ≡ if_there import_line import.now out.old) }
{
    match import {
        None => Ok(()),
        Some(import) => {
            out.statement_end()?;
            import.put(out)
        }
    }
}

fn put_implicit_none(out: &mut Lexemes, place: Option<Place>) -> Result<(), AllocError>
    ensures { OnOk result (out.new ≡ if_there implicit_line place out.old) }
{
    match place {
        None => Ok(()),
        Some(place) => {
            out.statement_end()?;
            out.word("none")?;
            out.placed_word("implicit", place)
        }
    }
}

fn put_interface_words(out: &mut Lexemes, is_abstract: bool, place: Place) -> Result<(), AllocError>
    ensures { OnOk result (out.new ≡ interface_words is_abstract place out.old) }
{
    if is_abstract {
        out.word("interface")?;
        out.placed_word("abstract", place)
    } else {
        out.placed_word("interface", place)
    }
}

/// Puts what stands before the executable part of a unit in front.
#[cycle(specifications)]
pub fn put_specification(out: &mut Lexemes, s: &Specification) -> Result<(), AllocError>
    ensures { OnOk result (out.new ≡ specification s.now out.old) }
{
    put_declarations(out, s.declarations.as_slice())?;
    put_implicit_none(out, s.implicit_none)?;
    put_import(out, &s.import)?;
    put_each(out, s.uses.as_slice())?;
    Ok(())
}

#[cycle(specifications)]
fn put_declaration(out: &mut Lexemes, d: &Declaration) -> Result<(), AllocError>
    ensures { OnOk result (out.new ≡ declaration d.now out.old) }
{
    match d {
        Declaration::Variables(variables) => {
            out.statement_end()?;
            variables.put(out)?;
            Ok(())
        }
        Declaration::DerivedType(derived) => {
            derived.put(out)?;
            Ok(())
        }
        Declaration::Interface(i) => {
            put_interface(out, i)?;
            Ok(())
        }
        Declaration::Access(access) => {
            out.statement_end()?;
            access.put(out)?;
            Ok(())
        }
        Declaration::Save { place } => {
            out.statement_end()?;
            out.placed_word("save", *place)?;
            Ok(())
        }
        Declaration::ProcedurePointers(pointers) => {
            out.statement_end()?;
            pointers.put(out)?;
            Ok(())
        }
    }
}

#[cycle(specifications)]
fn put_interface(out: &mut Lexemes, i: &Interface) -> Result<(), AllocError>
    ensures { OnOk result (out.new ≡ interface i.now out.old) }
{
    put_ending(out, &i.ending, "interface", "endinterface")?;
    put_bodies(out, i.bodies.as_slice())?;
    out.statement_end()?;
    put_interface_words(out, i.is_abstract, i.place)?;
    Ok(())
}

#[cycle(specifications)]
fn put_body(out: &mut Lexemes, b: &InterfaceBody) -> Result<(), AllocError>
    ensures { OnOk result (out.new ≡ interface_body b.now out.old) }
{
    put_procedure_ending(out, &b.ending, b.head.kind)?;
    put_specification(out, &b.specification)?;
    put_head(out, &b.head)?;
    Ok(())
}

#[cycle(specifications)]
fn put_declarations(out: &mut Lexemes, declarations: &[Declaration]) -> Result<(), AllocError>
    ensures { OnOk result (out.new ≡ each (map declaration declarations.now) out.old) }
{
    let mut left = declarations.len();
    while left > 0 {
        left -= 1;
        put_declaration(out, &declarations[left])?;
    }
    Ok(())
}

#[cycle(specifications)]
fn put_bodies(out: &mut Lexemes, bodies: &[InterfaceBody]) -> Result<(), AllocError>
    ensures { OnOk result (out.new ≡ each (map interface_body bodies.now) out.old) }
{
    let mut left = bodies.len();
    while left > 0 {
        left -= 1;
        put_body(out, &bodies[left])?;
    }
    Ok(())
}
