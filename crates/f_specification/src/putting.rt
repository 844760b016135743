//! A single statement put behind what a specification part has.

ghost use Rattle.std.specs.Prelude.{◌≡◌, ◌∷◌, List as ListOf, Some, true, IfOk, OnOk};
ghost use Rattle.std.specs.Option.{IsSome};
ghost use Rattle.f_statement_grammar.specs.Statements as grammar;
ghost use Rattle.f_unit_grammar.specs.Units as part;
ghost use Rattle.f_declared.specs.Views.{view_declared};
ghost use Rattle.f_unit_parts.specs.Views.{kind_of};
ghost use Rattle.f_unit_parts.specs.Units.{use_line, import_line, implicit_line, uses_of, declarations_of, specification_lines};
ghost use Rattle.f_specification.specs.Stages.{part_of, stage_lines, is_declaration, next_part, next_at_beginning, next_behind_import};

use crate::stage::{Imported, Stage, Uses, behind_implicit, behind_imported, behind_uses};
use f_declared::Declared;
use f_tree::{Declaration, Import, Specification, Use};
use f_unit_parts::made::{push_access, push_pointers, push_save, push_use, push_variables};
use f_unit_parts::taken::{
    access, implicit_none, import, procedure_pointers, save, used, variables,
};
use f_unit_parts::{Kind, kind_of};
use jf_base::{Boxed, List, Place};
use std::alloc::{AllocError, Global};

/// The specification part with a single statement behind all that it has, where that may stand there (ISO/IEC 1539-1:2018, R504). Fails only where memory
/// is short.
#[tactic(auto, unfolding(crate::specs::Stages::stage_lines))]
pub fn put(alloc: Global, stage: Stage, declared: Declared) -> Result<Stage, AllocError>
    requires { IsSome (next_part (part_of stage) (kind_of declared)) }
    ensures lines { IfOk result (λ s. (rest : ListOf grammar.Statement) → stage_lines s rest ≡ stage_lines stage (grammar.Declaring (view_declared declared) ∷ rest)) }
    ensures part { IfOk result (λ s. next_part (part_of stage) (kind_of declared) ≡ Some (part_of s)) }
{
    match stage {
        Stage::Beginning(uses) => put_at_beginning(alloc, uses.into_inner(), declared),
        Stage::BehindImport(imported) => {
            put_behind_import(alloc, imported.into_inner(), declared)
        }
        Stage::BehindImplicit(specification) => {
            put_declaration(alloc, specification.into_inner(), declared)
        }
    }
}

/// A statement behind USE statements.
fn put_at_beginning(alloc: Global, uses: Uses, declared: Declared) -> Result<Stage, AllocError>
    requires { IsSome (next_at_beginning (kind_of declared)) }
    ensures lines { IfOk result (λ s. (rest : ListOf grammar.Statement) → stage_lines s rest ≡ uses_of uses.uses (grammar.Declaring (view_declared declared) ∷ rest)) }
    ensures part { IfOk result (λ s. next_at_beginning (kind_of declared) ≡ Some (part_of s)) }
{
    match kind_of(&declared) {
        Kind::Use => put_use(alloc, uses, used(declared)),
        Kind::Import => put_import(alloc, uses, import(declared)),
        Kind::ImplicitNone => put_implicit_at_beginning(alloc, uses, implicit_none(declared)),
        _ => put_declaration(alloc, behind_uses(alloc, uses, None), declared),
    }
}

/// A statement behind IMPORT.
fn put_behind_import(
    alloc: Global,
    imported: Imported,
    declared: Declared,
) -> Result<Stage, AllocError>
    requires { IsSome (next_behind_import (kind_of declared)) }
    ensures lines { IfOk result (λ s. (rest : ListOf grammar.Statement) → stage_lines s rest ≡ uses_of imported.uses (import_line imported.import ∷ grammar.Declaring (view_declared declared) ∷ rest)) }
    ensures part { IfOk result (λ s. next_behind_import (kind_of declared) ≡ Some (part_of s)) }
{
    match kind_of(&declared) {
        Kind::ImplicitNone => {
            put_implicit_behind_import(alloc, imported, implicit_none(declared))
        }
        _ => put_declaration(alloc, behind_imported(alloc, imported, None), declared),
    }
}

#[tactic(auto, unfolding(crate::specs::Stages::stage_lines))]
fn put_use(alloc: Global, uses: Uses, used: Use) -> Result<Stage, AllocError>
    ensures part { IfOk result (λ s. part_of s ≡ part.Beginning) }
    ensures lines { IfOk result (λ s. (rest : ListOf grammar.Statement) → stage_lines s rest ≡ uses_of uses.uses (use_line used ∷ rest)) }
{
    let mut uses = uses;
    push_use(&mut uses.uses, used)?;
    Ok(Stage::Beginning(Boxed::new(alloc, uses)?))
}

#[tactic(auto, unfolding(crate::specs::Stages::stage_lines))]
fn put_import(alloc: Global, uses: Uses, import: Import) -> Result<Stage, AllocError>
    ensures part { IfOk result (λ s. part_of s ≡ part.BehindImport) }
    ensures lines { IfOk result (λ s. (rest : ListOf grammar.Statement) → stage_lines s rest ≡ uses_of uses.uses (import_line import ∷ rest)) }
{
    let uses = uses.uses;
    Ok(Stage::BehindImport(Boxed::new(alloc, Imported { uses, import })?))
}

fn put_implicit_at_beginning(alloc: Global, uses: Uses, place: Place) -> Result<Stage, AllocError>
    ensures part { IfOk result (λ s. part_of s ≡ part.BehindImplicit) }
    ensures lines { IfOk result (λ s. (rest : ListOf grammar.Statement) → stage_lines s rest ≡ uses_of uses.uses (implicit_line ∷ rest)) }
{
    behind_implicit(alloc, behind_uses(alloc, uses, Some(place)))
}

fn put_implicit_behind_import(
    alloc: Global,
    imported: Imported,
    place: Place,
) -> Result<Stage, AllocError>
    ensures part { IfOk result (λ s. part_of s ≡ part.BehindImplicit) }
    ensures lines { IfOk result (λ s. (rest : ListOf grammar.Statement) → stage_lines s rest ≡ uses_of imported.uses (import_line imported.import ∷ implicit_line ∷ rest)) }
{
    behind_implicit(alloc, behind_imported(alloc, imported, Some(place)))
}

/// A declaration behind all that there is.
fn put_declaration(
    alloc: Global,
    specification: Specification,
    declared: Declared,
) -> Result<Stage, AllocError>
    requires { is_declaration (kind_of declared) ≡ true }
    ensures part { IfOk result (λ s. part_of s ≡ part.BehindImplicit) }
    ensures lines { IfOk result (λ s. (rest : ListOf grammar.Statement) → stage_lines s rest ≡ specification_lines specification (grammar.Declaring (view_declared declared) ∷ rest)) }
{
    behind_implicit(alloc, declare(specification, declared)?)
}

fn declare(specification: Specification, declared: Declared) -> Result<Specification, AllocError>
    requires { is_declaration (kind_of declared) ≡ true }
    ensures { IfOk result (λ s. (rest : ListOf grammar.Statement) → specification_lines s rest ≡ specification_lines specification (grammar.Declaring (view_declared declared) ∷ rest)) }
{
    let mut specification = specification;
    push_declaration(&mut specification.declarations, declared)?;
    Ok(specification)
}

fn push_declaration(
    declarations: &mut List<Declaration>,
    declared: Declared,
) -> Result<(), AllocError>
    requires { is_declaration (kind_of declared) ≡ true }
    ensures { OnOk result ((rest : ListOf grammar.Statement) → declarations_of declarations.new rest ≡ declarations_of declarations.old (grammar.Declaring (view_declared declared) ∷ rest)) }
{
    match kind_of(&declared) {
        Kind::Variables => push_variables(declarations, variables(declared)),
        Kind::Access => push_access(declarations, access(declared)),
        Kind::Save => push_save(declarations, save(declared)),
        Kind::ProcedurePointers => push_pointers(declarations, procedure_pointers(declared)),
        _ => unreachable!(),
    }
}
