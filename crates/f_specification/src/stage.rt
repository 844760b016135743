//! How far a specification part has come.

ghost use Rattle.std.specs.Prelude.{◌≡◌, ◌∷◌, List as ListOf, IfOk};
ghost use Rattle.std.specs.Option.{option_map};
ghost use Rattle.f_statement_grammar.specs.Statements as grammar;
ghost use Rattle.f_unit_grammar.specs.Units as part;
ghost use Rattle.f_construct_parts.specs.Lines.{optional};
ghost use Rattle.f_unit_parts.specs.Units.{import_line, import_lines, implicit_lines, uses_of, specification_lines};
ghost use Rattle.f_specification.specs.Stages.{part_of, stage_lines};

use f_tree::{Import, Specification, Use};
use jf_base::{Boxed, List, Place};
use std::alloc::{AllocError, Global};

/// USE statements alone (ISO/IEC 1539-1:2018, 14.2.2).
#[derive(Drop)]
pub struct Uses {
    pub uses: List<Use>,
}

/// USE statements and IMPORT behind them (ISO/IEC 1539-1:2018, 8.8).
#[derive(Drop)]
pub struct Imported {
    pub uses: List<Use>,
    pub import: Import,
}

/// A specification part as far as it has been read (ISO/IEC 1539-1:2018, R504): which statements may still stand in it follows from the variant.
#[derive(Drop)]
pub enum Stage {
    /// Every statement of a specification part may come.
    Beginning(Boxed<Uses>),
    /// IMPLICIT NONE and declarations may come.
    BehindImport(Boxed<Imported>),
    /// Declarations alone may come.
    BehindImplicit(Boxed<Specification>),
}

/// A specification part without statements. Fails only where memory is short.
#[tactic(auto, unfolding(crate::specs::Stages::stage_lines))]
pub fn begin(alloc: Global) -> Result<Stage, AllocError>
    ensures part { IfOk result (λ s. part_of s ≡ part.Beginning) }
    ensures lines { IfOk result (λ s. (rest : ListOf grammar.Statement) → stage_lines s rest ≡ rest) }
{
    let uses = List::from_vec(Vec::new(alloc));
    Ok(Stage::Beginning(Boxed::new(alloc, Uses { uses })?))
}

/// The specification part that has been read so far, however far it has come.
#[tactic(auto, unfolding(crate::specs::Stages::stage_lines))]
pub fn specification(alloc: Global, stage: Stage) -> Specification
    ensures { (rest : ListOf grammar.Statement) → specification_lines result rest ≡ stage_lines stage rest }
{
    match stage {
        Stage::Beginning(uses) => behind_uses(alloc, uses.into_inner(), None),
        Stage::BehindImport(imported) => behind_imported(alloc, imported.into_inner(), None),
        Stage::BehindImplicit(specification) => specification.into_inner(),
    }
}

/// The specification part of USE statements and, where they are there, IMPORT and IMPLICIT NONE.
pub fn made(
    alloc: Global,
    uses: List<Use>,
    import: Option<Import>,
    implicit_none: Option<Place>,
) -> Specification
    ensures { (rest : ListOf grammar.Statement) → specification_lines result rest ≡ uses_of uses (optional (option_map import_lines import) (optional (option_map implicit_lines implicit_none) rest)) }
{
    Specification {
        uses,
        import,
        implicit_none,
        declarations: List::from_vec(Vec::new(alloc)),
    }
}

/// The specification part of USE statements and, where it is there, IMPLICIT NONE.
pub fn behind_uses(alloc: Global, uses: Uses, implicit_none: Option<Place>) -> Specification
    ensures { (rest : ListOf grammar.Statement) → specification_lines result rest ≡ uses_of uses.uses (optional (option_map implicit_lines implicit_none) rest) }
{
    made(alloc, uses.uses, None, implicit_none)
}

/// The specification part of USE statements, IMPORT and, where it is there, IMPLICIT NONE.
pub fn behind_imported(
    alloc: Global,
    imported: Imported,
    implicit_none: Option<Place>,
) -> Specification
    ensures { (rest : ListOf grammar.Statement) → specification_lines result rest ≡ uses_of imported.uses (import_line imported.import ∷ optional (option_map implicit_lines implicit_none) rest) }
{
    made(alloc, imported.uses, Some(imported.import), implicit_none)
}

/// A part in which declarations alone may come. Fails only where memory is short.
#[tactic(auto, unfolding(crate::specs::Stages::stage_lines))]
pub fn behind_implicit(alloc: Global, specification: Specification) -> Result<Stage, AllocError>
    ensures part { IfOk result (λ s. part_of s ≡ part.BehindImplicit) }
    ensures lines { IfOk result (λ s. (rest : ListOf grammar.Statement) → stage_lines s rest ≡ specification_lines specification rest) }
{
    Ok(Stage::BehindImplicit(Boxed::new(alloc, specification)?))
}
