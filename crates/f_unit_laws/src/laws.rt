//! Laws of the trees of a file's units.

ghost use Rattle.std.specs.Prelude.{◌≡◌, List, []};
ghost use Rattle.f_tree.specs.declared.unit.Unit.{Unit as ProgramUnit};
ghost use Rattle.f_unit_grammar.specs.Units.{IsFile, spell_trees};
ghost use Rattle.f_unit_parts.specs.Units.{units_of};
ghost use Rattle.f_unit_laws.specs.Shapes.{bare_units};
ghost use Rattle.f_unit_laws.specs.Derivations.{derivation};

/// The statements of units are those of the trees that the units say, and where they are a file, its trees are these.
pub fn units_are_derivations()
    ensures { (units : List ProgramUnit) → (spell_trees (derivation units) [] ≡ units_of units []) × ((file : IsFile (units_of units [])) → file.trees ≡ derivation units) }
{}

/// The statements of a file are those of no other units, but for places and counts of tokens.
pub fn one_tree()
    ensures { (a b : List ProgramUnit) → IsFile (units_of a []) → units_of a [] ≡ units_of b [] → bare_units a ≡ bare_units b }
{}
