//! Laws of files and their tokens.

ghost use Rattle.std.specs.Prelude.{◌≡◌, ℕ, List};
ghost use Rattle.jf_base.specs.declared.place.Place.{Place};
ghost use Rattle.jf_base.specs.declared.tag.Tag.{Tag};
ghost use Rattle.source_tokens.specs.Sources.{Files, Source, AreSources, IsBroken, Reaches};

/// Files have at most one list of tokens each, those in Fortran one list of statements, and those in C one list of external declarations.
pub fn one_list_of_sources()
    ensures { (files : Files) (file before : ℕ) (names : List (List ℕ)) (sources others : List Source) →
        AreSources files file before names sources → AreSources files file before names others → sources ≡ others }
{}

/// Files that have tokens, with their statements or external declarations, break no rule of source form, of statements, of the preprocessor or of C's
/// grammar.
pub fn no_broken_rule_beside_sources()
    ensures { (files : Files) (place : Place) (tag : Tag) (file before : ℕ) (names : List (List ℕ)) (sources : List Source) →
        AreSources files file before names sources → Reaches files (IsBroken files place tag) file before names → ⊥ }
{}
