//! Laws of words without use.

ghost use Rattle.std.specs.Prelude.{◌≡◌, List, [], true};
ghost use Rattle.c_grammar.specs.declared.token.Token.{Token};
ghost use Rattle.c_unit_grammar.specs.Statements.{Ext, spell_ext, spell_exts};
ghost use Rattle.c_word_laws.specs.Unused.{has_unused};

/// The tokens of an external declaration have no word without use: where one is behind it, it is among what follows.
pub fn no_production_has_a_word_without_use()
    ensures { (x : Ext) (rest : List Token) → has_unused (spell_ext x rest) ≡ has_unused rest }
{}

/// Tokens with a word without use are no file.
pub fn a_file_has_no_word_without_use()
    ensures { (ts : List Token) (xs : List Ext) → has_unused ts ≡ true → ts ≡ spell_exts xs [] → ⊥ }
{}
