//! Laws of reading a file.

ghost use Rattle.std.specs.Prelude.{◌≡◌, ℕ, List, [], Ok, Err, length};
ghost use Rattle.c_grammar.specs.declared.token.Token.{Token};
ghost use Rattle.c_grammar.specs.Grammar.{Scope};
ghost use Rattle.c_unit_grammar.specs.Statements.{Ext, spell_exts, FitsExts};
ghost use Rattle.c_unit_grammar.specs.Reading.{file_at};
ghost use Rattle.c_external_read.specs.declared.file.BrokenExternal.{BrokenExternal};
ghost use Rattle.c_external_read.specs.Files.{BreaksAt, externals_at, lengths, lefts};

/// External declarations that are read are spelled by the tokens, and fit.
pub fn what_is_read_is_file()
    ensures { (n : ℕ) (s : Scope) (ts : List Token) (xs : List Ext) → externals_at n (length ts) s ts ≡ Ok xs → (ts ≡ spell_exts xs []) × FitsExts n s xs }
{}

/// External declarations that fit are read from the tokens that spell them.
pub fn what_is_file_is_read()
    ensures { (n : ℕ) (s : Scope) (ts : List Token) (xs : List Ext) → FitsExts n s xs → ts ≡ spell_exts xs [] → externals_at n (length ts) s ts ≡ Ok xs }
{}

/// Where reading stops, an external declaration breaks a rule first. Where its form is broken, none begins there however many nestings there may be.
pub fn where_file_is_broken()
    ensures { (n : ℕ) (s : Scope) (ts : List Token) (b : BrokenExternal) → externals_at n (length ts) s ts ≡ Err b → BreaksAt n s ts b }
{}

/// What is read, and where reading stops, is what the grammar of files tells.
pub fn declarations_are_those_of_the_grammar()
    ensures { (n : ℕ) (s : Scope) (ts : List Token) → lefts (externals_at n (length ts) s ts) ≡ lengths (file_at n (length ts) s ts) }
{}
