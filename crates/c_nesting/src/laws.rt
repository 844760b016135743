//! Laws of the limit on nesting.

ghost use Rattle.std.specs.Prelude.{◌≡◌, ◌+◌, ℕ, List, Err};
ghost use Rattle.c_grammar.specs.declared.fault.Kind.TheVariants.{Form};
ghost use Rattle.c_grammar.specs.declared.token.Token.{Token};
ghost use Rattle.c_grammar.specs.Grammar.{Scope};
ghost use Rattle.c_unit_grammar.specs.Statements.{Ext, spell_ext, FitsExt};
ghost use Rattle.c_unit_grammar.specs.Reading.{ext_at};
ghost use Rattle.c_nesting.specs.Agreeing.{Agrees};

/// With more nestings an external declaration is read as with fewer, and so is a fault of its form, unless a nesting too many stopped the reading.
pub fn more_nestings_read_the_same()
    ensures { (k n : ℕ) (s : Scope) (ts : List Token) → Agrees (ext_at n s ts) (ext_at (k + n) s ts) }
{}

/// Where the reading finds a fault of the form, no external declaration begins, however many nestings there may be.
pub fn what_has_no_form_is_none()
    ensures { (n m left : ℕ) (s : Scope) (ts : List Token) → ext_at n s ts ≡ Err (record { kind = Form; left = left }) → (x : Ext) (others : List Token) → FitsExt m s x → ts ≡ spell_ext x others → ⊥ }
{}
