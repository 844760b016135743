//! Laws of the grammar.

ghost use Rattle.std.specs.Prelude.{◌≡◌, ℕ, List, Some};
ghost use Rattle.f_lex.specs.declared.token.Token.{Token};
ghost use Rattle.f_grammar.specs.Reading.{IfSome};
ghost use Rattle.f_declaration_grammar.specs.Declarations.{Declared, spell_declared, FitsDeclared};
ghost use Rattle.f_declaration_grammar.specs.DeclarationReading.{declared_at};

/// A statement that is read is spelled by all the tokens, and fits.
pub fn declaration_that_is_read_fits()
    ensures { (n : ℕ) (ts : List Token) → IfSome (declared_at n ts) (λ d. (ts ≡ spell_declared d) × FitsDeclared n d) }
{}

/// A statement that fits is read from its tokens.
pub fn declaration_that_fits_is_read()
    ensures { (n : ℕ) (d : Declared) → FitsDeclared n d → declared_at n (spell_declared d) ≡ Some d }
{}

/// The tokens of a statement are those of no other.
pub fn one_declaration()
    ensures { (n : ℕ) (a b : Declared) → FitsDeclared n a → FitsDeclared n b → spell_declared a ≡ spell_declared b → a ≡ b }
{}
