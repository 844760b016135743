//! Laws of the grammar.

ghost use Rattle.std.specs.Prelude.{◌≡◌, ℕ, List, Some};
ghost use Rattle.f_lex.specs.declared.token.Token.{Token};
ghost use Rattle.f_grammar.specs.Reading.{IfSome};
ghost use Rattle.f_line_grammar.specs.Lines.{Line, spell_line, FitsLine};
ghost use Rattle.f_line_grammar.specs.LineReading.{line_at};

/// A statement that is read is spelled by all the tokens, and fits.
pub fn line_that_is_read_fits()
    ensures { (n : ℕ) (ts : List Token) → IfSome (line_at n ts) (λ l. (ts ≡ spell_line l) × FitsLine n l) }
{}

/// A statement that fits is read from its tokens, though no keyword is reserved.
pub fn line_that_fits_is_read()
    ensures { (n : ℕ) (l : Line) → FitsLine n l → line_at n (spell_line l) ≡ Some l }
{}

/// The tokens of a statement are those of no other.
pub fn one_line()
    ensures { (n : ℕ) (a b : Line) → FitsLine n a → FitsLine n b → spell_line a ≡ spell_line b → a ≡ b }
{}
