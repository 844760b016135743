//! Laws of the grammar.

ghost use Rattle.std.specs.Prelude.{◌≡◌, ℕ, List, Some};
ghost use Rattle.f_lex.specs.declared.token.Token.{Token};
ghost use Rattle.f_grammar.specs.Reading.{IfSome};
ghost use Rattle.f_statement_grammar.specs.Statements.{Statement, spell_statement, FitsStatement, statement_at};

/// A statement that is read is spelled by all the tokens, and fits.
pub fn statement_that_is_read_fits()
    ensures { (n : ℕ) (ts : List Token) → IfSome (statement_at n ts) (λ s. (ts ≡ spell_statement s) × FitsStatement n s) }
{}

/// A statement that fits is read from its tokens, though no keyword is reserved: no declaration is taken for an assignment or a construct.
pub fn statement_that_fits_is_read()
    ensures { (n : ℕ) (s : Statement) → FitsStatement n s → statement_at n (spell_statement s) ≡ Some s }
{}

/// The tokens of a statement are those of no other.
pub fn one_statement()
    ensures { (n : ℕ) (a b : Statement) → FitsStatement n a → FitsStatement n b → spell_statement a ≡ spell_statement b → a ≡ b }
{}
