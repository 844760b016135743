//! Laws of the grammar.

ghost use Rattle.std.specs.Prelude.{◌≡◌, ℕ, List, IfOk, Ok};
ghost use Rattle.c_grammar.specs.declared.token.Allowed.{Allowed};
ghost use Rattle.c_grammar.specs.declared.token.Token.{Token};
ghost use Rattle.c_grammar.specs.Grammar.{Scope, Expr, spell, Fits, Stops, Typed, spell_typed, FitsTyped, Ends, NoBraces};
ghost use Rattle.c_grammar.specs.Reading.{level_at, typed_at, inner};

/// An expression that is read is spelled by the tokens before the rest, and fits.
pub fn what_is_read_fits()
    ensures { (n h : ℕ) (s : Scope) (ts : List Token) → IfOk (level_at (inner n) h s ts) (λ x. (ts ≡ spell x.0 x.1) × Fits n h s x.0) }
{}

/// What fits and is spelled before a rest that doesn't go on with it is read.
pub fn what_fits_is_read()
    ensures { (n h : ℕ) (s : Scope) (e : Expr) (rest : List Token) → Fits n h s e → Stops h rest → level_at (inner n) h s (spell e rest) ≡ Ok (e, rest) }
{}

/// The tokens of an expression are those of no other, whatever follows them that goes on with neither.
pub fn one_tree()
    ensures { (n h : ℕ) (s : Scope) (e f : Expr) (rest others : List Token) → Fits n h s e → Fits n h s f → Stops h rest → Stops h others → spell e rest ≡ spell f others → (e ≡ f) × (rest ≡ others) }
{}

/// Specifiers and a declarator that are read are spelled by the tokens before the rest, and fit.
pub fn what_is_read_declares()
    ensures { (n : ℕ) (a : Allowed) (s : Scope) (ts : List Token) → IfOk (typed_at (inner n) a s ts) (λ x. (ts ≡ spell_typed x.0 x.1) × FitsTyped n a s x.0) }
{}

/// Specifiers and a declarator that fit, and are spelled before a rest that doesn't go on with them, are read.
pub fn what_declares_is_read()
    ensures { (n : ℕ) (a : Allowed) (s : Scope) (t : Typed) (rest : List Token) → FitsTyped n a s t → Ends rest → NoBraces rest → typed_at (inner n) a s (spell_typed t rest) ≡ Ok (t, rest) }
{}

/// The tokens of specifiers and a declarator are those of no others, whatever follows them that goes on with neither.
pub fn one_declaring_tree()
    ensures { (n : ℕ) (a : Allowed) (s : Scope) (t u : Typed) (rest others : List Token) → FitsTyped n a s t → FitsTyped n a s u → Ends rest → NoBraces rest → Ends others → NoBraces others → spell_typed t rest ≡ spell_typed u others → (t ≡ u) × (rest ≡ others) }
{}
