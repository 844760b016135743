//! Laws of the grammar.

ghost use Rattle.std.specs.Prelude.{◌≡◌, ℕ, List, Some};
ghost use Rattle.f_lex.specs.declared.token.Token.{Token};
ghost use Rattle.f_grammar.specs.Grammar.{Expr, Refer, TypeOf, spell, spell_refer, spell_type, FitsRefer, FitsType, Within, Stops, EndsType};
ghost use Rattle.f_grammar.specs.Reading.{IfSome, expr_at, refer_at, type_at};
ghost use Rattle.f_grammar.specs.Actions.{Act, spell_act, FitsAct};
ghost use Rattle.f_grammar.specs.ActionReading.{act_at};

/// An expression that is read is spelled by the tokens before the rest, and fits.
pub fn what_is_read_fits()
    ensures { (n : ℕ) (ts : List Token) → IfSome (expr_at n ts) (λ x. (ts ≡ spell x.0 x.1) × Within n x.0) }
{}

/// An expression that fits and is spelled before a rest that doesn't go on with it is read.
pub fn what_fits_is_read()
    ensures { (n : ℕ) (e : Expr) (rest : List Token) → Within n e → Stops 9 rest → expr_at n (spell e rest) ≡ Some (e, rest) }
{}

/// The tokens of an expression are those of no other, whatever follows them that goes on with neither.
pub fn one_tree()
    ensures { (n : ℕ) (e f : Expr) (rest others : List Token) → Within n e → Within n f → Stops 9 rest → Stops 9 others → spell e rest ≡ spell f others → (e ≡ f) × (rest ≡ others) }
{}

/// A reference that is read is spelled by the tokens before the rest, and fits.
pub fn reference_that_is_read_fits()
    ensures { (n : ℕ) (ts : List Token) → IfSome (refer_at (expr_at n) ts) (λ x. (ts ≡ spell_refer x.0 x.1) × FitsRefer n x.0) }
{}

/// A reference that fits and is spelled before a rest that doesn't go on with it is read.
pub fn reference_that_fits_is_read()
    ensures { (n : ℕ) (r : Refer) (rest : List Token) → FitsRefer n r → Stops 0 rest → refer_at (expr_at n) (spell_refer r rest) ≡ Some (r, rest) }
{}

/// A type that is read is spelled by the tokens before the rest, and fits.
pub fn type_that_is_read_fits()
    ensures { (n : ℕ) (ts : List Token) → IfSome (type_at (expr_at n) ts) (λ x. (ts ≡ spell_type x.0 x.1) × FitsType n x.0) }
{}

/// A type that fits and is spelled before a rest that doesn't go on with it is read.
pub fn type_that_fits_is_read()
    ensures { (n : ℕ) (t : TypeOf) (rest : List Token) → FitsType n t → EndsType rest → type_at (expr_at n) (spell_type t rest) ≡ Some (t, rest) }
{}

/// An action statement that is read is spelled by all the tokens, and fits.
pub fn action_that_is_read_fits()
    ensures { (n : ℕ) (ts : List Token) → IfSome (act_at n ts) (λ a. (ts ≡ spell_act a) × FitsAct n a) }
{}

/// An action statement that fits is read from its tokens, though no keyword is reserved.
pub fn action_that_fits_is_read()
    ensures { (n : ℕ) (a : Act) → FitsAct n a → act_at n (spell_act a) ≡ Some a }
{}

/// The tokens of an action statement are those of no other.
pub fn one_action()
    ensures { (n : ℕ) (a b : Act) → FitsAct n a → FitsAct n b → spell_act a ≡ spell_act b → a ≡ b }
{}
