//! Laws of the relation between texts and tokens.

ghost use Rattle.std.specs.Prelude.{◌≡◌, ℕ, List, length, ◌⊎◌};
ghost use Rattle.f_lex.specs.declared.token.Spanned.{Spanned};
ghost use Rattle.f_lex.specs.declared.reader.Fault.{Fault};
ghost use Rattle.f_lex.specs.Grammar.{Shape};
ghost use Rattle.f_lex.specs.Source.{cuts};
ghost use Rattle.f_lex.specs.Lexing.{Consists, cuts_of, Lexes, Breaks};

/// Each text consists of pieces.
pub fn each_text_consists_of_pieces()
    ensures { (bytes : List ℕ) → (shapes : List Shape) × Consists bytes shapes }
{}

/// However a text is said to consist of pieces, they are those that are read from left to right, with the same bytes and meanings.
pub fn pieces_are_those_read()
    ensures { (bytes : List ℕ) (shapes : List Shape) → Consists bytes shapes → cuts (length bytes) bytes ≡ cuts_of shapes }
{}

/// A text has at most one list of tokens.
pub fn one_list_of_tokens()
    ensures { (file before : ℕ) (bytes : List ℕ) (tokens others : List Spanned) → Lexes file before bytes tokens → Lexes file before bytes others → tokens ≡ others }
{}

/// A text without a list of tokens breaks a rule.
pub fn tokens_or_a_broken_rule()
    ensures { (file before : ℕ) (bytes : List ℕ) → ((tokens : List Spanned) × Lexes file before bytes tokens) ⊎ ((fault : Fault) × Breaks before bytes fault) }
{}

/// A text with a list of tokens breaks no rule.
pub fn no_broken_rule_beside_tokens()
    ensures { (file before : ℕ) (bytes : List ℕ) (tokens : List Spanned) (fault : Fault) → Lexes file before bytes tokens → Breaks before bytes fault → ⊥ }
{}

/// A text has at most one first broken rule.
pub fn one_first_broken_rule()
    ensures { (before : ℕ) (bytes : List ℕ) (fault other : Fault) → Breaks before bytes fault → Breaks before bytes other → fault ≡ other }
{}
