//! Laws of printing and reading tokens.

ghost use Rattle.std.specs.Prelude.{◌≡◌, ◌⊎◌, ℕ, List, ◌++◌, map};
ghost use Rattle.f_lex.specs.declared.token.Token.{Token};
ghost use Rattle.f_lex.specs.declared.token.Spanned.{Spanned};
ghost use Rattle.f_lex.specs.declared.reader.Fault.{Fault};
ghost use Rattle.f_lex.specs.Lexing.{Lexes, Breaks};
ghost use Rattle.f_tree.specs.declared.lexeme.Lexeme.{Lexeme};
ghost use Rattle.f_tree.specs.Text.{text_of};
ghost use Rattle.f_print_laws.specs.Tokens.{AreTokens, AreStatements, IsOnLengths};

/// The text of tokens has these tokens, but for their places, or breaks a rule on lengths: a line, the file or a statement is too long (L01, L07, L08).
pub fn printed_tokens_are_lexed()
    ensures { (file before : ℕ) (ts : List Lexeme) → AreTokens (map (λ t. t.token) ts) → ((tokens : List Spanned) → Lexes file before (text_of ts) tokens → map (λ t. t.token) tokens ≡ map (λ t. t.token) ts)
        × ((fault : Fault) → Breaks before (text_of ts) fault → IsOnLengths fault.rule) }
{}

/// The tokens that a text has are tokens as a text can have them.
pub fn lexed_tokens_are_such()
    ensures { (file before : ℕ) (bytes : List ℕ) (tokens : List Spanned) → Lexes file before bytes tokens → AreTokens (map (λ t. t.token) tokens) }
{}

/// Statements of a text, printed by themselves and read again, have the same tokens but for places, or the printed text breaks a rule on lengths (L01, L07, L08).
pub fn printed_statements_are_read_again()
    ensures { (file before other earlier : ℕ) (bytes : List ℕ) (tokens : List Spanned) (front back : List Token) (ts : List Lexeme) → Lexes file before bytes tokens
        → map (λ t. t.token) tokens ≡ front ++ (map (λ t. t.token) ts ++ back) → AreStatements front → AreStatements (map (λ t. t.token) ts)
        → ((again : List Spanned) × Lexes other earlier (text_of ts) again × (map (λ t. t.token) again ≡ map (λ t. t.token) ts)) ⊎ ((fault : Fault) × Breaks earlier (text_of ts) fault × IsOnLengths fault.rule) }
{}
