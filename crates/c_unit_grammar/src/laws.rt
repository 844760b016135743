//! Laws of the grammar.

ghost use Rattle.std.specs.Prelude.{◌≡◌, ℕ, List, length, IfOk, Ok};
ghost use Rattle.c_grammar.specs.declared.token.Token.{Token};
ghost use Rattle.c_grammar.specs.Grammar.{Scope};
ghost use Rattle.c_unit_grammar.specs.Statements.{Stmt, spell_stmt, WithinStmt, StopsElse, takes_else, Ext, spell_ext, FitsExt};
ghost use Rattle.c_unit_grammar.specs.Reading.{stmt_in, ext_at, file_at, Tells};

/// A statement that is read is spelled by the tokens before the rest, fits, and leaves no `else` that would be its own.
pub fn what_is_read_is_statement()
    ensures { (n : ℕ) (s : Scope) (ts : List Token) → IfOk (stmt_in n s ts) (λ x. (ts ≡ spell_stmt x.0 x.1) × WithinStmt n s x.0 × StopsElse (takes_else x.0) x.1) }
{}

/// An external declaration that is read is spelled by the tokens before the rest, and fits.
pub fn what_is_read_is_external()
    ensures { (n : ℕ) (s : Scope) (ts : List Token) → IfOk (ext_at n s ts) (λ x. (ts ≡ spell_ext x.0 x.1) × FitsExt n s x.0) }
{}

/// A statement that fits, and is spelled before a rest that begins with no `else` of its own, is read.
pub fn what_is_statement_is_read()
    ensures { (n : ℕ) (s : Scope) (x : Stmt) (rest : List Token) → WithinStmt n s x → StopsElse (takes_else x) rest → stmt_in n s (spell_stmt x rest) ≡ Ok (x, rest) }
{}

/// An external declaration that fits is read, whatever follows it.
pub fn what_is_external_is_read()
    ensures { (n : ℕ) (s : Scope) (x : Ext) (rest : List Token) → FitsExt n s x → ext_at n s (spell_ext x rest) ≡ Ok (x, rest) }
{}

/// The tokens of a statement are those of no other.
pub fn one_statement_tree()
    ensures { (n : ℕ) (s : Scope) (t u : Stmt) (rest others : List Token) → WithinStmt n s t → WithinStmt n s u → StopsElse (takes_else t) rest → StopsElse (takes_else u) others → spell_stmt t rest ≡ spell_stmt u others → (t ≡ u) × (rest ≡ others) }
{}

/// The tokens of an external declaration are those of no other, whatever follows them.
pub fn one_external_tree()
    ensures { (n : ℕ) (s : Scope) (t u : Ext) (rest others : List Token) → FitsExt n s t → FitsExt n s u → spell_ext t rest ≡ spell_ext u others → (t ≡ u) × (rest ≡ others) }
{}

/// A file is external declarations, or has a first place where none begins.
pub fn a_file_tells_its_first_fault()
    ensures { (n : ℕ) (s : Scope) (ts : List Token) → Tells n s ts (file_at n (length ts) s ts) }
{}
