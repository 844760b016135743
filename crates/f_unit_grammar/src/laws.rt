//! Laws of files.

ghost use Rattle.std.specs.Prelude.{◌≡◌, List, ◌∷◌, ◌++◌, Ok, Err};
ghost use Rattle.f_lex.specs.declared.token.Token.{Token};
ghost use Rattle.f_statement_grammar.specs.Statements.{Statement};
ghost use Rattle.f_unit_grammar.specs.Units.{IsFile};
ghost use Rattle.f_unit_grammar.specs.Placing.{Open, Broken, step, run, at_file, Begins};
ghost use Rattle.f_unit_grammar.specs.Rules.{Rule, Cut, IsText, cuts, read_cuts, FirstBroken};

/// Each statement of a file has its place, and at the end of the file nothing is open.
pub fn a_file_is_placed()
    ensures { (ss : List Statement) → IsFile ss → run at_file ss ≡ Ok at_file }
{}

/// Statements that have their places, with nothing open at their end, are a file.
pub fn what_is_placed_is_a_file()
    ensures { (ss : List Statement) → run at_file ss ≡ Ok at_file → IsFile ss }
{}

/// Where a statement has no place behind others, or nests too deep there, no file begins so, whatever follows.
pub fn what_has_no_place_begins_no_file()
    ensures { (before : List Statement) (s : Statement) (o : Open) (b : Broken) → run at_file before ≡ Ok o → step o s ≡ Err b → (more : List Statement) → IsFile (before ++ s ∷ more) → ⊥ }
{}

/// The statements of a file are those of no other trees.
pub fn one_file()
    ensures { (ss : List Statement) (a b : IsFile ss) → a.trees ≡ b.trees }
{}

/// Statements that have their places begin a file. So the first statement that has none behind others is where a file is broken first.
pub fn what_is_placed_begins_a_file()
    ensures { (before : List Statement) (o : Open) → run at_file before ≡ Ok o → Begins before }
{}

/// The tokens of a file break no rule of statements, and at their end nothing is open.
pub fn a_text_is_read()
    ensures { (ts : List Token) → IsText ts → read_cuts at_file (cuts ts) ≡ Ok at_file }
{}

/// Tokens that break no rule of statements, with nothing open at their end, are those of a file.
pub fn what_is_read_is_a_text()
    ensures { (ts : List Token) → read_cuts at_file (cuts ts) ≡ Ok at_file → IsText ts }
{}

/// The rule that reading stops at is the first that is broken: the statements before begin a file, and none that goes on so is one.
pub fn the_first_broken_rule()
    ensures { (ts : List Token) (r : Rule) (left : List Cut) → read_cuts at_file (cuts ts) ≡ Err (r, left) → FirstBroken (cuts ts) r left }
{}
