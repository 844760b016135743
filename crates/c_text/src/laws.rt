//! Laws of the relation between bytes and lexemes.

ghost use Rattle.std.specs.Prelude.{◌≡◌, ℕ, List, length};
ghost use Rattle.c_text.specs.declared.kind.Lexeme.{Lexeme};
ghost use Rattle.c_text.specs.Source.{cuts};
ghost use Rattle.c_text.specs.Marks.{punctuators, mark_length, IsLongest};
ghost use Rattle.c_text.specs.Grammar.{Text, Shape};
ghost use Rattle.c_text.specs.Lexing.{Consists, cuts_of, Lexes};
ghost use Rattle.c_text.specs.Lines.{LinesAreApart};

/// Each text consists of pieces.
pub fn each_text_consists_of_pieces()
    ensures { (text : Text) → (shapes : List Shape) × Consists text shapes }
{}

/// However a text is said to consist of pieces, they are those that are read from left to right, with the same characters and meanings.
pub fn pieces_are_those_read()
    ensures { (text : Text) (shapes : List Shape) → Consists text shapes → cuts (length text) text ≡ cuts_of shapes }
{}

/// Bytes have at most one list of lexemes.
pub fn one_list_of_lexemes()
    ensures { (bytes : List ℕ) (lexemes others : List Lexeme) → Lexes bytes lexemes → Lexes bytes others → lexemes ≡ others }
{}

/// A punctuator is the longest that a text begins with.
pub fn punctuators_are_longest()
    ensures { (text : Text) → IsLongest punctuators text (mark_length text) }
{}

/// A text may be read line by line: where no comment and no literal in front of a line's end lacks its own end, the lexemes up to the line's end are the same
/// whatever follows, and those of what follows stand behind them.
pub fn lines_are_apart()
    ensures { LinesAreApart }
{}
