//! Laws of the definitions.

ghost use Rattle.std.specs.Prelude.{◌≡◌, ℕ, List, Some, true, MatchOption, slice_get};
ghost use Rattle.c_token.specs.declared.token.CSpanned.{CSpanned};
ghost use Rattle.c_grammar.specs.declared.token.Token.TheVariants as word;
ghost use Rattle.c_literal.specs.declared.integer.IntegerConstant.{IntegerConstant};
ghost use Rattle.c_literal.specs.Integers.{IsConstant, IsNoConstant, type_of};
ghost use Rattle.c_literal.specs.IntegerReading.{constant_at};
ghost use Rattle.c_literal.specs.Literals.{IsCharacter, IsNoCharacter};
ghost use Rattle.c_literal.specs.LiteralReading.{element_at};
ghost use Rattle.c_words.specs.Pieces.{Piece, pieces, ArePieces};
ghost use Rattle.c_words.specs.Words.{number_word, byte_word, strings_at, AreStrings, AreNoStrings, index_of};
ghost use Rattle.c_words.specs.Numbering.{names_in, names_of};
ghost use Rattle.c_words.specs.Making.{is_among};

/// A text has exactly one list of pieces.
pub fn a_text_has_one_list_of_pieces()
    ensures there { (ts : List CSpanned) → ArePieces ts (pieces ts) }
    ensures only { (ts : List CSpanned) (ps : List Piece) → ArePieces ts ps → ps ≡ pieces ts }
{}

/// An integer constant is a word with its value and its type, and what is none is a word that stands in no production.
pub fn integer_constants_have_values_and_types()
    ensures constant { (spelling : List ℕ) (c : IntegerConstant) → IsConstant spelling c → number_word (constant_at spelling) ≡ word.Number c.value (type_of c) }
    ensures none { (spelling : List ℕ) → IsNoConstant spelling → number_word (constant_at spelling) ≡ word.Unused }
{}

/// A character constant is a word with the byte that it stands for, and what is none is a word that stands in no production.
pub fn character_constants_have_values()
    ensures constant { (content : List ℕ) (byte : ℕ) → IsCharacter content byte → byte_word (element_at 39 content) ≡ word.Byte byte }
    ensures none { (content : List ℕ) → IsNoCharacter content → byte_word (element_at 39 content) ≡ word.Unused }
{}

/// String literals that stand side by side have the bytes that each of them stands for, one behind the other.
pub fn string_literals_are_joined()
    ensures { (contents : List (List ℕ)) → MatchOption (strings_at contents) (AreNoStrings contents) (AreStrings contents) }
{}

/// The number of a name is the index of its spelling, so that names with the same number are the same.
pub fn names_are_found_by_their_numbers()
    ensures { (ps : List Piece) (name : List ℕ) → is_among (names_in ps) name ≡ true → slice_get (names_of ps) (index_of (names_of ps) name) ≡ Some name }
{}
