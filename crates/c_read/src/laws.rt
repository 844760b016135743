//! Laws of reading a file.

ghost use Rattle.std.specs.Prelude.{◌≡◌, List, [], true, Ok, Err, IsErr};
ghost use Rattle.jf_base.specs.declared.place.Place.{Place};
ghost use Rattle.jf_base.specs.declared.tag.Tag.{Tag};
ghost use Rattle.c_token.specs.declared.token.CSpanned.{CSpanned};
ghost use Rattle.c_unit_grammar.specs.Statements.{Ext, spell_exts, FitsExts};
ghost use Rattle.c_word_laws.specs.Unused.{has_unused};
ghost use Rattle.c_external_read.specs.Files.{deepest};
ghost use Rattle.c_read.specs.Reading.{File, file_of, words_in, read_file};
ghost use Rattle.c_read.specs.BrokenAt.{BrokenAt, IsFileOf};

/// What is read is a file whose words are those of the tokens.
pub fn what_is_read_is_a_file()
    ensures { (tokens : List CSpanned) (file : File) → read_file tokens ≡ Ok file → IsFileOf tokens file }
{}

/// The tokens of a file are read as its external declarations.
pub fn a_file_is_read()
    ensures { (tokens : List CSpanned) (xs : List Ext) → FitsExts deepest [] xs → words_in tokens ≡ spell_exts xs [] → read_file tokens ≡ Ok (file_of tokens xs) }
{}

/// Where reading stops, the words behind the external declarations that were read begin no other one, by the rule and at the place that are told.
pub fn where_a_file_is_broken()
    ensures { (tokens : List CSpanned) (place : Place) (tag : Tag) → read_file tokens ≡ Err (place, tag) → BrokenAt tokens place tag }
{}

/// A text with a word that stands in no production is refused.
pub fn words_without_use_are_refused()
    ensures { (tokens : List CSpanned) → has_unused (words_in tokens) ≡ true → IsErr (read_file tokens) }
{}
