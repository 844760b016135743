//! Laws of reading a file.

ghost use Rattle.std.specs.Prelude.{◌≡◌, List, Ok, Err};
ghost use Rattle.jf_base.specs.declared.place.Place.{Place};
ghost use Rattle.jf_base.specs.declared.tag.Tag.{Tag};
ghost use Rattle.f_lex.specs.declared.token.Spanned.{Spanned};
ghost use Rattle.f_expr_read.specs.Views.{tokens_of};
ghost use Rattle.f_statement_grammar.specs.Statements.{Statement};
ghost use Rattle.f_unit_grammar.specs.Units.{IsFile};
ghost use Rattle.f_unit_grammar.specs.Rules.{cuts, HaveForms, IsText};
ghost use Rattle.f_file_read.specs.Reading.{read_file};
ghost use Rattle.f_file_read.specs.BrokenAt.{BrokenAt};

/// Statements that are read are those of the tokens, and a file.
pub fn what_is_read_is_a_file()
    ensures { (tokens : List Spanned) (ss : List Statement) → read_file tokens ≡ Ok ss → HaveForms (cuts (tokens_of tokens)) ss × IsFile ss }
{}

/// The tokens of a file are read as its statements.
pub fn statements_of_a_file_are_read()
    ensures { (tokens : List Spanned) (text : IsText (tokens_of tokens)) → read_file tokens ≡ Ok text.statements }
{}

/// Where reading stops, a statement breaks a rule first: those before it begin a file, and none goes on so. Or all statements begin a file, and the
/// unit that begins there isn't ended.
pub fn where_a_file_is_broken()
    ensures { (tokens : List Spanned) (place : Place) (tag : Tag) → read_file tokens ≡ Err (place, tag) → BrokenAt tokens place tag }
{}
