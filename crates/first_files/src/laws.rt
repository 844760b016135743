//! The law of the form's Fortran texts.

ghost use Rattle.std.specs.Prelude.{ℕ, List};
ghost use Rattle.f_lex.specs.declared.token.Spanned.{Spanned};
ghost use Rattle.f_lex.specs.Lexing.{Lexes};
ghost use Rattle.f_expr_read.specs.Views.{tokens_of};
ghost use Rattle.f_unit_grammar.specs.Rules.{IsText};
ghost use Rattle.first_form.specs.Forms.{IsFortranText};

/// A Fortran text of the first form that breaks no rule of source form is a file of Fortran's grammar: its statements break no rule either
/// (ISO/IEC 1539-1:2018, 5.1 to 5.3).
pub fn texts_of_the_form_are_files()
    ensures { (file before : ℕ) (text label calls : List ℕ) (ts : List Spanned) → IsFortranText text label calls → Lexes file before text ts → IsText (tokens_of ts) }
{}
