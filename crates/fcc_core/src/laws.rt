//! The law of files of the first form.

ghost use Rattle.std.specs.Prelude.{◌≡◌, ℕ, List, [], ◌∷◌, length, Some, None};
ghost use Rattle.jf_outside.specs.Listing.{listed};
ghost use Rattle.f_lex.specs.declared.token.Spanned.{Spanned};
ghost use Rattle.f_lex.specs.Lexing.{Lexes};
ghost use Rattle.c_token.specs.declared.token.CSpanned.{CSpanned};
ghost use Rattle.source_tokens.specs.Sources.{Files, Expands};
ghost use Rattle.first_form.specs.declared.program.FirstProgram.{FirstProgram};
ghost use Rattle.first_form.specs.Readings.{AreTexts};
ghost use Rattle.fcc_core.specs.Sources.{misplaced, IsProgram};

/// A Fortran file and a C file of the first form that break no rule of source form and of the preprocessor are a program: the Fortran text breaks no
/// rule of statements either, and the C text none of its grammar.
pub fn files_of_the_form_are_a_program()
    ensures { (files : Files) (name other fortran c : List ℕ) (ts : List Spanned) (us : List CSpanned) (program : FirstProgram) →
        misplaced (name ∷ other ∷ []) ≡ None → listed files name ≡ Some fortran → Lexes 0 0 fortran ts → listed files other ≡ Some c → Expands files 1 (length ts) c us →
        AreTexts fortran c program → IsProgram files (name ∷ other ∷ []) program }
{}
