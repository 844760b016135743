//! The law of the form's C texts.

ghost use Rattle.std.specs.Prelude.{◌≡◌, ℕ, List, Ok};
ghost use Rattle.c_token.specs.declared.token.CSpanned.{CSpanned};
ghost use Rattle.c_pre.specs.Files.{expanded_at};
ghost use Rattle.first_form.specs.declared.program.PutcharArgument.{PutcharArgument};
ghost use Rattle.first_form.specs.Words.{IsLabel};
ghost use Rattle.first_form.specs.Forms.{IsCText};
ghost use Rattle.first_c_files.specs.Units.{IsUnit};

/// The tokens of a C text of the first form behind its preprocessing, where that breaks no rule, are a file of C's grammar (ISO/IEC 9899:2011, 6.9),
/// however many files the library gives.
pub fn texts_of_the_form_are_files()
    ensures { (files : List (List ℕ × List ℕ)) (file before given : ℕ) (text name label : List ℕ) (puts : List PutcharArgument) (tokens : List CSpanned) →
        IsLabel name label → IsCText text label puts → expanded_at files file before text given ≡ Ok tokens → IsUnit tokens }
{}
