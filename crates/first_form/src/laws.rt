//! Laws of the form.

ghost use Rattle.std.specs.Prelude.{◌≡◌, ℕ, ◌≤◌, List as ListOf};
ghost use Rattle.first_form.specs.Lines.{written};
ghost use Rattle.first_form.specs.Words.{IsName, IsLabel};
ghost use Rattle.first_form.specs.Forms.{fortran_lines, c_lines, c_one_line, AreCalls, ArePuts, IsFortranText, IsCText};
ghost use Rattle.first_form.specs.Readings.{AreTexts, IsReading, IsFirstProgram, token_count};
ghost use Rattle.first_form.specs.declared.program.PutcharArgument.{PutcharArgument};
ghost use Rattle.first_form.specs.declared.program.FirstProgram.{FirstProgram};
ghost use Rattle.first_form.specs.declared.pair.Reading.{Reading};

/// A Fortran text has one label and one list of numbers.
pub fn fortran_text_is_read_in_one_way()
    ensures { (bytes label calls other_label other_calls : ListOf ℕ)
        → IsFortranText bytes label calls → IsFortranText bytes other_label other_calls → (label ≡ other_label) × (calls ≡ other_calls) }
{}

/// A C text has one label, and one list of arguments.
pub fn c_text_is_read_in_one_way()
    ensures { (bytes label other_label : ListOf ℕ) (puts other_puts : ListOf PutcharArgument)
        → IsName label → IsName other_label → IsCText bytes label puts → IsCText bytes other_label other_puts → (label ≡ other_label) × (puts ≡ other_puts) }
{}

/// Two texts have one reading.
pub fn pair_is_read_in_one_way()
    ensures { (fortran c : ListOf ℕ) (reading other : Reading) → IsReading fortran c reading → IsReading fortran c other → reading ≡ other }
{}

/// A program that is read has 1 to 100 calls and 1 to 100 statements, and each number is that of an `int`.
pub fn texts_are_of_a_program()
    ensures { (fortran c : ListOf ℕ) (program : FirstProgram) → AreTexts fortran c program → IsFirstProgram program }
{}

/// The two texts of a program have at most 1,149 tokens.
pub fn texts_have_few_tokens()
    ensures { (fortran c : ListOf ℕ) (program : FirstProgram) → AreTexts fortran c program → token_count program ≤ 1149 }
{}

/// Each program has texts that are read as it, with the C function written in either way.
pub fn each_program_has_texts()
    ensures { (name label calls : ListOf ℕ) (puts : ListOf PutcharArgument) → IsName name → IsLabel name label → AreCalls calls → ArePuts puts
        → IsFortranText (written (fortran_lines name label calls)) label calls × IsCText (written (c_lines label puts)) label puts × IsCText (written (c_one_line label puts)) label puts }
{}
