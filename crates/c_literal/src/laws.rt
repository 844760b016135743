//! Laws of the definitions.

ghost use Rattle.std.specs.Prelude.{◌≡◌, ℕ, List};
ghost use Rattle.c_literal.specs.declared.integer.IntegerConstant.{IntegerConstant};
ghost use Rattle.c_literal.specs.Integers.{IsConstant};
ghost use Rattle.c_literal.specs.Literals.{IsCharacter, IsString};

/// A spelling is that of one integer constant at most.
pub fn one_constant()
    ensures { (spelling : List ℕ) (c d : IntegerConstant) → IsConstant spelling c → IsConstant spelling d → c ≡ d }
{}

/// What stands between the quotes of a character constant stands for one byte at most.
pub fn one_character()
    ensures { (content : List ℕ) (b c : ℕ) → IsCharacter content b → IsCharacter content c → b ≡ c }
{}

/// What stands between the quotes of a string literal stands for one list of bytes at most.
pub fn one_string()
    ensures { (content : List ℕ) (bs cs : List ℕ) → IsString content bs → IsString content cs → bs ≡ cs }
{}
