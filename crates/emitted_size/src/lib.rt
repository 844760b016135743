//! How long the code of a program is. The function below is a law that its contract states.
#![tactic(auto)]

ghost use Rattle.emitted_size.specs.Bounds.{CodeIsLinear};

/// The image of a program's units has at most a number of bytes that is linear in the program, whatever homes its values have and wherever its parts came to lie.
pub fn code_is_linear()
    ensures { CodeIsLinear }
{}
