//! The value of a controlling expression.

ghost use Rattle.std.specs.Prelude.{MatchOption};
ghost use Rattle.c_condition.specs.Grammar.{Controls, ControlsNothing};

use crate::number::Number;
use crate::reader::constant_at;
use crate::token::Token;

/// The value of the expression that the tokens are (ISO/IEC 9899:2011, 6.10.1 and 6.6). None where they are no conditional expression of at most 64
/// nestings, or where it has no value: where a division by zero, a signed result outside `intmax_t`, a shift by a count outside 0 to 63 or a comma is
/// evaluated.
pub fn condition_value(tokens: &[Token]) -> Option<Number>
    ensures { MatchOption result (ControlsNothing tokens.now) (Controls tokens.now) }
{
    match constant_at(tokens) {
        None => None,
        Some(outcome) => outcome.value(),
    }
}
