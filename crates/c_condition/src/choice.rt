//! Conditional expressions that stand in a row.

ghost use Rattle.std.specs.Prelude.{◌≡◌};
ghost use Rattle.c_condition.specs.Choices.{no_choice, chosen_after, choice_after, settled};

use crate::outcome::Outcome;

/// What conditional expressions that stand in a row have come to: what is taken, if that is known, and whether the type is unsigned.
#[derive(Clone, Copy, PartialEq, Eq, Debug)]
pub struct Choice {
    pub taken: Option<Outcome>,
    pub is_unsigned: bool,
}

// What is taken behind one more condition.
fn chosen_after(taken: Option<Outcome>, truth: Option<bool>, second: Outcome) -> Option<Outcome>
    ensures { result ≡ chosen_after taken truth second }
{
    match taken {
        Some(outcome) => Some(outcome),
        None => match truth {
            None => Some(Outcome::Without { is_unsigned: false }),
            Some(true) => Some(second),
            Some(false) => None,
        },
    }
}

impl Choice {
    /// Nothing is chosen.
    pub fn new() -> Choice
        ensures { result ≡ no_choice }
    {
        Choice {
            taken: None,
            is_unsigned: false,
        }
    }

    /// The choice behind one more condition and its second operand.
    pub fn after(self, first: Outcome, second: Outcome) -> Choice
        ensures { result ≡ choice_after self first second }
    {
        Choice {
            taken: chosen_after(self.taken, first.truth(), second),
            is_unsigned: self.is_unsigned || second.is_unsigned(),
        }
    }

    /// The outcome, with the last operand.
    pub fn settled(self, last: Outcome) -> Outcome
        ensures { result ≡ settled self last }
    {
        let is_unsigned = self.is_unsigned || last.is_unsigned();
        match self.taken {
            None => last.with_type(is_unsigned),
            Some(outcome) => outcome.with_type(is_unsigned),
        }
    }
}
