//! Conditionals that are open.

ghost use Rattle.std.specs.Prelude.{◌≡◌, reverse};
ghost use Rattle.c_directives.specs.Reads.{Says};
ghost use Rattle.c_directives.specs.Reading.{is_taken, is_live, is_outer_live, arm_if, elif_of, else_of, else_at, endif_at, first_place};

use crate::stop::{Stop, breaks};
use c_lines::Rule;
use jf_base::Place;

/// Where a conditional stands.
#[derive(Clone, Copy, Debug, PartialEq, Eq)]
pub enum Arm {
    /// In the group that is taken.
    Now,
    /// Before the group that is taken.
    Later,
    /// Behind it, or in a group that is skipped.
    Past,
    /// In the last group, which is taken.
    LastNow,
    /// In the last group, which isn't.
    LastPast,
}

/// A conditional, and the place of its `#if`.
#[derive(Clone, Copy, Debug)]
pub struct Open {
    pub place: Place,
    pub arm: Arm,
}

fn is_taken(arm: Arm) -> bool
    ensures { result ≡ is_taken arm }
{
    match arm {
        Arm::Now | Arm::LastNow => true,
        _ => false,
    }
}

/// Lines are acted on here.
pub fn is_live(opens: &[Open]) -> bool
    ensures { result ≡ is_live (reverse opens.now) }
{
    match opens.last() {
        None => true,
        Some(open) => is_taken(open.arm),
    }
}

/// The innermost section doesn't lie in a group that is skipped.
pub fn is_outer_live(opens: &[Open]) -> bool
    ensures { result ≡ is_outer_live (reverse opens.now) }
{
    match opens.split_last() {
        None => true,
        Some((_, outer)) => is_live(outer),
    }
}

/// The arm behind an expression that was asked.
pub fn arm_if(holds: bool) -> Arm
    ensures { result ≡ arm_if holds }
{
    if holds { Arm::Now } else { Arm::Later }
}

/// Whether the expression of an `#elif` is asked; none where no `#elif` may stand.
pub fn elif_of(arm: Arm) -> Option<bool>
    ensures { result ≡ elif_of arm }
{
    match arm {
        Arm::Now | Arm::Past => Some(false),
        Arm::Later => Some(true),
        Arm::LastNow | Arm::LastPast => None,
    }
}

fn else_of(arm: Arm) -> Option<Arm>
    ensures { result ≡ else_of arm }
{
    match arm {
        Arm::Now | Arm::Past => Some(Arm::LastPast),
        Arm::Later => Some(Arm::LastNow),
        Arm::LastNow | Arm::LastPast => None,
    }
}

/// An `#else`.
pub fn turn(opens: &mut Vec<Open>, place: Place) -> Result<(), Stop>
    ensures { Says result (λ _. reverse opens.new.items) (else_at (reverse opens.old.items) place) }
{
    match opens.pop() {
        None => Err(breaks(Rule::Balance, place)),
        Some(open) => match else_of(open.arm) {
            None => Err(breaks(Rule::Balance, place)),
            Some(arm) => {
                opens.push(Open {
                    place: open.place,
                    arm,
                })?;
                Ok(())
            }
        },
    }
}

/// An `#endif`.
pub fn end(opens: &mut Vec<Open>, place: Place) -> Result<(), Stop>
    ensures { Says result (λ _. reverse opens.new.items) (endif_at (reverse opens.old.items) place) }
{
    match opens.pop() {
        None => Err(breaks(Rule::Balance, place)),
        Some(_) => Ok(()),
    }
}

/// The place of the first conditional that is open.
pub fn first_open(opens: &[Open]) -> Option<Place>
    ensures { result ≡ first_place (reverse opens.now) }
{
    match opens.first() {
        None => None,
        Some(open) => Some(open.place),
    }
}
