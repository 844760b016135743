//! Conditionals, and what is to be done with a line.

ghost use Rattle.std.specs.Prelude.{◌≡◌, ℕ, ◌≤◌, Some, length, reverse, OnOk, Result};
ghost use Rattle.c_define.specs.Numbers.{macros_of};
ghost use Rattle.c_directives.specs.Reads.{Says, End};
ghost use Rattle.c_directives.specs.Directives.{one_name};
ghost use Rattle.c_directives.specs.Conditions.{Name, controls_at};
ghost use Rattle.c_directives.specs.Reading.{State, Including, is_live, if_at, elif_at, else_at, endif_at, no_tail, name_holds, is_conditional, turn_at};
ghost use Rattle.c_directives.specs.Sorting.{work_of, text_line, Sorts, SortsDirective};
ghost use Rattle.jf_base.specs.declared.place.Place.{Place};

use crate::condition::controls;
use crate::definition::one_name;
use crate::opens::{Arm, Open, arm_if, elif_of, end, is_live, is_outer_live, turn};
use crate::origin::{Origin, hash_place, place_of};
use crate::stop::{Stop, breaks};
use crate::work::{Pre, text};
use c_define::Definitions;
use c_lines::{Head, Rule, first_ill, head_at};
use c_text::Lexeme;
use jf_base::Place;
use std::alloc::Global;

fn if_line(
    alloc: Global,
    macros: &mut Definitions,
    opens: &mut Vec<Open>,
    place: Place,
    tail: &[Lexeme],
) -> Result<(), Stop>
    ensures same { OnOk result (macros.new ≡ macros.old) }
    ensures says { Says result (λ _. reverse opens.new.items) (if_at (reverse opens.old.items) place (controls_at (macros_of macros.old) place tail.now)) }
{
    if !is_live(opens) {
        opens.push(Open {
            place,
            arm: Arm::Past,
        })?;
        return Ok(());
    }
    match controls(alloc, macros, place, tail) {
        Err(stop) => Err(stop),
        Ok(holds) => {
            let arm = arm_if(holds);
            opens.push(Open { place, arm })?;
            Ok(())
        }
    }
}

fn name_holds(
    macros: &Definitions,
    wanted: bool,
    place: Place,
    tail: &[Lexeme],
) -> Result<bool, Stop>
    ensures { Says result (λ b. b) (name_holds (macros_of macros.now) wanted place (one_name tail.now)) }
{
    match one_name(tail) {
        None => Err(breaks(Rule::Form, place)),
        Some(name) => {
            let is_macro = macros.is_macro(name);
            if wanted { Ok(is_macro) } else { Ok(!is_macro) }
        }
    }
}

fn ifdef_line(
    macros: &Definitions,
    opens: &mut Vec<Open>,
    wanted: bool,
    place: Place,
    tail: &[Lexeme],
) -> Result<(), Stop>
    ensures { Says result (λ _. reverse opens.new.items) (if_at (reverse opens.old.items) place (name_holds (macros_of macros.now) wanted place (one_name tail.now))) }
{
    if !is_live(opens) {
        opens.push(Open {
            place,
            arm: Arm::Past,
        })?;
        return Ok(());
    }
    match name_holds(macros, wanted, place, tail) {
        Err(stop) => Err(stop),
        Ok(holds) => {
            let arm = arm_if(holds);
            opens.push(Open { place, arm })?;
            Ok(())
        }
    }
}

fn elif_line(
    alloc: Global,
    macros: &mut Definitions,
    opens: &mut Vec<Open>,
    place: Place,
    tail: &[Lexeme],
) -> Result<(), Stop>
    ensures same { OnOk result (macros.new ≡ macros.old) }
    ensures says { Says result (λ _. reverse opens.new.items) (elif_at (reverse opens.old.items) place (controls_at (macros_of macros.old) place tail.now)) }
{
    match opens.pop() {
        None => Err(breaks(Rule::Balance, place)),
        Some(open) => match elif_of(open.arm) {
            None => Err(breaks(Rule::Balance, place)),
            Some(false) => {
                opens.push(Open {
                    place: open.place,
                    arm: Arm::Past,
                })?;
                Ok(())
            }
            Some(true) => match controls(alloc, macros, place, tail) {
                Err(stop) => Err(stop),
                Ok(holds) => {
                    let arm = arm_if(holds);
                    opens.push(Open {
                        place: open.place,
                        arm,
                    })?;
                    Ok(())
                }
            },
        },
    }
}

fn else_line(opens: &mut Vec<Open>, place: Place, tail: &[Lexeme]) -> Result<(), Stop>
    ensures { Says result (λ _. reverse opens.new.items) (no_tail (reverse opens.old.items) place tail.now (else_at (reverse opens.old.items) place)) }
{
    if is_outer_live(opens) && !tail.is_empty() {
        Err(breaks(Rule::Form, place))
    } else {
        turn(opens, place)
    }
}

fn endif_line(opens: &mut Vec<Open>, place: Place, tail: &[Lexeme]) -> Result<(), Stop>
    ensures { Says result (λ _. reverse opens.new.items) (no_tail (reverse opens.old.items) place tail.now (endif_at (reverse opens.old.items) place)) }
{
    if is_outer_live(opens) && !tail.is_empty() {
        Err(breaks(Rule::Form, place))
    } else {
        end(opens, place)
    }
}

fn is_conditional(head: Head) -> bool
    ensures { result ≡ is_conditional head }
{
    match head {
        Head::If | Head::Ifdef | Head::Ifndef | Head::Elif | Head::Else | Head::Endif => true,
        _ => false,
    }
}

// What a conditional opens, turns or ends.
#[tactic(auto, unfolding(crate::specs::Reading::turn_at))]
fn turn_at(
    alloc: Global,
    macros: &mut Definitions,
    opens: &mut Vec<Open>,
    head: Head,
    place: Place,
    tail: &[Lexeme],
) -> Result<(), Stop>
    ensures same { OnOk result (macros.new ≡ macros.old) }
    ensures says { Says result (λ _. reverse opens.new.items) (turn_at head (macros_of macros.old) (reverse opens.old.items) place tail.now) }
{
    match head {
        Head::If => if_line(alloc, macros, opens, place, tail),
        Head::Ifdef => ifdef_line(macros, opens, true, place, tail),
        Head::Ifndef => ifdef_line(macros, opens, false, place, tail),
        Head::Elif => elif_line(alloc, macros, opens, place, tail),
        Head::Else => else_line(opens, place, tail),
        Head::Endif => endif_line(opens, place, tail),
        _ => Ok(()),
    }
}

/// A directive that is to be acted on: which it is, where it stands, and what stands behind its name.
#[derive(Clone, Copy, Debug)]
pub struct Action<'a> {
    pub head: Head,
    pub place: Place,
    pub tail: &'a [Lexeme],
}

// A directive: a conditional is done here, and another is to be acted on where lines are.
fn directive<'a>(
    alloc: Global,
    pre: &mut Pre,
    opens: &mut Vec<Open>,
    head: Head,
    place: Place,
    tail: &'a [Lexeme],
) -> Result<Option<Action<'a>>, Stop>
    ensures room { OnOk result (pre.new.out ≡ pre.old.out) }
    ensures sorts { (k : ℕ) (including : Including) → SortsDirective result k pre.old pre.new (reverse opens.old.items) (reverse opens.new.items) including head place tail.now }
{
    if is_conditional(head) {
        match turn_at(alloc, &mut pre.macros, opens, head, place, tail) {
            Err(stop) => Err(stop),
            Ok(()) => Ok(None),
        }
    } else if is_live(opens) {
        Ok(Some(Action { head, place, tail }))
    } else {
        Ok(None)
    }
}

// A line of text: it is read where lines are acted on, and asked for what breaks a rule wherever it stands in a group that is skipped.
fn text_line(
    alloc: Global,
    pre: &mut Pre,
    opens: &[Open],
    limit: usize,
    origin: Origin,
    row: &[Lexeme],
    tail: &[Lexeme],
) -> Result<(), Stop>
    requires { length pre.old.out.items ≤ limit }
    ensures room { OnOk result (length pre.new.out.items ≤ limit) }
    ensures says { Says result (λ _. work_of pre.new) (text_line limit origin (is_live (reverse opens.now)) (work_of pre.old) row.now tail.now) }
{
    if is_live(opens) {
        return text(alloc, pre, limit, origin, tail);
    }
    match first_ill(row) {
        None => Ok(()),
        Some(fault) => Err(breaks(fault.rule, place_of(origin, fault.point))),
    }
}

/// What a line does to the conditionals and as text, and what is still to be acted on.
pub fn sort<'a>(
    alloc: Global,
    pre: &mut Pre,
    opens: &mut Vec<Open>,
    limit: usize,
    origin: Origin,
    row: &'a [Lexeme],
) -> Result<Option<Action<'a>>, Stop>
    requires { length pre.old.out.items ≤ limit }
    ensures room { OnOk result (length pre.new.out.items ≤ limit) }
    ensures sorts { (k : ℕ) (including : Including) → Sorts result k pre.old pre.new (reverse opens.old.items) (reverse opens.new.items) including limit origin row.now }
{
    let (head, tail) = head_at(row);
    match head {
        Head::Text => {
            match text_line(alloc, pre, opens, limit, origin, row, tail) {
                Err(stop) => return Err(stop),
                Ok(()) => return Ok(None),
            }
        }
        _ => {
            match first_ill(row) {
                Some(fault) => {
                    return Err(breaks(fault.rule, place_of(origin, fault.point)));
                }
                None => {
                    let place = hash_place(origin, row);
                    return directive(alloc, pre, opens, head, place, tail);
                }
            }
        }
    }
}
