//! Which units one reaches along USE statements.

ghost use Rattle.std.specs.Prelude.{◌≡◌, ◌<◌, OnOk, IfOk, slice_get};
ghost use Rattle.f_order.specs.Graph.{AreEdges, AreInside, AreReached};
ghost use Rattle.f_order.specs.Reach.{extended_one, extended};

use crate::marks::{is_marked, mark, no_marks};
use f_scope::{Program, scope_count};
use f_use::{Places, places_in};
use std::alloc::{AllocError, Global};

/// Adds a number to those that were found, if it wasn't, and marks it.
pub(crate) fn extend_one(
    found: &mut Vec<usize>,
    marks: &mut Vec<bool>,
    number: usize,
) -> Result<(), AllocError>
    ensures { OnOk result ((found.new.items, marks.new.items) ≡ extended_one number (found.old.items, marks.old.items)) }
{
    if is_marked(marks.as_slice(), number) {
        return Ok(());
    }
    found.push(number)?;
    mark(marks, number);
    Ok(())
}

/// Adds the numbers to those that were found, each if it wasn't, and marks them.
#[tactic(auto, unfolding(crate::specs::Reach::extended))]
pub(crate) fn extend(
    found: &mut Vec<usize>,
    marks: &mut Vec<bool>,
    numbers: &[usize],
) -> Result<(), AllocError>
    ensures { OnOk result ((found.new.items, marks.new.items) ≡ extended numbers.now (found.old.items, marks.old.items)) }
{
    let mut rest = numbers;
    'numbers: while let Some((number, behind)) = rest.split_first() {
        extend_one(found, marks, *number)?;
        rest = behind;
    }
    Ok(())
}

/// The number at a place.
fn number_in(numbers: &[usize], at: usize) -> Option<usize>
    ensures { result ≡ slice_get numbers.now at }
{
    numbers.get(at).copied()
}

/// Marks the units that one reaches along USE statements, itself among them. It takes time in proportion to the edges.
pub(crate) fn reached_from(
    alloc: Global,
    program: &Program,
    edges: &[Places],
    from: usize,
) -> Result<Vec<bool>, AllocError>
    requires edges { AreEdges program.now.items edges.now }
    requires inside { AreInside program.now }
    requires from { from < program.now.scopes }
    ensures { IfOk result (λ marks. AreReached program.now.items from marks.items) }
{
    let mut marks = no_marks(alloc, scope_count(program))?;
    let mut found = Vec::new(alloc);
    extend_one(&mut found, &mut marks, from)?;
    let mut at = 0;
    'found: while let Some(unit) = number_in(found.as_slice(), at) {
        extend(&mut found, &mut marks, places_in(edges, unit))?;
        at += 1;
    }
    Ok(marks)
}
