//! Numbers that are marked.

ghost use Rattle.std.specs.Prelude.{◌≡◌, IfOk, false, replicate};
ghost use Rattle.f_order.specs.Marks.{marked, set_mark, set_some};

use std::alloc::{AllocError, Global};

/// Whether the number is marked.
pub(crate) fn is_marked(marks: &[bool], number: usize) -> bool
    ensures { result ≡ marked marks.now number }
{
    if number < marks.len() {
        marks[number]
    } else {
        false
    }
}

/// Marks a number.
pub(crate) fn mark(marks: &mut Vec<bool>, number: usize)
    ensures { marks.new.items ≡ set_mark marks.old.items number }
{
    if number < marks.len() {
        marks[number] = true;
    }
}

/// Marks a number, if there is one.
pub(crate) fn mark_some(marks: &mut Vec<bool>, number: Option<usize>)
    ensures { marks.new.items ≡ set_some marks.old.items number }
{
    match number {
        None => {}
        Some(number) => mark(marks, number),
    }
}

/// Room for so many numbers, none of which is marked.
pub(crate) fn no_marks(alloc: Global, count: usize) -> Result<Vec<bool>, AllocError>
    ensures { IfOk result (λ marks. marks.items ≡ replicate count false) }
{
    let mut marks = Vec::new(alloc);
    'numbers: while marks.len() < count {
        marks.push(false)?;
    }
    Ok(marks)
}
