//! Assignments for all procedures of a program.

ghost use Rattle.std.specs.Prelude.{◌≡◌, ◌++◌, ◌∷◌, [], All, IfOk, OnOk};
ghost use Rattle.flatten.specs.Paths.{UsesAreSet};
ghost use Rattle.block_homes.specs.Valid.{IsNamed, AllValid};
ghost use Rattle.reg_alloc.specs.All.{AreAssigned};

use crate::scan::assign;
use block_homes::Assignment;
use flatten::BlockProc;
use jf_base::Memory;
use std::alloc::{AllocError, Global};

fn add(assignments: &mut Vec<Assignment>, assignment: Assignment) -> Result<(), AllocError>
    ensures { OnOk result (assignments.new.items ≡ assignments.old.items ++ assignment ∷ []) }
{
    assignments.push(assignment)?;
    Ok(())
}

/// What `assign` gives for each of these procedures, in their order. With these homes each procedure keeps each value until its last use.
pub fn assign_all(alloc: Global, procs: &[BlockProc]) -> Result<Vec<Assignment>, Memory>
    requires named { All IsNamed procs.now }
    requires set_first { All UsesAreSet procs.now }
    ensures assigned { IfOk result (λ assignments. AreAssigned procs.now assignments.items) }
    ensures valid { IfOk result (λ assignments. AllValid procs.now assignments.items) }
{
    let mut assignments = Vec::with_capacity(alloc, procs.len())?;
    for proc in procs {
        let assignment = assign(alloc, proc)?;
        add(&mut assignments, assignment)?;
    }
    Ok(assignments)
}
