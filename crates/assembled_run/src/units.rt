//! Laws of units and of their image.
ghost use Rattle.assembled_run.specs.Theorems.{AssembledLink, ClosedLink, Begins, KeepsCode, FixHolds};

/// Proper units that were assembled can be linked, where each address that they ask for is one of the unit of its name, or its end.
pub fn assembled_units_link()
    ensures { AssembledLink }
{}

/// Where each name that they ask for is that of one unit, no name is missing or defined twice.
pub fn closed_units_have_no_fault()
    ensures { ClosedLink }
{}

/// A loaded image begins at the first line of `main`.
pub fn runs_begin()
    ensures { Begins }
{}

/// No step changes the code.
pub fn steps_keep_code()
    ensures { KeepsCode }
{}

/// An image has the addresses that its units' fixes ask for.
pub fn fixes_hold()
    ensures { FixHolds }
{}
