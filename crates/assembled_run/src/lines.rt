//! Laws of lines.
ghost use Rattle.assembled_run.specs.Theorems.{AreInCode, LabelStays, PlainSteps, JumpLeads, BranchLeads, CallLeads, AddressLeads};

/// Lines stand in the code, at multiples of 4.
pub fn lines_in_code()
    ensures { AreInCode }
{}

/// A label is the place of the next line.
pub fn label_line()
    ensures { LabelStays }
{}

/// An instruction is done.
pub fn plain_line()
    ensures { PlainSteps }
{}

/// A jump leads to its label.
pub fn jump_line()
    ensures { JumpLeads }
{}

/// A conditional branch leads to its label where its condition holds, and to the next line where it doesn't.
pub fn branch_line()
    ensures { BranchLeads }
{}

/// A call leads to the unit of its name.
pub fn call_line()
    ensures { CallLeads }
{}

/// An address is in its register.
pub fn address_line()
    ensures { AddressLeads }
{}
