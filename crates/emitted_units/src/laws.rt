//! Laws of the units of a program.

ghost use Rattle.emitted_units.specs.Units.{UnitsAreProper, UnitsAreClosed, UnitsStayWithin};

/// Each unit is proper: each instruction can be encoded, each label that is named is on a line, and fixes lie in the image and apart.
pub fn units_are_proper()
    ensures { UnitsAreProper }
{}

/// Each unit has a name of its own, and each name that is asked for is one of theirs, `main` among them.
pub fn units_are_closed()
    ensures { UnitsAreClosed }
{}

/// No address that is asked for is behind the end of its unit.
pub fn units_stay_within()
    ensures { UnitsStayWithin }
{}
