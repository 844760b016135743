ghost use Rattle.std.specs.Prelude.{List, ℕ, ◌+◌, ◌*◌, ◌≤◌};
ghost use Rattle.array_view.specs.declared.axes.AxisDim.{AxisDim};
ghost use Rattle.flat_routines.specs.Copying.{copy_bytes, Copies};
ghost use Rattle.flat_routines.specs.Counting.{count_elements, Counts};
ghost use Rattle.flat_routines.specs.Dims.{Dim, IsOrder};
ghost use Rattle.flat_routines.specs.Moving.{gather, Gathers, scatter, Scatters, units};
ghost use Rattle.flat_routines.specs.Views.{AreStrides, IsView};

/// `copy_bytes` copies, in exactly one unit for the call and one for each byte, ranges that meet too.
pub fn copy_bytes_copies()
    ensures { Copies copy_bytes }
{}

/// `count_elements` returns how many elements there are, in 64 bits.
pub fn count_elements_counts()
    ensures { Counts count_elements }
{}

/// `gather` puts the elements of an array of any rank one after the other, in the order of array elements (ISO/IEC 1539-1:2018, 9.5.3.2), with any procedure that copies.
pub fn gather_gathers()
    ensures { Gathers gather }
{}

/// `scatter` puts elements that lie one after the other back into an array of any rank, with any procedure that copies.
pub fn scatter_scatters()
    ensures { Scatters scatter }
{}

/// Gathering and scattering take at most rank + 3 units for each byte that is moved, and one for the call.
pub fn moving_is_linear()
    ensures { (len rank n : ℕ) → units len rank n ≤ n * len * (rank + 3) + 1 }
{}

/// The positions of an array's elements are the numbers below their count, each that of one element.
pub fn positions_are_an_order()
    ensures { (dims : List Dim) → IsOrder dims }
{}

/// The elements by their dimensions are those of the array view with these dimensions, in the order in which it lists their offsets.
pub fn elements_are_those_of_the_view()
    ensures { (base : ℕ) (dims : List AxisDim) → AreStrides dims → IsView base dims }
{}
