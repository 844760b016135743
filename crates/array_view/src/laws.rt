ghost use Rattle.std.specs.Prelude.{◌≡◌, true, length};
ghost use Rattle.std.specs.List.{list_all};
ghost use Rattle.array_view.specs.Laws.{IsCountedByQuotient, GoesByStrides, GoesToTheLast};
ghost use Rattle.array_view.specs.Elements.{section_offsets};
ghost use Rattle.array_view.specs.Strides.{has_stride, first_offset, strided_offsets};

use crate::subscript::Sub;
use crate::view::ArrayView;

/// A law: from the element at the first subscripts, strides times multipliers lead to the elements that subscripts and triplets designate.
pub fn strides_lead_to_the_elements(_v: &ArrayView, _subs: &[Sub])
    requires one_each { length _subs.now ≡ length _v.now.dims }
    requires no_vector { list_all has_stride _subs.now ≡ true }
    ensures { section_offsets _v.now _subs.now ≡ strided_offsets (first_offset _v.now.base _v.now.dims _subs.now) _v.now.dims _subs.now }
{}

/// Laws: a triplet has max((last - first + stride) / stride, 0) subscripts, where the quotient is truncated (ISO/IEC 1539-1:2018,
/// 9.5.3.3.1). Each is a stride from the one before it, none lies beyond the last value, and the next one would.
pub fn triplets_end_at_the_last()
    ensures count { IsCountedByQuotient }
    ensures each { GoesByStrides }
    ensures last { GoesToTheLast }
{}
