ghost use Rattle.std.specs.Prelude.{◌≡◌, ◌↔◌, IsTrue, pos};
ghost use Rattle.array_view.specs.Contiguous.{IsSideBySide, has_no_element, is_packed};
ghost use Rattle.array_view.specs.Elements.{whole_offsets};

use crate::axes::AxisDim;
use crate::view::ArrayView;

/// Whether the multipliers of dimensions, none without subscripts, lead from one element of `len` bytes to the next.
fn is_packed(dims: &[AxisDim], len: i128) -> bool
    ensures { result ≡ is_packed dims.now len }
{
    let [dim, dims @ ..] = dims else {
        return true;
    };
    if dim.extent == 1 {
        return is_packed(dims, len);
    }
    i128::from(dim.sm) == len && is_packed(dims, i128::from(dim.sm) * i128::from(dim.extent))
}

/// Whether some dimension has no subscript.
fn has_no_element(dims: &[AxisDim]) -> bool
    ensures { result ≡ has_no_element dims.now }
{
    dims.iter().any(|dim| dim.extent <= 0)
}

/// Whether the elements of the whole array lie side by side (ISO/IEC 1539-1:2018, 8.5.7). It takes no memory.
pub fn is_contiguous(v: &ArrayView) -> bool
    ensures { IsTrue result ↔ IsSideBySide (pos v.now.len) (whole_offsets v.now) }
{
    let dims = v.dims.as_slice();
    has_no_element(dims) || is_packed(dims, i128::from(v.len))
}
