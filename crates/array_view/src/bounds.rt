ghost use Rattle.std.specs.Prelude.{◌≡◌, ◌≢◌, ◌-ℤ◌, int_rem, pos, IsTrue, true, length};
ghost use Rattle.std.specs.List.{list_all};
ghost use Rattle.array_view.specs.Subscripts.{is_in_axis, is_open_ended, has_direction, are_designated, subscripts_of, steps_from, triplet_count};

use crate::axes::AxisDim;
use crate::subscript::Sub;
use crate::triplet::is_past;

fn is_in_axis(dim: &AxisDim, open_ended: bool, k: i128) -> bool
    ensures { result ≡ is_in_axis dim.now open_ended k }
{
    let lower = i128::from(dim.lower);
    lower <= k && (open_ended || k < lower + i128::from(dim.extent))
}

/// Whether the dimension, before these others, has no upper bound.
fn is_open_ended(dim: &AxisDim, rest: &[AxisDim]) -> bool
    ensures { result ≡ is_open_ended dim.now rest.now }
{
    rest.is_empty() && dim.extent == -1
}

fn has_direction(sub: &Sub) -> bool
    ensures { result ≡ has_direction sub.now }
{
    match sub {
        Sub::Triplet { stride, .. } => *stride != 0,
        Sub::One(_) | Sub::Vector(_) => true,
    }
}

/// The last subscript of a triplet that occurs, where one does.
fn final_subscript(first: i64, last: i64, stride: i64) -> i128
    requires { stride ≢ pos 0 }
    ensures { result ≡ last -ℤ int_rem (last -ℤ first) stride }
{
    let (first, last) = (i128::from(first), i128::from(last));
    let step = i128::from(stride.unsigned_abs());
    last - (last - first) % step
}

/// Whether the subscripts of a triplet that occur lie in the dimension: the first and the last of them tell it.
fn triplet_lies_in(dim: &AxisDim, open_ended: bool, first: i64, last: i64, stride: i64) -> bool
    requires { stride ≢ pos 0 }
    ensures { result ≡ list_all (is_in_axis dim.now open_ended) (steps_from first stride (triplet_count first last stride)) }
{
    if is_past(last, stride, i128::from(first)) {
        return true;
    }
    let final_one = final_subscript(first, last, stride);
    is_in_axis(dim, open_ended, i128::from(first)) && is_in_axis(dim, open_ended, final_one)
}

/// Whether the subscripts that occur lie in the dimension.
fn lies_in(dim: &AxisDim, open_ended: bool, sub: &Sub) -> bool
    requires { IsTrue (has_direction sub.now) }
    ensures { result ≡ list_all (is_in_axis dim.now open_ended) (subscripts_of sub.now) }
{
    match sub {
        Sub::One(k) => is_in_axis(dim, open_ended, i128::from(*k)),
        Sub::Triplet {
            first,
            last,
            stride,
        } => triplet_lies_in(dim, open_ended, *first, *last, *stride),
        Sub::Vector(ks) => ks
            .as_slice()
            .iter()
            .all(|k| is_in_axis(dim, open_ended, i128::from(*k))),
    }
}

/// Whether each subscript that occurs lies in its dimension, and each stride has a direction.
pub(crate) fn are_designated(dims: &[AxisDim], subs: &[Sub]) -> bool
    ensures { result ≡ are_designated dims.now subs.now }
{
    let [dim, dims @ ..] = dims else {
        return true;
    };
    let [sub, subs @ ..] = subs else {
        return true;
    };
    has_direction(sub) && lies_in(dim, is_open_ended(dim, dims), sub) && are_designated(dims, subs)
}
