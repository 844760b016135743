ghost use Rattle.std.specs.Prelude.{◌≡◌, ◌≢◌, ◌/◌, ◌-ℤ◌, ◌+ℤ◌, ◌*ℤ◌, pos, IfOk, unsigned_abs};
ghost use Rattle.array_view.specs.Subscripts.{is_past, triplet_count, steps_from};

use std::alloc::{AllocError, Global};

/// Whether `k` lies beyond the last value of a triplet, in the direction of its stride.
pub(crate) fn is_past(last: i64, stride: i64, k: i128) -> bool
    ensures { result ≡ is_past last stride k }
{
    if stride >= 0 {
        k > i128::from(last)
    } else {
        k < i128::from(last)
    }
}

/// The subscripts of a triplet, whose stride isn't 0.
pub(crate) fn triplet(
    alloc: Global,
    first: i64,
    last: i64,
    stride: i64,
) -> Result<Vec<i64>, AllocError>
    requires { stride ≢ pos 0 }
    ensures { IfOk result (λ ks. ks.items ≡ steps_from first stride (triplet_count first last stride)) }
{
    let mut ks = Vec::new(alloc);
    let mut k = i128::from(first);
    while !is_past(last, stride, k) {
        ks.push(k as i64)?;
        k += i128::from(stride);
    }
    Ok(ks)
}
