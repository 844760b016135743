mod rows;
mod sections;

use crate::{ArrayView, Axes, AxisDim, Sub, is_contiguous, section};
use jf_base::List;
use std::alloc::Global;
use std::test::Fail;

fn view(alloc: Global, base: i64, len: u64, dims: &[(i64, i64, i64)]) -> ArrayView {
    let mut axes = Axes::new(alloc);
    for (lower, extent, sm) in dims {
        if axes.len() < 15 {
            axes.push(AxisDim {
                lower: *lower,
                extent: *extent,
                sm: *sm,
            });
        }
    }
    ArrayView {
        base,
        len,
        dims: axes,
    }
}

/// Whether the section is this one, or none where none is wanted.
fn is_section(v: &ArrayView, subs: &[Sub], want: Option<&[i64]>, alloc: Global) -> bool {
    if v.dims.len() != subs.len() {
        return false;
    }
    match section(alloc, v, subs) {
        Ok(Some(offsets)) => match want {
            Some(want) => offsets.as_slice() == want,
            None => false,
        },
        Ok(None) => want.is_none(),
        Err(_) => false,
    }
}

fn triplet(first: i64, last: i64, stride: i64) -> Sub {
    Sub::Triplet {
        first,
        last,
        stride,
    }
}

#[test]
fn vector_subscripts_keep_their_order(rt: HostRuntime) -> Result<(), Fail> {
    let alloc = rt.alloc();
    let v = view(alloc, 100, 8, &[(0, 3, 8)]);
    let chosen = Sub::Vector(List::from_vec(vec![in alloc; 2, 0, 2]?));
    assert!(rt; is_section(&v, &[chosen], Some(&[116, 100, 116]), alloc));
    let beyond = Sub::Vector(List::from_vec(vec![in alloc; 2, 3]?));
    assert!(rt; is_section(&v, &[beyond], None, alloc));
    Ok(())
}

#[test]
fn the_first_dimension_varies_fastest(rt: HostRuntime) {
    let alloc = rt.alloc();
    let v = view(alloc, 0, 4, &[(1, 2, 4), (-1, 3, 8)]);
    assert!(rt;
        is_section(
            &v,
            &[triplet(1, 2, 1), triplet(1, -1, -2)],
            Some(&[16, 20, 0, 4]),
            alloc
        )
    );
    assert!(rt;
        is_section(
            &v,
            &[Sub::One(2), triplet(-1, 1, 1)],
            Some(&[4, 12, 20]),
            alloc
        )
    );
    let cube = view(alloc, 0, 1, &[(1, 2, 1), (1, 2, 2), (1, 2, 4)]);
    assert!(rt;
        is_section(
            &cube,
            &[triplet(2, 1, -1), Sub::One(2), triplet(1, 2, 1)],
            Some(&[3, 2, 7, 6]),
            alloc
        )
    );
    let huge = view(alloc, 0, 1, &[(1, 1 << 62, 1), (1, 0, 1)]);
    assert!(rt;
        is_section(
            &huge,
            &[triplet(1, 1 << 62, 1), triplet(1, 0, 1)],
            Some(&[]),
            alloc
        )
    );
    let open = view(alloc, 0, 4, &[(1, -1, 4)]);
    assert!(rt; is_section(&open, &[triplet(7, 8, 1)], Some(&[24, 28]), alloc));
}

#[test]
fn contiguous_elements_lie_side_by_side(rt: HostRuntime) {
    let alloc = rt.alloc();
    for (dims, len, want) in [
        ([(1i64, 6i64, 4i64), (1, 2, 24)], 4u64, true),
        ([(1, 3, 4), (1, 2, 24)], 4, false),
        ([(1, 3, 8), (1, 1, 24)], 4, false),
        ([(1, 1, 100), (1, 1, 7)], 4, true),
        ([(1, 0, 100), (1, 9, 7)], 4, true),
        ([(1, 2, 4), (1, 2, 8)], 0, false),
        ([(1, 2, -4), (1, 1, 8)], 4, false),
        ([(1, 2, 4), (1, -1, 8)], 4, true),
    ] {
        let v = view(alloc, 0, len, &dims);
        assert_eq!(rt; is_contiguous(&v), want, "of {len} bytes");
    }
}
