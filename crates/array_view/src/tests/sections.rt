use super::rows::SECTIONS;
use crate::{ArrayView, Axes, AxisDim, Sub, is_contiguous, section};
use jf_base::List;
use std::alloc::Global;
use std::process::Abort;
use std::test::Fail;

fn number(word: Option<&str>) -> Option<i64> {
    match word?.parse::<i64>() {
        Ok(value) => Some(value),
        Err(_) => None,
    }
}

fn add(dims: &mut Axes, lower: i64, extent: i64, sm: i64) {
    if dims.len() < 15 {
        dims.push(AxisDim { lower, extent, sm });
    }
}

/// The array with a row's bounds, of elements of four bytes side by side.
fn array(alloc: Global, bounds: &str) -> Option<ArrayView> {
    let mut dims = Axes::new(alloc);
    let mut sm = 4i64;
    for bound in bounds.split(' ') {
        let mut ends = bound.split(':');
        let lower = number(ends.next())?;
        let extent = number(ends.next())?.wrapping_sub(lower).wrapping_add(1);
        add(&mut dims, lower, extent, sm);
        sm = sm.wrapping_mul(extent);
    }
    Some(ArrayView {
        base: 0,
        len: 4,
        dims,
    })
}

/// The numbers of a row, with this mark between them.
fn numbers(alloc: Global, words: &str, between: char) -> Result<Vec<i64>, Fail> {
    let mut found = Vec::new(alloc);
    for word in words.split(between) {
        if let Some(value) = number(Some(word)) {
            found.push(value)?;
        }
    }
    Ok(found)
}

/// A subscript, a triplet or a vector subscript of a row.
fn sub(alloc: Global, word: &str) -> Result<Option<Sub>, Fail> {
    if let Some(list) = word.strip_prefix("[") {
        let list = list.strip_suffix("]").unwrap_or("");
        return Ok(Some(Sub::Vector(List::from_vec(numbers(alloc, list, ',')?))));
    }
    let mut parts = word.split(':');
    let (first, last, stride) = (
        number(parts.next()),
        number(parts.next()),
        number(parts.next()),
    );
    Ok(match (first, last, stride) {
        (Some(first), Some(last), Some(stride)) => Some(Sub::Triplet {
            first,
            last,
            stride,
        }),
        (Some(first), None, None) => Some(Sub::One(first)),
        _ => None,
    })
}

fn subs(alloc: Global, words: &str) -> Result<Vec<Sub>, Fail> {
    let mut found = Vec::new(alloc);
    for word in words.split(' ') {
        if let Some(sub) = sub(alloc, word)? {
            found.push(sub)?;
        }
    }
    Ok(found)
}

/// The section as an array of its own, where no subscript is a vector: it has a dimension for each triplet.
fn as_array(alloc: Global, v: &ArrayView, subs: &[Sub]) -> Option<ArrayView> {
    let mut dims = Axes::new(alloc);
    for (dim, sub) in v.dims.as_slice().iter().zip(subs.iter()) {
        match sub {
            Sub::One(_) => {}
            Sub::Triplet {
                first,
                last,
                stride,
            } => {
                let extent = last
                    .wrapping_sub(*first)
                    .wrapping_add(*stride)
                    .checked_div(*stride)?;
                add(&mut dims, 1, extent.max(0), stride.wrapping_mul(dim.sm));
            }
            Sub::Vector(_) => return None,
        }
    }
    Some(ArrayView {
        base: 0,
        len: 4,
        dims,
    })
}

/// Whether each of the offsets is four bytes behind the one before it.
fn lie_side_by_side(offsets: &[i64]) -> bool {
    offsets.windows(2).all(|pair| match pair {
        [a, b] => *b == a.wrapping_add(4),
        _ => false,
    })
}

/// Whether a section is what a row says.
fn holds(alloc: Global, row: &str) -> Result<bool, Fail> {
    let mut parts = row.split('|');
    let (Some(bounds), Some(words), Some(offsets), Some(side_by_side)) = (
        parts.next(),
        parts.next(),
        parts.next(),
        parts.next(),
    ) else {
        return Ok(false);
    };
    let Some(v) = array(alloc, bounds) else {
        return Ok(false);
    };
    let subs = subs(alloc, words)?;
    if v.dims.len() != subs.len() {
        return Ok(false);
    }
    let Some(found) = section(alloc, &v, subs.as_slice())? else {
        return Ok(offsets == "none");
    };
    let contiguous = match as_array(alloc, &v, subs.as_slice()) {
        Some(section) => is_contiguous(&section),
        None => lie_side_by_side(found.as_slice()),
    };
    let want = numbers(alloc, offsets, ' ')?;
    Ok(
        offsets != "none"
            && found.as_slice() == want.as_slice()
            && contiguous == (side_by_side == "T"),
    )
}

#[test]
fn sections_of_each_rank(rt: HostRuntime) -> Result<(), Fail> {
    for row in SECTIONS.lines() {
        assert!(rt; holds(rt.alloc(), row)?, "{row}");
    }
    Ok(())
}
