ghost use Rattle.std.specs.Prelude.{◌≡◌, ◌++◌, [], IsTrue, IfOk, OnOk, MatchOption, false, length, map};
ghost use Rattle.std.specs.Int.{int_wrap, w64};
ghost use Rattle.std.specs.List.{list_all, list_any};
ghost use Rattle.array_view.specs.Subscripts.{are_designated, has_direction, has_no_subscript, subscripts_of};
ghost use Rattle.array_view.specs.Elements.{moved_in_64_bits, rows_in_64_bits, offsets_at};
ghost use Rattle.array_view.specs.Sections.{IsSection};

use crate::axes::AxisDim;
use crate::bounds::are_designated;
use crate::subscript::Sub;
use crate::triplet::{is_past, triplet};
use crate::view::ArrayView;
use jf_base::Memory;
use std::alloc::{AllocError, Global};

/// The offset moved to subscript `k` of the dimension. What leaves 64 bits on the way wraps, and comes back with the rest.
fn moved(offset: i64, dim: &AxisDim, k: i64) -> i64
    ensures { result ≡ moved_in_64_bits dim.now offset k }
{
    let steps = k.wrapping_sub(dim.lower);
    offset.wrapping_add(steps.wrapping_mul(dim.sm))
}

/// Appends the offset at each of the subscripts.
fn push_row(out: &mut Vec<i64>, offset: i64, dim: &AxisDim, ks: &[i64]) -> Result<(), AllocError>
    ensures { OnOk result (out.new.items ≡ out.old.items ++ map (moved_in_64_bits dim.now offset) ks.now) }
{
    for k in ks {
        out.push(moved(offset, dim, *k))?;
    }
    Ok(())
}

/// For each offset the row at the subscripts.
fn rows(alloc: Global, offsets: &[i64], dim: &AxisDim, ks: &[i64]) -> Result<Vec<i64>, AllocError>
    ensures { IfOk result (λ v. v.items ≡ rows_in_64_bits dim.now ks.now offsets.now) }
{
    let mut out = Vec::new(alloc);
    for offset in offsets {
        push_row(&mut out, *offset, dim, ks)?;
    }
    Ok(out)
}

/// For each offset the row at the subscripts that `sub` stands for.
fn rows_at(alloc: Global, offsets: &[i64], dim: &AxisDim, sub: &Sub) -> Result<Vec<i64>, AllocError>
    requires { IsTrue (has_direction sub.now) }
    ensures { IfOk result (λ v. v.items ≡ rows_in_64_bits dim.now (subscripts_of sub.now) offsets.now) }
{
    match sub {
        Sub::One(k) => rows(alloc, offsets, dim, &[*k]),
        Sub::Triplet {
            first,
            last,
            stride,
        } => {
            let ks = triplet(alloc, *first, *last, *stride)?;
            rows(alloc, offsets, dim, ks.as_slice())
        }
        Sub::Vector(ks) => rows(alloc, offsets, dim, ks.as_slice()),
    }
}

/// The offsets at the subscripts, as they are in 64 bits.
fn wrapped_offsets(
    alloc: Global,
    base: i64,
    dims: &[AxisDim],
    subs: &[Sub],
) -> Result<Vec<i64>, AllocError>
    requires one_each { length subs.now ≡ length dims.now }
    requires directed { IsTrue (list_all has_direction subs.now) }
    ensures { IfOk result (λ v. v.items ≡ map (int_wrap w64) (offsets_at base dims.now (map subscripts_of subs.now))) }
{
    let [dim, dims @ ..] = dims else {
        return Ok(vec![in alloc; base]?);
    };
    let [sub, subs @ ..] = subs else {
        unreachable!();
    };
    let offsets = wrapped_offsets(alloc, base, dims, subs)?;
    Ok(rows_at(alloc, offsets.as_slice(), dim, sub)?)
}

fn is_empty(sub: &Sub) -> bool
    ensures { result ≡ has_no_subscript sub.now }
{
    match sub {
        Sub::One(_) => false,
        Sub::Triplet {
            first,
            last,
            stride,
        } => is_past(*last, *stride, i128::from(*first)),
        Sub::Vector(ks) => ks.len() == 0,
    }
}

/// Whether some dimension has no subscript, so that there is no element.
fn has_empty(subs: &[Sub]) -> bool
    ensures { result ≡ list_any has_no_subscript subs.now }
{
    subs.iter().any(|sub| is_empty(sub))
}

/// Where the elements of a section of the array begin, the first dimension varying fastest (ISO/IEC 1539-1:2018, 9.5.3.3).
///
/// `None` where a subscript that occurs lies outside its dimension, or a stride is 0. An offset outside of 64 bits comes wrapped to them.
/// The time that it takes is that of its elements and of its vector subscripts.
pub fn section(alloc: Global, v: &ArrayView, subs: &[Sub]) -> Result<Option<Vec<i64>>, Memory>
    requires { length subs.now ≡ length v.now.dims }
    ensures { IfOk result (λ found. MatchOption found (are_designated v.now.dims subs.now ≡ false) (IsSection v.now subs.now)) }
{
    let dims = v.dims.as_slice();
    if !are_designated(dims, subs) {
        return Ok(None);
    }
    if has_empty(subs) {
        return Ok(Some(Vec::new(alloc)));
    }
    let offsets = wrapped_offsets(alloc, v.base, dims, subs)?;
    Ok(Some(offsets))
}
