ghost use Rattle.std.specs.Prelude.{◌≡◌, ◌++◌, slice_index_or, Some, IsSome, IfSome};
ghost use Rattle.f_value.specs.Operators.{Answers};
ghost use Rattle.f_value.specs.Texts.{padded_order, text_of};

use crate::integer::truth;
use crate::value::{Did, FOp, FValue};
use jf_base::List;
use std::alloc::Global;
use std::cmp::Ordering;

/// The byte of a text at a place, or a blank behind its end.
fn byte_or_blank(s: &[u8], i: usize) -> u8
    ensures { result ≡ slice_index_or s.now i 32 }
{
    if i < s.len() { s[i] } else { b' ' }
}

/// The order of two texts by their bytes, the shorter one with blanks behind it.
pub fn order(s: &[u8], t: &[u8]) -> Ordering
    ensures { result ≡ padded_order s.now t.now }
{
    let longer = s.len().max(t.len());
    for i in 0..longer {
        let x = byte_or_blank(s, i);
        let y = byte_or_blank(t, i);
        if x < y {
            return Ordering::Less;
        }
        if x > y {
            return Ordering::Greater;
        }
    }
    Ordering::Equal
}

/// Two texts, one behind the other.
pub fn joined(alloc: Global, s: &[u8], t: &[u8]) -> Did<FValue>
    ensures { Answers result (Did.Done (FValue.Text (s.now ++ t.now))) }
{
    let mut bytes = Vec::new(alloc);
    if bytes.extend_from_slice(s).is_err() {
        return Did::Memory;
    }
    if bytes.extend_from_slice(t).is_err() {
        return Did::Memory;
    }
    Did::Done(FValue::Text(List::from_vec(bytes)))
}

/// Two CHARACTER operands by an operator.
pub fn text(alloc: Global, op: FOp, s: &[u8], t: &[u8]) -> Did<FValue>
    requires { IsSome (text_of op s.now t.now) }
    ensures { IfSome (text_of op s.now t.now) (Answers result) }
{
    match op {
        FOp::Concat => joined(alloc, s, t),
        FOp::Equal => truth(order(s, t).is_eq()),
        FOp::Unequal => truth(order(s, t).is_ne()),
        FOp::Less => truth(order(s, t).is_lt()),
        FOp::LessEqual => truth(order(s, t).is_le()),
        FOp::Greater => truth(order(s, t).is_gt()),
        FOp::GreaterEqual => truth(order(s, t).is_ge()),
        FOp::Power
        | FOp::Multiply
        | FOp::Divide
        | FOp::Add
        | FOp::Subtract
        | FOp::Not
        | FOp::And
        | FOp::Or
        | FOp::Eqv
        | FOp::Neqv => unreachable!(),
    }
}
