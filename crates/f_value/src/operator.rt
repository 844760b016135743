ghost use Rattle.std.specs.Prelude.{◌≡◌, Some, IsSome, IfSome};
ghost use Rattle.f_value.specs.Operators.{Answers, binary_of, logical_of, unary_of};

use crate::integer::{OUT_OF_KIND, in_kind, integer};
use crate::text::text;
use crate::value::{Did, FOp, FValue};
use std::alloc::Global;

/// Two LOGICAL operands by an operator.
fn logical(op: FOp, a: bool, b: bool, kind: u8) -> Did<FValue>
    requires { IsSome (logical_of op a b kind) }
    ensures { logical_of op a b kind ≡ Some result }
{
    let value = match op {
        FOp::And => a && b,
        FOp::Or => a || b,
        FOp::Eqv => a == b,
        FOp::Neqv => a != b,
        FOp::Power
        | FOp::Multiply
        | FOp::Divide
        | FOp::Add
        | FOp::Subtract
        | FOp::Concat
        | FOp::Equal
        | FOp::Unequal
        | FOp::Less
        | FOp::LessEqual
        | FOp::Greater
        | FOp::GreaterEqual
        | FOp::Not => unreachable!(),
    };
    Did::Done(FValue::Logical { value, kind })
}

/// One operand by an operator (clause 10.1.5).
pub fn unary(op: FOp, a: &FValue) -> Did<FValue>
    requires { IsSome (unary_of op a.now) }
    ensures { unary_of op a.now ≡ Some result }
{
    match (op, a) {
        (FOp::Add, FValue::Int { value, kind }) => Did::Done(FValue::Int {
            value: *value,
            kind: *kind,
        }),
        (FOp::Subtract, FValue::Int { value, kind }) => match value.checked_neg() {
            None => Did::Violation(OUT_OF_KIND),
            Some(v) => in_kind(v, *kind),
        },
        (FOp::Not, FValue::Logical { value, kind }) => Did::Done(FValue::Logical {
            value: !*value,
            kind: *kind,
        }),
        _ => unreachable!(),
    }
}

/// Two operands by an operator (clause 10.1.5), in the greater kind of the two.
pub fn binary(alloc: Global, op: FOp, a: &FValue, b: &FValue) -> Did<FValue>
    requires { IsSome (binary_of op a.now b.now) }
    ensures { IfSome (binary_of op a.now b.now) (Answers result) }
{
    match (a, b) {
        (FValue::Int { value: x, kind: j }, FValue::Int { value: y, kind: k }) => {
            integer(op, *x, *y, if *j < *k { *k } else { *j })
        }
        (FValue::Logical { value: x, kind: j }, FValue::Logical { value: y, kind: k }) => {
            logical(op, *x, *y, if *j < *k { *k } else { *j })
        }
        (FValue::Text(s), FValue::Text(t)) => text(alloc, op, s.as_slice(), t.as_slice()),
        _ => unreachable!(),
    }
}
