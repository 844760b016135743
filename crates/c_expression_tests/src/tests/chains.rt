//! Operators between operands.

use super::{Form, Reading, check};
use std::test::Fail;

const BINARY: &str = "a * b / c % d => < a * b / c % d >
a + b - c => < a + b - c >
a << b >> c => < a << b >> c >
a < b > c <= d >= e => < a < b > c <= d >= e >
a == b != c => < a == b != c >
a & b & c => < a & b & c >
a ^ b ^ c => < a ^ b ^ c >
a | b | c => < a | b | c >
a && b && c => < a && b && c >
a || b || c => < a || b || c >";

const HEIGHTS: &str = "a * b + c => < < a * b > + c >
a + b * c => < a + < b * c > >
a + b << c => < < a + b > << c >
a << b + c => < a << < b + c > >
a << b < c => < < a << b > < c >
a < b << c => < a < < b << c > >
a < b == c => < < a < b > == c >
a == b < c => < a == < b < c > >
a == b & c => < < a == b > & c >
a & b == c => < a & < b == c > >
a & b ^ c => < < a & b > ^ c >
a ^ b & c => < a ^ < b & c > >
a ^ b | c => < < a ^ b > | c >
a | b ^ c => < a | < b ^ c > >
a | b && c => < < a | b > && c >
a && b | c => < a && < b | c > >
a && b || c => < < a && b > || c >
a || b && c => < a || < b && c > >
a + b * c - d / e => < a + < b * c > - < d / e > >
a * ( b + c ) => < a * ( < b + c > ) >
a - - b => < a - < - b > >
a & & b => < a & < & b > >
a * * p => < a * < * p > >";

const CONDITIONAL: &str = "a ? b : c => < a ? b : c >
a ? b : c ? d : e => < a ? b : c ? d : e >
a ? b ? c : d : e => < a ? < b ? c : d > : e >
a ? b , c : d => < a ? < b , c > : d >
a ? b = c : d => < a ? < b = c > : d >
a || b ? c : d && e => < < a || b > ? c : < d && e > >
a = b ? c : d => < a = < b ? c : d > >
( a ? b : c ) ? d : e => < ( < a ? b : c > ) ? d : e >";

const ASSIGNMENTS: &str = "a = b => < a = b >
a *= b => < a *= b >
a /= b => < a /= b >
a %= b => < a %= b >
a += b => < a += b >
a -= b => < a -= b >
a <<= b => < a <<= b >
a >>= b => < a >>= b >
a &= b => < a &= b >
a ^= b => < a ^= b >
a |= b => < a |= b >
a = b = c => < a = b = c >
a = b += c |= d => < a = b += c |= d >
a = ( b = c ) => < a = ( < b = c > ) >
( a = b ) = c => < ( < a = b > ) = c >
* p ++ = a [ 1 ] => < < * < p ++ > > = < a [ 1 ] > >
s . m = p -> n = 1 => < < s . m > = < p -> n > = 1 >
++ a = b => < < ++ a > = b >
sizeof a = b => < < sizeof a > = b >
f ( ) = a => < < f ( ) > = a >";

const UNASSIGNED: &str = "a + b = c => < a + b > .. 2
a ? b : c = d => < a ? b : c > .. 2
a = b + c = d => < a = < b + c > > .. 2
( T ) a = b => < cast { T _ } a > .. 2";

const COMMAS: &str = "a , b => < a , b >
a , b , c => < a , b , c >
a = b , c => < < a = b > , c >
a ? b : c , d => < < a ? b : c > , d >
a , ( b , c ) => < a , ( < b , c > ) >";

const PARTS: &str = "a = b , c => < a = b > .. 2
a , b => a .. 2
a ? b : c ; => < a ? b : c > .. 1";

const CONSTANTS: &str = "a ? b : c => < a ? b : c >
a = b => a .. 2
a , b => a .. 2
1 + 2 ] => < 1 + 2 > .. 1";

#[test]
fn operators_of_one_height_are_a_list(rt: HostRuntime) -> Result<(), Fail> {
    check(&rt, rt.alloc(), Reading::of(Form::Expression), BINARY)
}

#[test]
fn neighbours_bind_by_their_heights(rt: HostRuntime) -> Result<(), Fail> {
    check(&rt, rt.alloc(), Reading::of(Form::Expression), HEIGHTS)
}

#[test]
fn conditional_expressions_stand_behind_their_colons(rt: HostRuntime) -> Result<(), Fail> {
    check(&rt, rt.alloc(), Reading::of(Form::Expression), CONDITIONAL)
}

#[test]
fn assignments_group_to_the_right(rt: HostRuntime) -> Result<(), Fail> {
    check(&rt, rt.alloc(), Reading::of(Form::Expression), ASSIGNMENTS)
}

#[test]
fn only_unary_expressions_are_assigned_to(rt: HostRuntime) -> Result<(), Fail> {
    check(&rt, rt.alloc(), Reading::of(Form::Expression), UNASSIGNED)
}

#[test]
fn commas_stand_between_assignments(rt: HostRuntime) -> Result<(), Fail> {
    check(&rt, rt.alloc(), Reading::of(Form::Expression), COMMAS)
}

#[test]
fn an_assignment_ends_at_a_comma(rt: HostRuntime) -> Result<(), Fail> {
    check(&rt, rt.alloc(), Reading::of(Form::Assignment), PARTS)
}

#[test]
fn a_constant_expression_ends_at_an_assignment(rt: HostRuntime) -> Result<(), Fail> {
    check(&rt, rt.alloc(), Reading::of(Form::Constant), CONSTANTS)
}

#[test]
fn a_nested_expression_has_commas_too(rt: HostRuntime) -> Result<(), Fail> {
    check(&rt, rt.alloc(), Reading::of(Form::Nested), COMMAS)
}
