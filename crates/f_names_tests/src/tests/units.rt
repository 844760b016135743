//! The order of units, names of units that stand twice, and cycles.

use super::{Question, check};
use std::test::Fail;

const ORDERS: &str = "module a; end; module b; use a; end => 1 2
module b; use a; end; module a; end => 2 1
program p; use a; end; module a; end => 2 1
module c; use b; end; module b; end; module a; end => 2 1 3
module c; use a; end; module b; end; module a; end => 2 3 1
module b; contained f; only a; take a x; end; end; module a; end => 3 1
external f; end; module a; end; external g; end => 2 1 3";

const TIES: &str =
    "module d; use b; use c; end; module c; use a; end; module b; use a; end; module a; end => 4 2 3 1
module d; use c; end; module c; end; module b; use a; end; module a; end => 2 1 4 3
module c; end; module b; use a; end; module a; end; module d; end => 1 3 2 4";

const USED_TWICE: &str = "module b; use a; use a; end; module a; end => 2 1
module b; use a; use a; use c; end; module a; end; module c; end => 2 3 1
module b; only a; take a x; take a y; end; module c; end; module a; end => 2 3 1";

const CYCLES: &str = "module a; use a; end => cycle 2
module a; use b; end; module b; use a; end => cycle 2
module z; use a; end; module a; use b; end; module b; use a; end => cycle 6
module a; use b; end; module b; use c; end; module c; use c; end => cycle 10
module a; contained f; use b; end; end; module b; use a; end => cycle 4";

const TWICE: &str = "module a; end; module a; end => twice 4
module a; use a; end; program a; end => twice 5";

#[test]
fn units_in_order(rt: HostRuntime) -> Result<(), Fail> {
    check(&rt, rt.alloc(), Question::Order, ORDERS)
}

#[test]
fn least_of_the_modules_that_are_ready(rt: HostRuntime) -> Result<(), Fail> {
    check(&rt, rt.alloc(), Question::Order, TIES)
}

#[test]
fn modules_that_are_used_twice(rt: HostRuntime) -> Result<(), Fail> {
    check(&rt, rt.alloc(), Question::Order, USED_TWICE)
}

#[test]
fn first_items_on_cycles(rt: HostRuntime) -> Result<(), Fail> {
    check(&rt, rt.alloc(), Question::Order, CYCLES)
}

#[test]
fn names_of_units_that_stand_twice(rt: HostRuntime) -> Result<(), Fail> {
    check(&rt, rt.alloc(), Question::Order, TWICE)
}
