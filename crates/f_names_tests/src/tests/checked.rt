//! The first broken rule of a program, and programs that keep all.

use super::{Question, check};
use std::test::Fail;

const EACH_RULE: &str = "program p; data a; data a; end => 3:N01
program p; value a; end => 2:N02
module m; data a; private a; end; program p; only m; take m a; end => 8:N03
program p; use m; end => 2:N04
module a; use b; end; module b; use a; end => 2:N05
module m; data a; end; module n; data a; end; program p; use m; use n; value a; end => 12:N06
program p; untyped; end => 2:N07
program p; value p; end => 2:N08";

const KEPT: &str = "module m; data a; end; program p; use m; value a; end => kept
program p; use m; value a; end; module m; data a; end => kept
module m; type t; end; contained f; of t; end; end; external g; end => kept";

const BEFORE_ITEMS: &str = "program p; untyped; end; module a; use a; end => 6:N05
program p; untyped; end; module a; use a; end; module a; end => 9:N01
module z; use a; end; module a; use b; end; module b; use a; end => 6:N05";

const ALONG_UNITS: &str = "program p; value a; end; module m; value b; end => 6:N02
module b; use a; value x; end; module a; untyped; end => 7:N07
module a; untyped; end; module b; use a; value x; end => 2:N07
program p; value a; value p; end => 2:N02";

#[test]
fn each_rule(rt: HostRuntime) -> Result<(), Fail> {
    check(&rt, rt.alloc(), Question::First, EACH_RULE)
}

#[test]
fn programs_that_keep_the_rules(rt: HostRuntime) -> Result<(), Fail> {
    check(&rt, rt.alloc(), Question::First, KEPT)
}

#[test]
fn names_of_units_and_cycles_before_items(rt: HostRuntime) -> Result<(), Fail> {
    check(&rt, rt.alloc(), Question::First, BEFORE_ITEMS)
}

#[test]
fn modules_before_those_that_use_them(rt: HostRuntime) -> Result<(), Fail> {
    check(&rt, rt.alloc(), Question::First, ALONG_UNITS)
}
