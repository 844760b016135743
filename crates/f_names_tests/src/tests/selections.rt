//! Selections of components, and the rules that they break.

use super::{Question, check};
use std::test::Fail;

const THERE: &str = "program p; type t; component c; end; data x t; object x; select c; end =>
program p; type t; component c; end; component c; data x t; object x; select c; end =>
program p; data x t; type t; component c; end; object x; select c; end =>";

const MISSING: &str =
    "program p; type t; component c; end; data x t; object x; select d; end => 8:N02
program p; type t; component c; end; data d; data x t; object x; select d; end => 9:N02
program p; type t; component c; end; type u; component d; end; data x t; object x; select d; end => 12:N02";

const LEVELS: &str =
    "program p; type t; component c; end; type u; component d t; end; data x u; object x; select d; select c; end =>
program p; type t; component c; end; type u; component d t; end; data x u; object x; select c; select c; end => 12:N02
program p; type t; component c; end; type u; component d t; end; data x u; object x; select d; select d; end => 13:N02
program p; type t; component c; end; data x t; object x; select c; select c; end =>";

const USED: &str =
    "module m; type t; component c; end; end; program p; use m; data x t; object x; select c; end =>
program p; use m; data x t; object x; select d; end; module m; type t; component c; end; end => 5:N02
module m; type t; component c; end; end; program p; use m; rename m l t; data x l; object x; select c; end =>
module m; type t; component c; end; end; program p; only m; rename m l t; type t; component d; end; data x l; object x; select d; end => 17:N02
module m; type t; component c; end; data x t; end; program p; only m; rename m y x; object y; select c; object y; select d; end => 15:N02
module m; type t; component c; end; contained f; type t; component d; end; data x t; object x; select c; end; end => 14:N02";

const BASES: &str = "program p; object x; select c; end => 2:N02
program p; type t; component c; end; object t; select c; end => 6:N08
program p; data x; object x; select c; end =>
program p; data x; object x; select c; select d; end =>
program p; data x t; object x; select c; end =>
program p; opaque h; data x h; object x; select c; end => 5:N02
program p; select c; end =>";

const PARENTHESES: &str =
    "program p; type t; component c; end; data x t; data i; object x; (; value i; ); select c; end =>
program p; type t; component c; end; data x t; data i; object x; (; value i; ); select d; end => 12:N02
program p; type t; component c; end; data x t; object x; (; object x; select d; ); (; value x; ); select c; end => 10:N02
program p; type t; component c; end; data x t; data i; object x; (; object i; select c; ); select c; end =>
program p; type t; component c; end; data x t; object x; value x; (; ); select d; end =>";

const ASSOCIATES: &str =
    "external f; type t; component c; end; announced x; typed x t; rank x x; object x; select c; end; end =>
external f; type t; component c; end; announced x; typed x t; rank x x; object x; select d; end; end => 11:N02
external f; type t; component c; end; typed x t; rank y x; rank z y; object z; select c; object z; select d; end; end; end => 14:N02
external f; data x; rank y x; object y; select c; end; end =>
external f; rank y x; object y; select c; end; end =>";

#[test]
fn components_that_are_there(rt: HostRuntime) -> Result<(), Fail> {
    check(&rt, rt.alloc(), Question::Rules, THERE)
}

#[test]
fn components_that_are_missing(rt: HostRuntime) -> Result<(), Fail> {
    check(&rt, rt.alloc(), Question::Rules, MISSING)
}

#[test]
fn components_of_components(rt: HostRuntime) -> Result<(), Fail> {
    check(&rt, rt.alloc(), Question::Rules, LEVELS)
}

#[test]
fn types_from_modules_and_hosts(rt: HostRuntime) -> Result<(), Fail> {
    check(&rt, rt.alloc(), Question::Rules, USED)
}

#[test]
fn what_is_no_data_object_of_derived_type(rt: HostRuntime) -> Result<(), Fail> {
    check(&rt, rt.alloc(), Question::Rules, BASES)
}

#[test]
fn selections_behind_parentheses(rt: HostRuntime) -> Result<(), Fail> {
    check(&rt, rt.alloc(), Question::Rules, PARENTHESES)
}

#[test]
fn associate_names_have_the_type_of_their_selector(rt: HostRuntime) -> Result<(), Fail> {
    check(&rt, rt.alloc(), Question::Rules, ASSOCIATES)
}
