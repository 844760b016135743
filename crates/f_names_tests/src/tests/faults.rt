//! The rules that items break, each with the place of the item.

use super::{Question, check};
use std::test::Fail;

const OF_DECLARATIONS: &str = "program p; data a; data a; end => 3:N01
module m; data a; end; program p; use m; data a; end => 7:N01
module m; data a; body f; import a; data a; end; end => 6:N01
program p; announced a; typed a; end =>
program p; announced a; end => 2:N02
program p; untyped; end => 2:N07
program p; value b; data a; data a; end => 2:N02 4:N01";

const OF_USE: &str = "program p; use m; end => 2:N04
module m; end; program p; intrinsic m; end => 5:N04
module iso_c_binding; end; program p; intrinsic iso_c_binding; end =>
module m; end; program p; only m; take m a; end => 6:N02
module m; data a; private a; end; program p; only m; take m a; end => 8:N03
module m; data a; end; module n; data a; end; program p; use m; use n; value a; end => 12:N06
module m; data a; end; module n; data a; end; program p; use m; use n; end =>";

const OF_REFERENCES: &str = "program p; value a; end => 2:N02
module m; type t; end; call t; end => 5:N08
module m; type t; end; of t; end =>
program p; value p; end => 2:N08
module m; private m; end => 2:N08
module m; private a; end => 2:N02
module m; body f; import a; end; end => 4:N02
module m; type t; end; body f; of t; end; end => 7:N02";

#[test]
fn what_declarations_break(rt: HostRuntime) -> Result<(), Fail> {
    check(&rt, rt.alloc(), Question::Rules, OF_DECLARATIONS)
}

#[test]
fn what_use_statements_break(rt: HostRuntime) -> Result<(), Fail> {
    check(&rt, rt.alloc(), Question::Rules, OF_USE)
}

#[test]
fn what_references_break(rt: HostRuntime) -> Result<(), Fail> {
    check(&rt, rt.alloc(), Question::Rules, OF_REFERENCES)
}
