//! What references denote: the place of the first item that declares it, of another behind a comma, or that it is none.

use super::{Question, check};
use std::test::Fail;

const BY_USE: &str =
    "module m; data a; data b; end; program p; only m; take m a; value a; value b; end => 9>2 10>none
module m; data a; data b; end; program p; use m; rename m l a; value l; value a; value b; end => 9>2 10>none 11>3
module m; data a; data b; private b; end; program p; use m; value a; value b; end => 9>2 10>none
module m; data a; data b; private; public b; end; program p; use m; value a; value b; end => 10>none 11>3
module m; data a; end; module n; data a; end; program p; use m; use n; value a; end => 12>2,6
module a; data x; end; module b; use a; end; program p; use b; value x; end => 11>2
module a; data x; end; module b; use a; end; program p; use a; use b; value x; end => 12>2
program p; use m; value a; end; module m; data a; end => 3>7";

const BY_HOST: &str =
    "module m; data a; contained f; data a; value a; end; contained g; value a; end; end => 6>5 10>2
module m; type t; end; body f; of t; end; body g; import t; of t; end; body h; import; of t; end; end => 7>none 12>3 17>3
procedure abs; module m; body f; value abs; end; end => 5>0
procedure abs; module m; data abs; contained f; value abs; end; end => 6>3
module m; type t; component c; end; value c; end => 6>none";

#[test]
fn names_by_use_association(rt: HostRuntime) -> Result<(), Fail> {
    check(&rt, rt.alloc(), Question::Names, BY_USE)
}

#[test]
fn names_of_scopes_around(rt: HostRuntime) -> Result<(), Fail> {
    check(&rt, rt.alloc(), Question::Names, BY_HOST)
}
