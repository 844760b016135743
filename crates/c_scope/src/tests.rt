//! Names that are shadowed and seen again.

use crate::Scope;
use std::alloc::{AllocError, Global};

const WORD: u32 = 7;

fn shadowed(alloc: Global) -> Result<bool, AllocError> {
    let mut scope = Scope::new(alloc);
    scope.bind(Some(WORD), true)?;
    let mark = scope.mark();
    scope.bind(Some(WORD), false)?;
    let inside = scope.is_type(WORD);
    scope.end(mark);
    Ok(!inside && scope.is_type(WORD) && !scope.is_type(WORD + 1))
}

#[test]
fn a_name_of_a_type_is_one_again_behind_the_block_that_shadows_it(rt: HostRuntime) {
    assert!(rt; matches!(shadowed(rt.alloc()), Ok(true)));
}
