//! What tokens are equal to, and what digraphs mean.

use crate::{CSpanned, CToken, Mark};
use jf_base::{List, Place};
use std::alloc::{AllocError, Global};

fn name(alloc: Global, letter: u8) -> Result<CSpanned, AllocError> {
    let mut letters = List::from_vec(Vec::new(alloc));
    letters.push(letter)?;
    Ok(CSpanned {
        token: CToken::Id(letters),
        place: Place {
            file: 0,
            line: 1,
            column: 1,
        },
    })
}

fn differ(alloc: Global) -> Result<bool, AllocError> {
    let first = name(alloc, b'a')?;
    let copy = first.clone()?;
    Ok(first == copy && first != name(alloc, b'b')?)
}

#[test]
fn tokens_are_compared_by_their_spelling(rt: HostRuntime) {
    assert!(rt; matches!(differ(rt.alloc()), Ok(true)));
}

#[test]
fn digraphs_mean_what_they_stand_for(rt: HostRuntime) {
    assert!(rt; Mark::OpenBracketDigraph.meaning() == Mark::OpenBracket);
    assert!(rt; Mark::CloseBracketDigraph.meaning() == Mark::CloseBracket);
    assert!(rt; Mark::OpenBraceDigraph.meaning() == Mark::OpenBrace);
    assert!(rt; Mark::CloseBraceDigraph.meaning() == Mark::CloseBrace);
    assert!(rt; Mark::Less.meaning() == Mark::Less);
}
