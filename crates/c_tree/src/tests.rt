//! How tightly operators bind, and where a token of a unit stands.

use crate::{BinaryOperator, CUnit, Height};
use jf_base::{List, Place};
use std::alloc::{AllocError, Global};

#[test]
fn each_operator_has_its_production(rt: HostRuntime) {
    assert!(rt; BinaryOperator::Remainder.height() == Height::Multiplicative);
    assert!(rt; BinaryOperator::ShiftRight.height() == Height::Shift);
    assert!(rt; BinaryOperator::GreaterEqual.height() == Height::Relational);
    assert!(rt; BinaryOperator::NotEqual.height() == Height::Equality);
    assert!(rt; BinaryOperator::Or.height() == Height::Or);
}

const PLACE: Place = Place {
    file: 2,
    line: 3,
    column: 4,
};

fn unit(alloc: Global) -> Result<CUnit, AllocError> {
    let mut places = List::from_vec(Vec::new(alloc));
    places.push(PLACE)?;
    Ok(CUnit {
        names: List::from_vec(Vec::new(alloc)),
        literals: List::from_vec(Vec::new(alloc)),
        places,
        externals: List::from_vec(Vec::new(alloc)),
    })
}

#[test]
fn a_unit_tells_the_places_of_its_tokens(rt: HostRuntime) {
    match unit(rt.alloc()) {
        Err(_) => assert!(rt; false),
        Ok(unit) => {
            assert!(rt; unit.place(0) == Some(PLACE));
            assert!(rt; unit.place(1) == None);
        }
    }
}
