//! Initial values.

use super::statements::declaration;
use super::{HERE, NOWHERE, name, one, string, unit};
use c_resolved::{BlockItem, Denoted, Initializer, is_resolved};
use jf_base::Memory;
use std::alloc::Global;

fn initialized(alloc: Global, value: Result<Initializer, Memory>) -> Result<bool, Memory> {
    let declared = BlockItem::Declaration(declaration(alloc, 1, value?)?);
    Ok(is_resolved(&unit(alloc, one(alloc, declared)?)?))
}

fn text(alloc: Global, literal: u32) -> Result<Initializer, Memory> {
    Ok(Initializer::Text(string(alloc, literal)?))
}

fn braced(alloc: Global, what: Denoted) -> Result<Initializer, Memory> {
    let item = Initializer::Value(name(alloc, what)?);
    Ok(Initializer::Aggregate {
        items: one(alloc, item)?,
        at: 1,
    })
}

#[test]
fn initial_values_are_looked_at(rt: HostRuntime) {
    let alloc = rt.alloc();
    assert!(rt; initialized(alloc, braced(alloc, HERE)) == Ok(true));
    assert!(rt; initialized(alloc, braced(alloc, NOWHERE)) == Ok(false));
    assert!(rt; initialized(alloc, text(alloc, 1)) == Ok(true));
    assert!(rt; initialized(alloc, text(alloc, 2)) == Ok(false));
}
