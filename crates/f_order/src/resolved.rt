//! A program whose USE statements are resolved, with the order of its units.

ghost use Rattle.std.specs.Prelude.{IfOk};
ghost use Rattle.f_order.specs.Resolved.{IsResolution};

use crate::order::{UnitOrder, order_units};
use crate::scopes::order_scopes;
use crate::units::unit_table;
use f_stated::Stated;
use f_use::{Associated, associate};
use std::alloc::{AllocError, Global};

/// A program with the names that each scope gets by USE statements, the unit of each scope, and the units in their order.
#[derive(Drop)]
pub struct Resolved {
    pub program: Associated,
    pub units: Vec<usize>,
    pub order: Vec<usize>,
}

/// A resolved program, or why it can't be resolved.
#[derive(Drop)]
pub enum Resolution {
    /// The first item of a USE statement on a cycle of modules, counted from 0: N05.
    OnCycle(usize),
    Resolved(Resolved),
}

/// Resolves the USE statements of a program, units in order.
pub fn resolve(alloc: Global, stated: Stated) -> Result<Resolution, AllocError>
    ensures { IfOk result (λ resolution. IsResolution stated resolution) }
{
    let units = unit_table(alloc, stated.program())?;
    match order_units(alloc, stated.program(), units.as_slice())? {
        UnitOrder::OnCycle(place) => Ok(Resolution::OnCycle(place)),
        UnitOrder::Ordered(order) => {
            let scopes = order_scopes(alloc, stated.program(), units.as_slice(), order.as_slice())?;
            let program = associate(alloc, stated, scopes.as_slice())?;
            Ok(Resolution::Resolved(Resolved {
                program,
                units,
                order,
            }))
        }
    }
}
