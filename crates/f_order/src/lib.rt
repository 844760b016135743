//! The order in which the units of a Fortran program are looked at: modules first, each behind those that it uses, and where modules use one another in a
//! cycle, the first USE statement on one; and an order of all scopes in which each stands behind the modules that it uses.
#![tactic(auto)]

mod cycle;
mod graph;
mod marks;
mod order;
mod reach;
mod ready;
mod resolved;
mod scopes;
mod units;

pub use order::{UnitOrder, order_units};
pub use resolved::{Resolution, Resolved, resolve};
pub use scopes::order_scopes;
pub use units::{Edge, unit_at, unit_table};
