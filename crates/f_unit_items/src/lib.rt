//! The items of Fortran's program units: each name in the order of the text, with what it is declared as or has to be, and the begin and end of each
//! scope (ISO/IEC 1539-1:2018, 19).
#![tactic(auto)]

mod action;
mod declaration;
mod definition;
mod expression;
mod head;
mod items;
mod put;
mod specification;
mod statement;
mod unit;

pub use unit::items_of;
