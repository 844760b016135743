//! The statements of Fortran's specification parts and those that begin, divide and end units, one by one (ISO/IEC 1539-1:2018, 5.2, 7.5, 8, 14 and
//! 15), and how the trees of declarations are seen without their places.
#![tactic(auto)]

mod statement;

pub use statement::{Declared, Ended, TypeStart};
