//! Reading the first and the last statements of Fortran's program units and procedures from tokens (ISO/IEC 1539-1:2018, 5.2, 14.1, 14.2.1, 15.6.2).
#![tactic(auto)]

mod ending;
mod finish;
mod head;
mod suffix;

pub use ending::{end, joined_by};
pub use finish::finished;
pub use head::{head_behind, head_of};

#[cfg(test)]
mod tests;
