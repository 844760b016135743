//! Units assembled and linked, and what each of their lines does in the machine's own steps. A function that does nothing has a theorem as its contract.
#![tactic(auto)]

mod image;
mod lines;
mod units;

pub use image::image_of;
pub use lines::{
    address_line, branch_line, call_line, jump_line, label_line, lines_in_code, plain_line,
};
pub use units::{
    assembled_units_link, closed_units_have_no_fault, fixes_hold, runs_begin, steps_keep_code,
};

#[cfg(test)]
mod tests;
