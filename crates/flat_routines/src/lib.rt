//! Routines in flat code that move bytes, and what each does: as trees of flat code, proved over the meaning of flat code.
#![tactic(auto)]

mod laws;

pub use laws::{
    copy_bytes_copies, count_elements_counts, elements_are_those_of_the_view, gather_gathers,
    moving_is_linear, positions_are_an_order, scatter_scatters,
};
