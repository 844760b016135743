//! Small programs, what they do by units, and what their blocks do by steps.
#![tactic(auto)]

mod laws;
#[cfg(test)]
mod tests;

pub use laws::{
    a_call_of_itself_ends_at_the_limit_of_frames, a_value_set_on_one_path_alone_is_not_set,
    each_kind_of_statement_does_its_work, two_loops_are_left_at_once,
};
