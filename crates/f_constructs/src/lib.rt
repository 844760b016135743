//! Trees of action statements and constructs, put together from statements one by one (ISO/IEC 1539-1:2018, 11.1).
#![tactic(auto)]

mod begin;
mod divide;
mod do_construct;
mod execution;
mod frame;
mod head;
mod if_construct;
mod nest;
mod select_case;
mod select_rank;
mod stack;

pub use execution::Execution;
