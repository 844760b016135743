//! Arrays as their elements see them: sections as lists of offsets, the first dimension varying fastest, and whether elements lie side by side.
#![tactic(auto)]

mod axes;
mod bounds;
mod contiguous;
mod laws;
mod offsets;
mod subscript;
mod triplet;
mod view;

pub use axes::{Axes, AxisDim};
pub use contiguous::is_contiguous;
pub use laws::{strides_lead_to_the_elements, triplets_end_at_the_last};
pub use offsets::section;
pub use subscript::Sub;
pub use view::ArrayView;

#[cfg(test)]
mod tests;
