use crate::axes::Axes;

/// An array: where its first element begins, the bytes of an element, and its dimensions, the first one varying fastest.
#[derive(Drop, PartialEq)]
pub struct ArrayView {
    pub base: i64,
    pub len: u64,
    pub dims: Axes,
}
