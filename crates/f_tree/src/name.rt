use jf_base::{List, Place};

/// A name with its letters lowered (ISO/IEC 1539-1:2018, 6.2.2), and its place.
#[derive(Clone, PartialEq, Eq, Drop, Debug)]
pub struct Name {
    pub bytes: List<u8>,
    pub place: Place,
}
