use jf_base::List;

/// What stands for one dimension in a reference to elements: one subscript, a subscript triplet, or a vector subscript.
#[derive(Drop, PartialEq, Debug)]
pub enum Sub {
    One(i64),
    Triplet { first: i64, last: i64, stride: i64 },
    Vector(List<i64>),
}
