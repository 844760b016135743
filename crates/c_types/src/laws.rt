ghost use Rattle.std.specs.Prelude.{◌≡◌, ℕ, Bool, true};
ghost use Rattle.c_types.specs.Compatible.{ComparesByMembers, across_by, are_compatible, compatible_by, layouts_alike};
ghost use Rattle.c_types.specs.Sizes.{layout_at};

use crate::ctype::CType;
use crate::table::Types;

/// A law: each type is compatible with itself, in its file and beside a second file with the same table.
pub fn compatible_with_itself(t: &Types, a: &CType)
    ensures one_file { are_compatible t.now a.now None a.now ≡ true }
    ensures two_files { are_compatible t.now a.now (Some t.now) a.now ≡ true }
{}

/// A law: which of two types stands first makes no difference. (It isn't transitive: an incomplete struct is compatible
/// with every struct of another file.)
pub fn compatible_either_way(t: &Types, a: &CType, other: &Types, b: &CType)
    ensures one_file { are_compatible t.now a.now None b.now ≡ are_compatible t.now b.now None a.now }
    ensures two_files { are_compatible t.now a.now (Some other.now) b.now ≡ are_compatible other.now b.now (Some t.now) a.now }
{}

/// A law: two structs of two files are compatible exactly where one is incomplete or both have as many members that are
/// themselves compatible in order. So the depth in the definition is never reached.
pub fn structs_compare_by_members(t: &Types, s: u32, other: &Types, u: u32)
    ensures { are_compatible t.now (CType.Struct s) (Some other.now) (CType.Struct u) ≡ layouts_alike (λ a b. are_compatible t.now a (Some other.now) b) (layout_at t.now s) (layout_at other.now u) }
{
    t.completed_in_order();
    other.completed_in_order();
}

/// A law: each relation between the structs of two files that compares them by their members, and by itself the structs
/// that those hold, says of two types what the definition says.
pub fn one_relation_compares_by_members(t: &Types, other: &Types)
    ensures { (same : ℕ → ℕ → Bool) → ComparesByMembers t.now other.now same → (a b : CType) → are_compatible t.now a (Some other.now) b ≡ compatible_by (across_by same) a b }
{
    t.completed_in_order();
    other.completed_in_order();
}
