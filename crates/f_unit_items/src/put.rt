//! What has items, and lists of it.

ghost use Rattle.std.specs.Prelude.{◌≡◌, OnOk, map};
ghost use Rattle.f_unit_items.specs.Fronts.{each};

use crate::items::Items;
use std::alloc::AllocError;

/// A tree that has items.
pub trait HasItems {
    ghost use Rattle.std.specs.Prelude.{◌≡◌, OnOk};
    ghost use Rattle.f_unit_items.specs.Fronts.{Front};

    /// The items in front of a rest.
    ghost items: { Self → Front };

    /// Puts the items in front.
    fn put(&self, out: &mut Items) -> Result<(), AllocError>
        ensures { OnOk result (out.new ≡ items self.now out.old) };
}

/// Puts the items of a list in front.
pub fn put_each<T: HasItems>(out: &mut Items, list: &[T]) -> Result<(), AllocError>
    ensures { OnOk result (out.new ≡ each (map T.items list.now) out.old) }
{
    let mut left = list.len();
    while left > 0 {
        left -= 1;
        list[left].put(out)?;
    }
    Ok(())
}
