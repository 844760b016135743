//! Relocations resolved.
ghost use Rattle.std.specs.Prelude.{◌≡◌, ◌<◌, ◌≤◌, ◌+◌, ℕ, length, Some, slice_get};
ghost use Rattle.rv_assemble.specs.declared.object.ObjUnit.{ObjUnit};
ghost use Rattle.linker.specs.Layout.{laid};
ghost use Rattle.linker.specs.Patched.{IsSameOutside};
ghost use Rattle.linker.specs.Linked.{HasTarget, NameLies, AreLinkable};
ghost use Rattle.linker.specs.Resolving.{IsReady, HasDefinition, StaysWithin, CanResolve, IsPatched, AreAnswered, IsDone};

use crate::names::Names;
use crate::offsets::{Start, offset_in};
use crate::patch::{put_distance, put_word};
use rv_assemble::{ObjUnit, Relocation, RelocationKind};

/// The address of an image's first byte.
const BASE: u64 = 65536;

/// The offset of a name's definition with so many bytes more.
pub(crate) fn target_of(
    units: &[ObjUnit],
    starts: &[Start],
    table: &Names,
    name: &str,
    more: u64,
) -> u64
    requires ready { IsReady units.now starts.now table.now }
    requires defined { HasDefinition table.now name.now }
    requires within { StaysWithin units.now name.now more }
    ensures { NameLies units.now name.now more result }
{
    let definition = table.find(name).unwrap();
    let k = definition.unit as usize;
    offset_in(&units[k], &starts[k], definition.place + more)
}

/// Puts a target where it is asked for.
fn put_target(bytes: &mut [u8], at: u64, target: u64, kind: RelocationKind)
    requires at { at + 8 ≤ length bytes.old }
    requires target { target ≤ length bytes.old }
    requires small { length bytes.old < 2000000000 }
    ensures has { HasTarget bytes.old bytes.new at target kind }
    ensures same { IsSameOutside bytes.old bytes.new at 8 }
{
    match kind {
        RelocationKind::Pair => put_distance(bytes, at as usize, target.wrapping_sub(at)),
        RelocationKind::Word => put_word(bytes, at as usize, BASE + target),
    }
}

/// Resolves a relocation of the k-th unit.
fn resolve(
    bytes: &mut [u8],
    units: &[ObjUnit],
    starts: &[Start],
    table: &Names,
    k: usize,
    r: &Relocation,
)
    requires ready { IsReady units.now starts.now table.now }
    requires unit { k < length units.now }
    requires can { CanResolve units.now table.now k r.now }
    requires len { length bytes.old ≡ length (laid units.now) }
    ensures { (u : ObjUnit) → slice_get units.now k ≡ Some u → IsPatched units.now bytes.old bytes.new k u r.now }
{
    let target = target_of(units, starts, table, r.name.as_str(), r.offset);
    let at = offset_in(&units[k], &starts[k], r.at);
    put_target(bytes, at, target, r.kind);
}

/// Resolves what the k-th unit asks for.
fn resolve_unit(bytes: &mut [u8], units: &[ObjUnit], starts: &[Start], table: &Names, k: usize)
    requires ready { IsReady units.now starts.now table.now }
    requires linkable { AreLinkable units.now }
    requires answered { AreAnswered units.now table.now }
    requires unit { k < length units.now }
    requires done { IsDone units.now bytes.old k 0 }
    ensures { IsDone units.now bytes.new (k + 1) 0 }
{
    for r in units[k].relocations.as_slice() {
        resolve(bytes, units, starts, table, k, r);
    }
}

/// Resolves all relocations in the bytes as they were assembled.
pub(crate) fn resolve_all(bytes: &mut [u8], units: &[ObjUnit], starts: &[Start], table: &Names)
    requires ready { IsReady units.now starts.now table.now }
    requires linkable { AreLinkable units.now }
    requires answered { AreAnswered units.now table.now }
    requires laid { bytes.old ≡ laid units.now }
    ensures { IsDone units.now bytes.new (length units.now) 0 }
{
    for k in 0..units.len() {
        resolve_unit(bytes, units, starts, table, k);
    }
}
