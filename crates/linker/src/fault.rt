//! Why units can't be linked.
ghost use Rattle.std.specs.Prelude.{◌≡◌, ◌<◌, length, IfOk};
ghost use Rattle.std.specs.Cmp.Lexicographic.{slice_cmp};
ghost use Rattle.std.specs.Ordering.{nat_cmp, is_lt};
ghost use Rattle.linker.specs.First.{IsFirst};
ghost use Rattle.linker.specs.Told.{Tells};

use jf_base::Text;
use std::alloc::AllocError;
use thiserror::Error;

/// Why units can't be linked: memory was wanting, or the name, the first such in the order of bytes, has no definition or two.
#[derive(Drop, Debug, Error)]
pub enum LinkFault {
    #[error("no memory is left")]
    Memory,
    #[error("{} has no definition", .0.as_str())]
    Missing(Text),
    #[error("{} has two definitions", .0.as_str())]
    Twice(Text),
}

impl From<AllocError> for LinkFault {
    ghost use Rattle.std.specs.Prelude.{◌≡◌};
    ghost use Rattle.linker.specs.declared.fault.LinkFault.TheVariants.{Memory};

    ghost from_gives = { λ _ fault. fault ≡ Memory };

    fn from(_error: AllocError) -> LinkFault {
        LinkFault::Memory
    }
}

/// Whether a name stands before another in the order of bytes.
fn is_before(name: &Text, other: &Text) -> bool
    ensures { result ≡ is_lt (slice_cmp nat_cmp name.now other.now) }
{
    name.as_str().cmp(other.as_str()).is_lt()
}

/// The first of names in the order of bytes.
fn first_of(names: &[Text]) -> &Text
    requires { 0 < length names.now }
    ensures { IsFirst names.now result.now }
{
    let mut first = 0;
    for (i, name) in names.iter().enumerate() {
        if is_before(name, &names[first]) {
            first = i;
        }
    }
    &names[first]
}

/// The fault of the first of all these names, and none where there are no names.
pub(crate) fn fault_of(missing: &[Text], twice: &[Text]) -> Result<Option<LinkFault>, AllocError>
    ensures { IfOk result (λ fault. Tells missing.now twice.now fault) }
{
    if missing.is_empty() {
        if twice.is_empty() {
            return Ok(None);
        }
        return Ok(Some(LinkFault::Twice(first_of(twice).clone()?)));
    }
    let lost = first_of(missing);
    if !twice.is_empty() {
        let again = first_of(twice);
        if is_before(again, lost) {
            return Ok(Some(LinkFault::Twice(again.clone()?)));
        }
    }
    Ok(Some(LinkFault::Missing(lost.clone()?)))
}
