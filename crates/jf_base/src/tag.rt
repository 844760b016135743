ghost use Rattle.std.specs.Prelude.{◌≡◌, ◌<◌, ◌-◌, ◌/◌};
ghost use Rattle.jf_base.specs.Tags.{IsTag, tag_bytes, group_letters};

/// The number of a broken rule: 100 times the group of rules, counted from 1, and the rule's number in its group.
#[derive(Clone, Copy, PartialEq, Eq, Debug)]
pub struct Tag(pub u16);

/// The letters of the groups of rules, in order.
const GROUP_LETTERS: [u8; 10] = *b"LSNFPGCMVX";

/// The three characters that a tag is shown by, as `L01`.
pub fn tag_text(tag: Tag) -> [u8; 3]
    requires { IsTag tag.0 }
    ensures { result ≡ tag_bytes tag.0 }
{
    let letter = GROUP_LETTERS[tag.0 as usize / 100 - 1];
    [
        letter,
        b'0' + (tag.0 % 100 / 10) as u8,
        b'0' + (tag.0 % 10) as u8,
    ]
}
