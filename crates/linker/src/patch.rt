//! Addresses put into bytes.
ghost use Rattle.std.specs.Prelude.{◌≡◌, ◌<◌, ◌≤◌, ◌+◌, ◌*◌, ◌%◌, ◌^◌, length, slice_index};
ghost use Rattle.jf_base.specs.Numbers.{number_low_first};
ghost use Rattle.rv_assemble.specs.Places.{IsInReach};
ghost use Rattle.linker.specs.Patched.{IsSameOutside, HasDistance};

use rv_assemble::parts_of;

fn low_four(b: &[u8], at: usize) -> u32
    requires { at + 4 ≤ length b.now }
    ensures { result ≡ number_low_first at 4 b.now }
{
    b[at] as u32 + 256 * (b[at + 1] as u32 + 256 * (b[at + 2] as u32 + 256 * b[at + 3] as u32))
}

/// Puts a word of 32 bits at a place, the lowest byte first.
fn put_four(b: &mut [u8], at: usize, word: u32)
    requires { at + 4 ≤ length b.old }
    ensures word { number_low_first at 4 b.new ≡ word }
    ensures same { IsSameOutside b.old b.new at 4 }
{
    b[at] = (word % 256) as u8;
    b[at + 1] = (word / 256 % 256) as u8;
    b[at + 2] = (word / 65536 % 256) as u8;
    b[at + 3] = (word / 16777216) as u8;
}

/// Puts an address of 64 bits at a place, the lowest byte first.
pub(crate) fn put_word(b: &mut [u8], at: usize, address: u64)
    requires { at + 8 ≤ length b.old }
    ensures word { number_low_first at 8 b.new ≡ address }
    ensures same { IsSameOutside b.old b.new at 8 }
{
    put_four(b, at, (address % 4294967296) as u32);
    put_four(b, at + 4, (address / 4294967296) as u32);
}

/// Puts a distance into an AUIPC and the instruction behind it.
pub(crate) fn put_distance(b: &mut [u8], at: usize, far: u64)
    requires inside { at + 8 ≤ length b.old }
    requires far { IsInReach far }
    ensures distance { HasDistance b.old b.new at far }
    ensures same { IsSameOutside b.old b.new at 8 }
{
    let (high, low) = parts_of(far);
    let first = low_four(b, at);
    let second = low_four(b, at + 4);
    put_four(b, at, first % 4096 + (high % 4294967296) as u32);
    put_four(b, at + 4, second % 1048576 + 1048576 * (low % 4096) as u32);
}
