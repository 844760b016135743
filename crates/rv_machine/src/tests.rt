use crate::alu;
use crate::event::{Event, TrapKind};
use crate::machine::Machine;
use jf_base::{Limits, List};
use program_image::Image;
use std::alloc::Global;
use std::process::Abort;
use std::test::Fail;

fn image(alloc: Global, words: &[u32], entry: u64) -> Result<Image, Fail> {
    let mut bytes = Vec::new(alloc);
    for word in words {
        bytes.extend_from_slice(&word.to_le_bytes())?;
    }
    let code_len = bytes.len() as u64;
    Ok(Image {
        bytes: List::from_vec(bytes),
        code_len,
        entry,
    })
}

/// The events of the first steps of an image, each given no byte.
fn last_event(alloc: Global, words: &[u32], entry: u64, steps: u64) -> Result<Event, Fail> {
    let image = image(alloc, words, entry)?;
    let mut machine = Machine::load(alloc, &image, Limits::standard())
        .ok()
        .ok_or("no memory")?;
    let mut event = Event::Ran;
    for _ in 0..steps {
        event = machine.step(None);
    }
    Ok(event)
}

fn assert_traps(
    rt: &impl Abort,
    alloc: Global,
    words: &[u32],
    entry: u64,
    kind: TrapKind,
) -> Result<(), Fail> {
    let steps = words.len() as u64;
    let wanted = Event::Trap(kind);
    assert_eq!(rt;
        last_event(alloc, words, entry, steps)?,
        wanted,
        "{words:?} from {entry}"
    );
    assert_eq!(rt;
        last_event(alloc, words, entry, steps + 1)?,
        wanted,
        "{words:?} from {entry}"
    );
    Ok(())
}

// Images of one or two words that no compiler makes: the event of the last step, and of the one behind it.
#[test]
fn traps(rt: HostRuntime) -> Result<(), Fail> {
    let alloc = rt.alloc();
    // no instruction; ECALL with 0 in a7; EBREAK
    assert_traps(&rt, alloc, &[0x0000_0000], 0, TrapKind::Word)?;
    assert_traps(&rt, alloc, &[0x0000_0073], 0, TrapKind::Call)?;
    assert_traps(&rt, alloc, &[0x0010_0073], 0, TrapKind::Break)?;
    // LD from 4, which is misaligned and outside; LW from 0, which is outside
    assert_traps(&rt, alloc, &[0x0040_3083], 0, TrapKind::Align)?;
    assert_traps(&rt, alloc, &[0x0000_2083], 0, TrapKind::Range)?;
    // LUI x1, 16, and SW to 65,536, which is code
    assert_traps(&rt, alloc, &[0x0001_00b7, 0x0000_a023], 0, TrapKind::Range)?;
    // a fetch at a place that isn't a multiple of 4, at the end of the code, and before it
    assert_traps(&rt, alloc, &[0x0000_0013], 2, TrapKind::Align)?;
    assert_traps(&rt, alloc, &[0x0000_0013], 4, TrapKind::Range)?;
    assert_traps(
        &rt,
        alloc,
        &[0x0000_0013],
        0xffff_ffff_ffff_fffc,
        TrapKind::Range,
    )?;
    // a fetch of a word that the code has half of
    let mut image = image(alloc, &[0x0000_0013], 0)?;
    image.code_len = 2;
    let mut machine = Machine::load(alloc, &image, Limits::standard())
        .ok()
        .ok_or("no memory")?;
    assert_eq!(rt; machine.step(None), Event::Trap(TrapKind::Range));
    Ok(())
}

#[test]
fn runs(rt: HostRuntime) -> Result<(), Fail> {
    let alloc = rt.alloc();

    // the bytes FE, 0, 0 and 12 are the word 120000FE
    let words = [
        0xffe0_0293,
        0x0055_0023,
        0x0120_0313,
        0x0065_01a3,
        0x0005_2503,
        0x05d0_0893,
        0x0000_0073,
    ];
    assert_eq!(rt; last_event(alloc, &words, 0, 7)?, Event::Exit(0x1200_00fe));

    // behind 12 bytes the frames begin at 65,536 + 16, and x2 is their end
    let words = [0x0001_0513, 0x05d0_0893, 0x0000_0073];
    assert_eq!(rt;
        last_event(alloc, &words, 0, 3)?,
        Event::Exit(65_552 + 1_048_576 + 8192)
    );

    // x0 stays 0
    let words = [0x0070_0013, 0x0000_0513, 0x05d0_0893, 0x0000_0073];
    assert_eq!(rt; last_event(alloc, &words, 0, 4)?, Event::Exit(0));

    // limit 1, and one that there isn't
    let words = [0x0010_0513, 0x05e0_0893, 0x0000_0073];
    assert_eq!(rt; last_event(alloc, &words, 0, 3)?, Event::Limited(1));
    let words = [0x0020_0513, 0x05e0_0893, 0x0000_0073];
    assert_eq!(rt;
        last_event(alloc, &words, 0, 3)?,
        Event::Trap(TrapKind::Call)
    );
    Ok(())
}

// ADDIW makes the int -1 in a0, all of whose upper 32 bits are ones.
#[test]
fn minus_one_is_all_ones(rt: HostRuntime) -> Result<(), Fail> {
    let words = [0xfff0_051b, 0x0205_5513, 0x05d0_0893, 0x0000_0073];
    assert_eq!(rt; last_event(rt.alloc(), &words, 0, 4)?, Event::Exit(-1));
    Ok(())
}

// A byte is asked for and given back, and the end of the input is the stop code.
#[test]
fn calls(rt: HostRuntime) -> Result<(), Fail> {
    let alloc = rt.alloc();
    let words = [
        0x03f0_0893,
        0x0000_0073,
        0x0400_0893,
        0x0000_0073,
        0x03f0_0893,
        0x0000_0073,
        0x05d0_0893,
        0x0000_0073,
    ];
    let image = image(alloc, &words, 0)?;
    let mut machine = Machine::load(alloc, &image, Limits::standard())
        .ok()
        .ok_or("no memory")?;
    let steps = [
        (Some(1), Event::Ran),
        (Some(2), Event::WantByte),
        (Some(65), Event::Ran),
        (None, Event::Ran),
        (None, Event::GiveByte(65)),
        (None, Event::Ran),
        (None, Event::WantByte),
        (None, Event::Ran),
        (None, Event::Ran),
        (None, Event::Exit(-1)),
        (Some(3), Event::Exit(-1)),
    ];
    for (given, event) in steps {
        assert_eq!(rt; machine.step(given), event);
    }
    Ok(())
}

const LEAST: u64 = 1 << 63;

const ONES: u64 = u64::MAX;

// The table of the specification's section on division, and signs of quotients and remainders.
#[test]
fn divides(rt: HostRuntime) {
    for (a, b, quotient, remainder) in [
        (7, 0, ONES, 7),
        (LEAST, ONES, LEAST, 0),
        (ONES - 6, 2, ONES - 2, ONES),
        (7, ONES - 1, ONES - 2, 1),
    ] {
        assert_eq!(rt; alu::quotient_signed(a, b), quotient, "{a} over {b}");
        assert_eq!(rt; alu::remainder_signed(a, b), remainder, "{a} over {b}");
    }
    assert_eq!(rt; alu::quotient_unsigned(7, 0), ONES);
    assert_eq!(rt; alu::remainder_unsigned(7, 0), 7);
    assert_eq!(rt; alu::quotient_unsigned(LEAST, ONES), 0);
}

// The same of words: what is above the low 32 bits doesn't count, and the result has its sign above them.
#[test]
fn divides_words(rt: HostRuntime) {
    for (a, b, quotient, remainder) in [
        (0x1_8000_0005, 0x1_0000_0000, ONES, 0xffff_ffff_8000_0005),
        (0x8000_0000, 0xffff_ffff, 0xffff_ffff_8000_0000, 0),
        (0xffff_fff9, 2, ONES - 2, ONES),
    ] {
        assert_eq!(rt; alu::word_quotient_signed(a, b), quotient, "{a} over {b}");
        assert_eq!(rt; alu::word_remainder_signed(a, b), remainder, "{a} over {b}");
    }
    for (a, b, quotient, remainder) in [
        (0x1_8000_0005, 0x1_0000_0000, ONES, 0xffff_ffff_8000_0005),
        (0x8000_0000, 1, 0xffff_ffff_8000_0000, 0),
        (0xffff_fff9, 2, 0x7fff_fffc, 1),
    ] {
        assert_eq!(rt; alu::word_quotient_unsigned(a, b), quotient, "{a} over {b}");
        assert_eq!(rt;
            alu::word_remainder_unsigned(a, b),
            remainder,
            "{a} over {b}"
        );
    }
}

// The upper halves of products, and words.
#[test]
fn multiplies(rt: HostRuntime) {
    assert_eq!(rt; alu::high_product_signed(ONES, ONES), 0);
    assert_eq!(rt; alu::high_product_signed(LEAST, LEAST), 1 << 62);
    assert_eq!(rt; alu::high_product_signed(LEAST, 1), ONES);
    assert_eq!(rt; alu::high_product_mixed(ONES, ONES), ONES);
    assert_eq!(rt; alu::high_product_mixed(1, ONES), 0);
    assert_eq!(rt; alu::high_product_unsigned(ONES, ONES), ONES - 1);
    assert_eq!(rt; alu::product_of(ONES, ONES), 1);
    assert_eq!(rt; alu::word_product(0x1_8000_0000, 3), 0xffff_ffff_8000_0000);
}

// A shift is by the low 6 bits of its amount, that of a word by the low 5.
#[test]
fn shifts(rt: HostRuntime) {
    assert_eq!(rt; alu::shifted_left(3, 65), 6);
    assert_eq!(rt; alu::shifted_right(LEAST, 127), 1);
    assert_eq!(rt; alu::shifted_right_signed(LEAST, 63), ONES);
    assert_eq!(rt; alu::word_shifted_left(3, 0x3f), 0xffff_ffff_8000_0000);
    assert_eq!(rt;
        alu::word_shifted_right(0x8000_0000, 32),
        0xffff_ffff_8000_0000
    );
    assert_eq!(rt; alu::word_shifted_right_signed(0x1_8000_0000, 31), ONES);
    assert_eq!(rt;
        alu::word_shifted_right_signed(0x8000_0000_4000_0000, 30),
        1
    );
}
