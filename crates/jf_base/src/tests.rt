use crate::{Tag, Width, bytes_of, fit, number_of, tag_text, wrap};

#[test]
fn numbers_fit_their_width(rt: HostRuntime) {
    for (v, w, signed, want) in [
        (-129i128, Width::W1, true, false),
        (-128, Width::W1, true, true),
        (127, Width::W1, true, true),
        (128, Width::W1, true, false),
        (-1, Width::W1, false, false),
        (255, Width::W1, false, true),
        (256, Width::W1, false, false),
        (-32769, Width::W2, true, false),
        (65535, Width::W2, false, true),
        (-2147483648, Width::W4, true, true),
        (2147483648, Width::W4, true, false),
        (4294967295, Width::W4, false, true),
        (9223372036854775807, Width::W8, true, true),
        (9223372036854775808, Width::W8, true, false),
        (18446744073709551616, Width::W8, false, false),
    ] {
        assert_eq!(rt; fit(v, w, signed), want, "{v} in {w:?}");
    }
}

#[test]
fn numbers_wrap_as_twos_complement(rt: HostRuntime) {
    for (v, w, signed, want) in [
        (300i128, Width::W1, false, 44i128),
        (256, Width::W1, false, 0),
        (-1, Width::W1, false, 255),
        (127, Width::W1, true, 127),
        (128, Width::W1, true, -128),
        (40000, Width::W2, true, -25536),
        (-32769, Width::W2, true, 32767),
        (4294967295, Width::W4, true, -1),
        (-1, Width::W8, false, 18446744073709551615),
        (9223372036854775808, Width::W8, true, -9223372036854775808),
    ] {
        assert_eq!(rt; wrap(v, w, signed), want, "{v} in {w:?}");
    }
}

#[test]
fn bytes_stand_lowest_first(rt: HostRuntime) {
    for (v, w, want) in [
        (258i128, Width::W2, [2, 1, 0, 0, 0, 0, 0, 0]),
        (0x12345678, Width::W1, [0x78, 0, 0, 0, 0, 0, 0, 0]),
        (0x12345678, Width::W4, [0x78, 0x56, 0x34, 0x12, 0, 0, 0, 0]),
        (-2, Width::W4, [254, 255, 255, 255, 0, 0, 0, 0]),
        (
            0x0123456789abcdef,
            Width::W8,
            [0xef, 0xcd, 0xab, 0x89, 0x67, 0x45, 0x23, 0x01],
        ),
    ] {
        assert_eq!(rt; bytes_of(v, w), want, "{v} in {w:?}");
    }
    assert_eq!(rt; number_of(&[128], Width::W1, true), -128);
    assert_eq!(rt; number_of(&[0x34, 0x12], Width::W2, false), 0x1234);
    assert_eq!(rt; number_of(&[254, 255, 255, 255], Width::W4, true), -2);
    assert_eq!(rt;
        number_of(&[254, 255, 255, 255], Width::W4, false),
        4294967294
    );
    assert_eq!(rt;
        number_of(
            &[0xef, 0xcd, 0xab, 0x89, 0x67, 0x45, 0x23, 0x01],
            Width::W8,
            true
        ),
        0x0123456789abcdef
    );
}

#[test]
fn tags_are_a_letter_and_two_digits(rt: HostRuntime) {
    assert_eq!(rt; tag_text(Tag(101)), *b"L01");
    assert_eq!(rt; tag_text(Tag(432)), *b"F32");
    assert_eq!(rt; tag_text(Tag(510)), *b"P10");
    assert_eq!(rt; tag_text(Tag(908)), *b"V08");
    assert_eq!(rt; tag_text(Tag(1001)), *b"X01");
}
