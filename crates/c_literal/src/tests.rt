//! Spellings and what they stand for.

use crate::{
    ConstantType, IntegerConstant, LongSuffix, Radix, between_quotes, character_constant,
    integer_constant, is_string_literal, string_literal,
};
use jf_base::List;
use std::alloc::{AllocError, Global};

fn has(spelling: &str, value: u64, kind: ConstantType) -> bool {
    match integer_constant(spelling.as_bytes()) {
        None => false,
        Some(constant) => constant.value == value && constant.kind() == kind,
    }
}

fn is_none(spelling: &str) -> bool {
    integer_constant(spelling.as_bytes()).is_none()
}

#[test]
fn decimal_constants_are_int_long_or_unsigned_long(rt: HostRuntime) {
    assert!(rt; has("1", 1, ConstantType::Int));
    assert!(rt; has("2147483647", 2147483647, ConstantType::Int));
    assert!(rt; has("2147483648", 2147483648, ConstantType::Long));
    assert!(rt;
        has(
            "9223372036854775807",
            9223372036854775807,
            ConstantType::Long
        )
    );
    assert!(rt;
        has(
            "9223372036854775808",
            9223372036854775808,
            ConstantType::UnsignedLong
        )
    );
    assert!(rt;
        has(
            "18446744073709551615",
            18446744073709551615,
            ConstantType::UnsignedLong
        )
    );
    assert!(rt; is_none("18446744073709551616"));
}

#[test]
fn octal_and_hexadecimal_constants_may_be_unsigned(rt: HostRuntime) {
    assert!(rt; has("0", 0, ConstantType::Int));
    assert!(rt; has("017", 15, ConstantType::Int));
    assert!(rt; has("0x7fffFFFF", 2147483647, ConstantType::Int));
    assert!(rt; has("0X80000000", 2147483648, ConstantType::UnsignedInt));
    assert!(rt; has("0xffffffff", 4294967295, ConstantType::UnsignedInt));
    assert!(rt; has("0x100000000", 4294967296, ConstantType::Long));
    assert!(rt;
        has(
            "01777777777777777777777",
            18446744073709551615,
            ConstantType::UnsignedLong
        )
    );
    assert!(rt; is_none("02000000000000000000000"));
}

#[test]
fn suffixes_ask_for_types(rt: HostRuntime) {
    assert!(rt; has("1u", 1, ConstantType::UnsignedInt));
    assert!(rt; has("4294967296U", 4294967296, ConstantType::UnsignedLong));
    assert!(rt; has("1l", 1, ConstantType::Long));
    assert!(rt; has("1L", 1, ConstantType::Long));
    assert!(rt;
        has(
            "0x8000000000000000L",
            9223372036854775808,
            ConstantType::UnsignedLong
        )
    );
    assert!(rt; has("1ll", 1, ConstantType::LongLong));
    assert!(rt;
        has(
            "0x8000000000000000LL",
            9223372036854775808,
            ConstantType::UnsignedLongLong
        )
    );
    assert!(rt; has("1ul", 1, ConstantType::UnsignedLong));
    assert!(rt; has("1Lu", 1, ConstantType::UnsignedLong));
    assert!(rt; has("1ULL", 1, ConstantType::UnsignedLongLong));
    assert!(rt; has("1llU", 1, ConstantType::UnsignedLongLong));
}

#[test]
fn what_is_no_constant(rt: HostRuntime) {
    assert!(rt; is_none(""));
    assert!(rt; is_none("08"));
    assert!(rt; is_none("0x"));
    assert!(rt; is_none("0xg"));
    assert!(rt; is_none("1.5"));
    assert!(rt; is_none("1e3"));
    assert!(rt; is_none("1lL"));
    assert!(rt; is_none("1lul"));
    assert!(rt; is_none("1uu"));
    assert!(rt; is_none("0b1"));
    let read = integer_constant(b"0X1Fu");
    let wanted = Some(IntegerConstant {
        value: 31,
        radix: Radix::Hexadecimal,
        is_unsigned: true,
        long: LongSuffix::Absent,
    });
    assert!(rt; read == wanted);
}

#[test]
fn character_constants_are_one_byte(rt: HostRuntime) {
    assert!(rt; character_constant(b"a") == Some(97));
    assert!(rt; character_constant(b"\"") == Some(34));
    assert!(rt; character_constant(&[233]) == Some(233));
    assert!(rt; character_constant(b"\\'") == Some(39));
    assert!(rt; character_constant(b"\\\"") == Some(34));
    assert!(rt; character_constant(b"\\?") == Some(63));
    assert!(rt; character_constant(b"\\\\") == Some(92));
    assert!(rt; character_constant(b"").is_none());
    assert!(rt; character_constant(b"'").is_none());
    assert!(rt; character_constant(b"ab").is_none());
    assert!(rt; character_constant(b"\\").is_none());
    assert!(rt; character_constant(b"\\u0041").is_none());
}

#[test]
fn each_simple_escape_has_its_value(rt: HostRuntime) {
    assert!(rt; character_constant(b"\\a") == Some(7));
    assert!(rt; character_constant(b"\\b") == Some(8));
    assert!(rt; character_constant(b"\\t") == Some(9));
    assert!(rt; character_constant(b"\\n") == Some(10));
    assert!(rt; character_constant(b"\\v") == Some(11));
    assert!(rt; character_constant(b"\\f") == Some(12));
    assert!(rt; character_constant(b"\\r") == Some(13));
    assert!(rt; character_constant(b"\\e").is_none());
}

#[test]
fn numeric_escapes_end_at_255(rt: HostRuntime) {
    assert!(rt; character_constant(b"\\0") == Some(0));
    assert!(rt; character_constant(b"\\12") == Some(10));
    assert!(rt; character_constant(b"\\377") == Some(255));
    assert!(rt; character_constant(b"\\400").is_none());
    assert!(rt; character_constant(b"\\1234").is_none());
    assert!(rt; character_constant(b"\\8").is_none());
    assert!(rt; character_constant(b"\\xff") == Some(255));
    assert!(rt; character_constant(b"\\x0000000000000000000041") == Some(65));
    assert!(rt; character_constant(b"\\x100").is_none());
    assert!(rt; character_constant(b"\\x").is_none());
    assert!(rt; character_constant(b"\\xfg").is_none());
}

// The content has these bytes.
fn reads(alloc: Global, content: &[u8], bytes: &[u8]) -> Result<bool, AllocError> {
    Ok(match string_literal(alloc, content)? {
        None => false,
        Some(read) => read.as_slice() == bytes,
    })
}

fn strings_read(alloc: Global) -> Result<bool, AllocError> {
    let plain = reads(alloc, b"it's", b"it's")?;
    let empty = reads(alloc, b"", b"")?;
    let octal = reads(alloc, b"\\0014\\18", &[1, 52, 1, 56])?;
    let escapes = reads(alloc, b"\\\"\\x41g\\n", b"\"Ag\n")?;
    Ok(plain && empty && octal && escapes)
}

#[test]
fn strings_have_the_bytes_of_their_elements(rt: HostRuntime) {
    assert!(rt; matches!(strings_read(rt.alloc()), Ok(true)));
}

#[test]
fn what_is_no_string(rt: HostRuntime) {
    assert!(rt; is_string_literal(b"a\\n"));
    assert!(rt; !is_string_literal(b"a\"b"));
    assert!(rt; !is_string_literal(b"\\q"));
    assert!(rt; !is_string_literal(b"a\n"));
    assert!(rt; matches!(string_literal(rt.alloc(), b"\\777"), Ok(None)));
}

#[test]
fn content_stands_between_quotes(rt: HostRuntime) {
    assert!(rt; between_quotes(b'\'', b"'a'") == Some(b"a".as_slice()));
    assert!(rt; between_quotes(b'"', b"\"\"") == Some(b"".as_slice()));
    assert!(rt; between_quotes(b'\'', b"L'a'").is_none());
    assert!(rt; between_quotes(b'"', b"\"").is_none());
}
