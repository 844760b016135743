//! The macros of the text have the codes of the table.

use crate::{CODES, CodeRow, code_row, declarations, descriptor_size};

// The number that a macro's replacement list is, maybe in parentheses.
fn number_of(body: &str) -> Option<i64> {
    let digits = match body.strip_prefix("(") {
        None => body,
        Some(rest) => rest.trim_end_matches(')'),
    };
    match digits.parse::<i64>() {
        Ok(number) => Some(number),
        Err(_) => None,
    }
}

// The macro that a line defines, and its number.
fn macro_of(line: &str) -> Option<(&str, i64)> {
    let rest = line.strip_prefix("#define ")?;
    let (name, body) = rest.split_once(" ")?;
    Some((name, number_of(body)?))
}

// The number that the text gives a macro.
fn code_of(name: &str) -> Option<i64> {
    let Ok(text) = str::from_utf8(declarations()) else {
        return None;
    };
    for line in text.lines() {
        if let Some((found, code)) = macro_of(line) {
            if found == name {
                return Some(code);
            }
        }
    }
    None
}

// The table has the macro's code with this length.
fn has(name: &str, length: Option<u64>) -> bool {
    match code_of(name) {
        None => false,
        Some(code) => code_row(code) == Some(CodeRow { code, length }),
    }
}

#[test]
fn integers_have_their_lengths(rt: HostRuntime) {
    for name in ["CFI_type_signed_char", "CFI_type_int8_t"] {
        assert!(rt; has(name, Some(1)));
    }
    for name in ["CFI_type_short", "CFI_type_int16_t"] {
        assert!(rt; has(name, Some(2)));
    }
    for name in ["CFI_type_int", "CFI_type_int32_t"] {
        assert!(rt; has(name, Some(4)));
    }
}

#[test]
fn integers_as_long_as_long_have_their_length(rt: HostRuntime) {
    for name in [
        "CFI_type_long",
        "CFI_type_long_long",
        "CFI_type_int64_t",
        "CFI_type_size_t",
        "CFI_type_intmax_t",
        "CFI_type_intptr_t",
        "CFI_type_ptrdiff_t",
    ] {
        assert!(rt; has(name, Some(8)));
    }
}

#[test]
fn other_types_have_their_lengths(rt: HostRuntime) {
    assert!(rt; has("CFI_type_Bool", Some(1)));
    for name in ["CFI_type_cptr", "CFI_type_cfunptr"] {
        assert!(rt; has(name, Some(8)));
    }
    for name in ["CFI_type_char", "CFI_type_struct", "CFI_type_other"] {
        assert!(rt; has(name, None));
    }
}

// How many macros of the text name a code of a type, and whether the table has each.
fn codes_of_text() -> (u64, bool) {
    let (mut count, mut all) = (0u64, true);
    let Ok(text) = str::from_utf8(declarations()) else {
        return (0, false);
    };
    for line in text.lines() {
        if let Some((name, code)) = macro_of(line) {
            if name.starts_with("CFI_type_") {
                count = count.saturating_add(1);
                all = all && code_row(code).is_some();
            }
        }
    }
    (count, all)
}

#[test]
fn each_code_of_the_text_has_its_row(rt: HostRuntime) {
    assert!(rt; codes_of_text() == (19, true));
    assert!(rt; code_of("CFI_index_t").is_none());
}

#[test]
fn each_row_is_that_of_its_code(rt: HostRuntime) {
    for row in CODES.rows {
        assert!(rt; code_row(row.code) == Some(row));
    }
    for code in [0, 10, -2, 256, i64::MIN, i64::MAX] {
        assert!(rt; code_row(code).is_none());
    }
}

#[test]
fn descriptors_have_their_sizes(rt: HostRuntime) {
    assert!(rt; descriptor_size(0) == 24);
    assert!(rt; descriptor_size(2) == 72);
    assert!(rt; code_of("CFI_MAX_RANK") == Some(15));
    assert!(rt; descriptor_size(15) == 384);
    assert!(rt; descriptor_size(255) == 6144);
}
