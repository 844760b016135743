use crate::{CType, Proto, Types, align_of, compatible, copy_type, same_type, size_of};
use jf_base::{Boxed, List, Memory, Width};
use std::alloc::Global;
use std::process::Abort;
use std::test::Fail;

/// The integer type of a letter: `h`, `w`, `s`, `i`, `u`, `l` and `q` for signed char, unsigned char, short, int, unsigned, long and long long.
fn integer(letter: u8) -> CType {
    let (width, signed, rank) = match letter {
        b'h' => (Width::W1, true, 1),
        b'w' => (Width::W1, false, 1),
        b's' => (Width::W2, true, 2),
        b'i' => (Width::W4, true, 3),
        b'u' => (Width::W4, false, 3),
        b'l' => (Width::W8, true, 4),
        _ => (Width::W8, true, 5),
    };
    CType::Int {
        width,
        signed,
        rank,
    }
}

/// A type made of the one below: `*` a pointer to it, `k` the const type, a digit n an array of n, `f` a function of no parameter that gives it.
fn made(alloc: Global, letter: u8, below: CType) -> Result<CType, Memory> {
    let below = Boxed::new(alloc, below)?;
    Ok(match letter {
        b'*' => CType::Pointer(below),
        b'k' => CType::Const(below),
        b'f' => CType::Function(Boxed::new(
            alloc,
            Proto {
                result: below.into_inner(),
                params: List::from_vec(Vec::new(alloc)),
            },
        )?),
        _ => CType::Array(below, letter.wrapping_sub(b'0') as u64),
    })
}

/// A function with one parameter that gives `int`.
fn function(alloc: Global, param: CType) -> Result<CType, Memory> {
    let mut params = List::from_vec(Vec::new(alloc));
    params.push(param)?;
    let proto = Proto {
        result: integer(b'i'),
        params,
    };
    Ok(CType::Function(Boxed::new(alloc, proto)?))
}

/// The type that a text spells, from the inside out: `c` is char, `b` _Bool, `v` void, `d` and `r` descriptors, `x` and `y`
/// enums, `A` to `L` structs by number, `g` a function whose parameter is the type before it, and the letters above.
fn spelled(alloc: Global, text: &[u8]) -> Result<CType, Memory> {
    let mut kind = CType::Void;
    for letter in text {
        kind = match *letter {
            b'v' => CType::Void,
            b'c' => CType::Char,
            b'b' => CType::Bool,
            b'd' => CType::Descriptor,
            b'r' => CType::Cdesc(1),
            b'x' => CType::Enum(0),
            b'y' => CType::Enum(1),
            b'A'..=b'L' => CType::Struct((*letter).wrapping_sub(b'A') as u32),
            b'h' | b'w' | b's' | b'i' | b'u' | b'l' | b'q' => integer(*letter),
            b'g' => function(alloc, kind)?,
            _ => made(alloc, *letter, kind)?,
        };
    }
    Ok(kind)
}

/// A new struct with these members, named from 0 on.
fn define(rt: &impl Abort, alloc: Global, t: &mut Types, kinds: &[&[u8]]) -> Result<(), Memory> {
    let mut members = Vec::new(alloc);
    let mut name: u32 = 0;
    for kind in kinds {
        let kind = spelled(alloc, kind)?;
        if members.push((name, kind)).is_err() {
            return Err(Memory);
        }
        name = name.wrapping_add(1);
    }
    let s = t.add_struct()?;
    assert!(rt; t.are_sized(members.as_slice()));
    assert!(rt; t.struct_size(members.as_slice()).is_some());
    t.complete(alloc, s, members)
}

/// Whether a struct has this size, this alignment, and members at these places.
fn lies(t: &Types, s: u32, size: u64, align: u64, offsets: &[u64]) -> bool {
    let kind = CType::Struct(s);
    if size_of(t, &kind) != Some(size) || align_of(t, &kind) != Some(align) {
        return false;
    }
    let mut name: u32 = 0;
    for offset in offsets {
        match t.member(s, name) {
            None => return false,
            Some(member) => {
                if member.offset != *offset {
                    return false;
                }
            }
        }
        name = name.wrapping_add(1);
    }
    t.member(s, name).is_none()
}

// The members of structs, and the size, alignment and offsets that a compiler for LP64 gives for the same declarations.
const LAID: [(&[&[u8]], u64, u64, &[u64]); 10] = [
    (&[b"c", b"i"], 8, 4, &[0, 4]),
    (&[b"i", b"c"], 8, 4, &[0, 4]),
    (&[b"c", b"s", b"c", b"l", b"h"], 24, 8, &[0, 2, 4, 8, 16]),
    (&[b"c3", b"A", b"s"], 16, 4, &[0, 4, 12]),
    (&[b"c", b"C2", b"c"], 64, 8, &[0, 8, 56]),
    (
        &[b"b", b"v*", b"sk", b"if*", b"c5"],
        40,
        8,
        &[0, 8, 16, 24, 32],
    ),
    (&[b"D", b"E", b"q"], 88, 8, &[0, 16, 80]),
    (&[b"c7"], 7, 1, &[0]),
    (&[b"s", b"H", b"x"], 16, 4, &[0, 2, 12]),
    (&[b"I3k", b"c"], 52, 4, &[0, 48]),
];

#[test]
fn structs_lie_as_lp64_has_them(rt: HostRuntime) -> Result<(), Fail> {
    let alloc = rt.alloc();
    let mut t = Types::new(alloc)?;
    let mut s: u32 = 0;
    for (members, size, align, offsets) in LAID {
        define(&rt, alloc, &mut t, members)?;
        assert!(rt; lies(&t, s, size, align, offsets), "at {s}");
        assert!(rt; lies(&t, 0, 8, 4, &[0, 4]));
        s = s.wrapping_add(1);
    }
    Ok(())
}

// Pairs of types of one file, and whether C11 has them compatible.
const IN_ONE_FILE: [(&[u8], &[u8], bool); 34] = [
    // 6.2.5p4 and p15
    (b"c", b"c", true),
    (b"c", b"w", false),
    (b"c", b"h", false),
    (b"l", b"q", false),
    (b"i", b"u", false),
    // 6.7.2.2p4
    (b"x", b"i", true),
    (b"x", b"u", false),
    (b"x", b"l", false),
    (b"x", b"x", true),
    (b"x", b"y", false),
    // 6.2.7p1
    (b"A", b"A", true),
    (b"A", b"B", false),
    (b"A*", b"B*", false),
    (b"d", b"d", true),
    (b"d", b"r", false),
    // 6.7.6.1p2 and 6.7.3p10
    (b"i*", b"x*", true),
    (b"i*", b"ik*", false),
    (b"i*", b"i*k", false),
    (b"i", b"ik", false),
    (b"ik", b"ikk", true),
    (b"v*", b"c*", false),
    (b"i**", b"ik**", false),
    // 6.7.6.2p6 and 6.7.3p9
    (b"i3", b"i3", true),
    (b"i3", b"i4", false),
    (b"i3k", b"ik3", true),
    (b"i3", b"ik3", false),
    // 6.7.6.3p15
    (b"ig", b"ikg", true),
    (b"ig", b"ug", false),
    (b"ig", b"if", false),
    (b"vf", b"if", false),
    (b"i3g", b"i*g", true),
    (b"i3kg", b"i*g", false),
    (b"i3kg", b"ik*g", true),
    (b"igg", b"ig*g", true),
];

#[test]
fn types_of_one_file(rt: HostRuntime) -> Result<(), Fail> {
    let alloc = rt.alloc();
    let mut t = Types::new(alloc)?;
    let _first = t.add_struct()?;
    let _second = t.add_struct()?;
    for (left, right, want) in IN_ONE_FILE {
        let a = spelled(alloc, left)?;
        let b = spelled(alloc, right)?;
        assert_eq!(rt;
            compatible(&t, &a, None, &b),
            want,
            "{left:?} and {right:?}"
        );
        assert_eq!(rt;
            compatible(&t, &b, None, &a),
            want,
            "{right:?} and {left:?}"
        );
        assert!(rt; same_type(&copy_type(alloc, &a)?, &a));
    }
    Ok(())
}

// Types of a first and of a second file, and whether they are compatible.
const OF_TWO_FILES: [(&[u8], &[u8], bool); 14] = [
    (b"x", b"y", true),
    (b"x", b"i", true),
    (b"x", b"u", false),
    (b"A", b"B", true),
    (b"A", b"A", true),
    (b"A", b"C", false),
    (b"A", b"D", false),
    (b"A*", b"C*", true),
    (b"A*", b"i*", false),
    (b"A2", b"B2", true),
    (b"B", b"E", true),
    (b"B", b"F", false),
    (b"Ag", b"Cg", false),
    (b"Ag*", b"Cg*", true),
];

#[test]
fn types_of_two_files(rt: HostRuntime) -> Result<(), Fail> {
    let alloc = rt.alloc();
    let mut t = Types::new(alloc)?;
    define(&rt, alloc, &mut t, &[b"i", b"c"])?;
    define(&rt, alloc, &mut t, &[b"A", b"A*"])?;
    let mut u = Types::new(alloc)?;
    let _incomplete = u.add_struct()?;
    for members in SECOND_FILE {
        define(&rt, alloc, &mut u, members)?;
    }
    for (left, right, want) in OF_TWO_FILES {
        let a = spelled(alloc, left)?;
        let b = spelled(alloc, right)?;
        assert_eq!(rt;
            compatible(&t, &a, Some(&u), &b),
            want,
            "{left:?} and {right:?}"
        );
        assert_eq!(rt;
            compatible(&u, &b, Some(&t), &a),
            want,
            "{right:?} and {left:?}"
        );
    }
    Ok(())
}

// The structs of the second file behind an incomplete one.
const SECOND_FILE: [&[&[u8]]; 5] = [
    &[b"y", b"c"],
    &[b"c", b"i"],
    &[b"i", b"c", b"c"],
    &[b"B", b"C*"],
    &[b"C", b"B*"],
];

#[test]
fn sizes_at_the_limit(rt: HostRuntime) -> Result<(), Fail> {
    let alloc = rt.alloc();
    let mut t = Types::new(alloc)?;
    let _incomplete = t.add_struct()?;
    for nothing in [b"v", b"A"] {
        let kind = spelled(alloc, nothing)?;
        assert_eq!(rt; (size_of(&t, &kind), align_of(&t, &kind)), (None, None));
    }
    assert_eq!(rt; size_of(&t, &CType::Cdesc(15)), Some(384));
    let most = CType::Array(Boxed::new(alloc, CType::Char)?, 1 << 62);
    assert_eq!(rt; size_of(&t, &most), Some(1 << 62));
    let larger = CType::Array(Boxed::new(alloc, CType::Char)?, (1 << 62) + 1);
    assert_eq!(rt;
        (size_of(&t, &larger), align_of(&t, &larger)),
        (None, Some(1))
    );
    let none_of_it = CType::Array(Boxed::new(alloc, larger)?, 0);
    assert_eq!(rt; size_of(&t, &none_of_it), Some(0));
    Ok(())
}
