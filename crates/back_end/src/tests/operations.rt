//! Each operation, load and store, done once by an image.

use super::build::{bare, binary, proc, program, stop};
use super::runs::result_of;
use flat_ir::{FlatExpr, FlatProgram, FlatStmt, Operation};
use image_run::Ended;
use jf_base::{Boxed, List, Width};
use std::alloc::{AllocError, Global};
use std::test::Fail;

// Pairs of operands: one of mixed bits, one whose quotient of words doesn't fit, and a division by zero.
const OPERANDS: [(u64, u64); 3] = [
    (0x89ab_cdef_89ab_cdef, 0x0000_000a_0000_0065),
    (0x8000_0000_8000_0000, 0xffff_ffff_ffff_ffff),
    (0x8000_0000_ffff_fff9, 0x0000_0000_0000_0000),
];

// What each operation gives of each pair, computed from the words of the RISC-V unprivileged specification (2.4, 4.2 and 7) by a script in another language.
const ROWS: [(Operation, [u64; 3]); 28] = [
    (
        Operation::Add,
        [
            0x89ab_cdf9_89ab_ce54,
            0x8000_0000_7fff_ffff,
            0x8000_0000_ffff_fff9,
        ],
    ),
    (
        Operation::Sub,
        [
            0x89ab_cde5_89ab_cd8a,
            0x8000_0000_8000_0001,
            0x8000_0000_ffff_fff9,
        ],
    ),
    (
        Operation::Sll,
        [
            0x3579_bde0_0000_0000,
            0x0000_0000_0000_0000,
            0x8000_0000_ffff_fff9,
        ],
    ),
    (
        Operation::Slt,
        [
            0x0000_0000_0000_0001,
            0x0000_0000_0000_0001,
            0x0000_0000_0000_0001,
        ],
    ),
    (
        Operation::Sltu,
        [
            0x0000_0000_0000_0000,
            0x0000_0000_0000_0001,
            0x0000_0000_0000_0000,
        ],
    ),
    (
        Operation::Xor,
        [
            0x89ab_cde5_89ab_cd8a,
            0x7fff_ffff_7fff_ffff,
            0x8000_0000_ffff_fff9,
        ],
    ),
    (
        Operation::Srl,
        [
            0x0000_0000_044d_5e6f,
            0x0000_0000_0000_0001,
            0x8000_0000_ffff_fff9,
        ],
    ),
    (
        Operation::Sra,
        [
            0xffff_ffff_fc4d_5e6f,
            0xffff_ffff_ffff_ffff,
            0x8000_0000_ffff_fff9,
        ],
    ),
    (
        Operation::Or,
        [
            0x89ab_cdef_89ab_cdef,
            0xffff_ffff_ffff_ffff,
            0x8000_0000_ffff_fff9,
        ],
    ),
    (
        Operation::And,
        [
            0x0000_000a_0000_0065,
            0x8000_0000_8000_0000,
            0x0000_0000_0000_0000,
        ],
    ),
    (
        Operation::Mul,
        [
            0xb17e_4ad7_50c8_3f4b,
            0x7fff_ffff_8000_0000,
            0x0000_0000_0000_0000,
        ],
    ),
    (
        Operation::Mulh,
        [
            0xffff_fffb_60b6_0b2c,
            0x0000_0000_0000_0000,
            0x0000_0000_0000_0000,
        ],
    ),
    (
        Operation::Mulhsu,
        [
            0xffff_fffb_60b6_0b2c,
            0x8000_0000_8000_0000,
            0x0000_0000_0000_0000,
        ],
    ),
    (
        Operation::Mulhu,
        [
            0x0000_0005_60b6_0b91,
            0x8000_0000_7fff_ffff,
            0x0000_0000_0000_0000,
        ],
    ),
    (
        Operation::Div,
        [
            0xffff_ffff_f42a_c7cc,
            0x7fff_ffff_8000_0000,
            0xffff_ffff_ffff_ffff,
        ],
    ),
    (
        Operation::Divu,
        [
            0x0000_0000_0dc4_6164,
            0x0000_0000_0000_0000,
            0xffff_ffff_ffff_ffff,
        ],
    ),
    (
        Operation::Rem,
        [
            0xffff_fffc_34ca_fa73,
            0x0000_0000_0000_0000,
            0x8000_0000_ffff_fff9,
        ],
    ),
    (
        Operation::Remu,
        [
            0x0000_0002_1b31_617b,
            0x8000_0000_8000_0000,
            0x8000_0000_ffff_fff9,
        ],
    ),
    (
        Operation::Addw,
        [
            0xffff_ffff_89ab_ce54,
            0x0000_0000_7fff_ffff,
            0xffff_ffff_ffff_fff9,
        ],
    ),
    (
        Operation::Subw,
        [
            0xffff_ffff_89ab_cd8a,
            0xffff_ffff_8000_0001,
            0xffff_ffff_ffff_fff9,
        ],
    ),
    (
        Operation::Sllw,
        [
            0x0000_0000_3579_bde0,
            0x0000_0000_0000_0000,
            0xffff_ffff_ffff_fff9,
        ],
    ),
    (
        Operation::Srlw,
        [
            0x0000_0000_044d_5e6f,
            0x0000_0000_0000_0001,
            0xffff_ffff_ffff_fff9,
        ],
    ),
    (
        Operation::Sraw,
        [
            0xffff_ffff_fc4d_5e6f,
            0xffff_ffff_ffff_ffff,
            0xffff_ffff_ffff_fff9,
        ],
    ),
    (
        Operation::Mulw,
        [
            0x0000_0000_50c8_3f4b,
            0xffff_ffff_8000_0000,
            0x0000_0000_0000_0000,
        ],
    ),
    (
        Operation::Divw,
        [
            0xffff_ffff_fed4_13c9,
            0xffff_ffff_8000_0000,
            0xffff_ffff_ffff_ffff,
        ],
    ),
    (
        Operation::Divuw,
        [
            0x0000_0000_015c_f2d4,
            0x0000_0000_0000_0000,
            0xffff_ffff_ffff_ffff,
        ],
    ),
    (
        Operation::Remw,
        [
            0xffff_ffff_ffff_ffa2,
            0x0000_0000_0000_0000,
            0xffff_ffff_ffff_fff9,
        ],
    ),
    (
        Operation::Remuw,
        [
            0x0000_0000_0000_004b,
            0xffff_ffff_8000_0000,
            0xffff_ffff_ffff_fff9,
        ],
    ),
];

// Gives the eight bytes of a value, the lowest first.
fn give_word(alloc: Global, body: &mut Vec<FlatStmt>, x: u32) -> Result<(), AllocError> {
    for k in 0..8u64 {
        let shifted = binary(
            alloc,
            Operation::Srl,
            FlatExpr::Value(x),
            FlatExpr::Number(8 * k),
        )?;
        body.push(FlatStmt::Give(shifted))?;
    }
    Ok(())
}

// A program that gives the eight bytes of what an operation gives of two numbers.
fn operating(alloc: Global, o: Operation, a: u64, b: u64) -> Result<FlatProgram, AllocError> {
    let result = binary(alloc, o, FlatExpr::Number(a), FlatExpr::Number(b))?;
    let mut body = vec![in alloc; FlatStmt::Set(0, result)]?;
    give_word(alloc, &mut body, 0)?;
    body.push(FlatStmt::Stop(FlatExpr::Number(0)))?;
    Ok(bare(alloc, vec![in alloc; proc(0, 1, 1088, body)]?))
}

// The bytes of the result of an operation.
fn bytes_of(alloc: Global, o: Operation, operands: (u64, u64)) -> Result<Vec<u8>, Fail> {
    let p = operating(alloc, o, operands.0, operands.1)?;
    let result = result_of(alloc, &p, &[])?;
    Ok(result.bytes)
}

#[test]
fn operations(rt: HostRuntime) -> Result<(), Fail> {
    for (o, wanted) in ROWS {
        for k in 0..3 {
            let bytes = bytes_of(rt.alloc(), o, OPERANDS[k])?;
            assert_eq!(rt;
                bytes.as_slice(),
                wanted[k].to_le_bytes().as_slice(),
                "{o:?} {k}"
            );
        }
    }
    Ok(())
}

const NUMBER: u64 = 0x8887_8685_8483_8281;

// Stores the number to the place of the image with this number, and gives all 16 bytes.
fn storing(alloc: Global, w: Width) -> Result<FlatProgram, AllocError> {
    let mut body = vec![in alloc;
        FlatStmt::Store(w, FlatExpr::Image(8), FlatExpr::Number(NUMBER)),
    ]?;
    for k in 0..24u64 {
        body.push(FlatStmt::Load(0, Width::W1, false, FlatExpr::Image(k)))?;
        body.push(FlatStmt::Give(FlatExpr::Value(0)))?;
    }
    body.push(stop(0))?;
    let image = vec![in alloc; 7u8; 24]?;
    let entry = proc(0, 1, 1088, body);
    Ok(program(vec![in alloc; entry]?, image, Vec::new(alloc)))
}

// The bytes of the number that a store wrote, and how many others of the 24 are as they were.
fn stored(alloc: Global, w: Width) -> Result<(usize, usize), Fail> {
    let p = storing(alloc, w)?;
    let result = result_of(alloc, &p, &[])?;
    let written = NUMBER.to_le_bytes();
    let mut same: usize = 0;
    let mut kept: usize = 0;
    for (k, byte) in result.bytes.iter().enumerate() {
        if *byte == 7 {
            kept = kept.saturating_add(1);
        } else if k >= 8 && k < 16 && *byte == written[k - 8] {
            same = same.saturating_add(1);
        }
    }
    Ok((same, kept))
}

#[test]
fn stores_of_each_width(rt: HostRuntime) -> Result<(), Fail> {
    let alloc = rt.alloc();
    assert_eq!(rt; stored(alloc, Width::W1)?, (1, 23));
    assert_eq!(rt; stored(alloc, Width::W2)?, (2, 22));
    assert_eq!(rt; stored(alloc, Width::W4)?, (4, 20));
    assert_eq!(rt; stored(alloc, Width::W8)?, (8, 16));
    Ok(())
}

// Loads the number by a statement and by an expression, and gives the bytes of both.
fn loading(alloc: Global, w: Width, is_signed: bool) -> Result<FlatProgram, AllocError> {
    let address = Boxed::new(alloc, FlatExpr::Image(0))?;
    let mut body = vec![in alloc;
        FlatStmt::Load(0, w, is_signed, FlatExpr::Image(0)),
        FlatStmt::Set(1, FlatExpr::Load(w, is_signed, address)),
    ]?;
    give_word(alloc, &mut body, 0)?;
    give_word(alloc, &mut body, 1)?;
    body.push(stop(0))?;
    let image = Vec::from_slice(alloc, &NUMBER.to_le_bytes())?;
    let entry = proc(0, 2, 1088, body);
    Ok(program(vec![in alloc; entry]?, image, Vec::new(alloc)))
}

// What both loads give.
fn loaded(alloc: Global, w: Width, is_signed: bool) -> Result<Vec<u8>, Fail> {
    let p = loading(alloc, w, is_signed)?;
    let result = result_of(alloc, &p, &[])?;
    Ok(result.bytes)
}

fn twice(alloc: Global, n: u64) -> Result<Vec<u8>, AllocError> {
    let mut bytes = Vec::from_slice(alloc, &n.to_le_bytes())?;
    bytes.extend_from_slice(&n.to_le_bytes())?;
    Ok(bytes)
}

#[test]
fn loads_of_each_width(rt: HostRuntime) -> Result<(), Fail> {
    let alloc = rt.alloc();
    for (w, is_signed, wanted) in [
        (Width::W1, true, 0xffff_ffff_ffff_ff81),
        (Width::W1, false, 0x81),
        (Width::W2, true, 0xffff_ffff_ffff_8281),
        (Width::W2, false, 0x8281),
        (Width::W4, true, 0xffff_ffff_8483_8281),
        (Width::W4, false, 0x8483_8281),
        (Width::W8, true, NUMBER),
        (Width::W8, false, NUMBER),
    ] {
        let bytes = loaded(alloc, w, is_signed)?;
        assert_eq!(rt; bytes, twice(alloc, wanted)?, "{w:?} {is_signed}");
    }
    Ok(())
}

// Bytes that are taken and given until the input ends, whose last number is the code.
fn echoing(alloc: Global) -> Result<FlatProgram, AllocError> {
    let more = binary(
        alloc,
        Operation::Sub,
        FlatExpr::Value(0),
        FlatExpr::Number(u64::MAX),
    )?;
    let given = vec![in alloc; FlatStmt::Give(FlatExpr::Value(0))]?;
    let out = vec![in alloc; FlatStmt::Break(0)]?;
    let turn = vec![in alloc;
        FlatStmt::Take(0),
        FlatStmt::If(more, List::from_vec(given), List::from_vec(out)),
    ]?;
    let body = vec![in alloc; FlatStmt::Loop(List::from_vec(turn)), stop(0)]?;
    Ok(bare(alloc, vec![in alloc; proc(0, 1, 1088, body)]?))
}

#[test]
fn bytes_are_taken_until_none_is_left(rt: HostRuntime) -> Result<(), Fail> {
    let alloc = rt.alloc();
    let p = echoing(alloc)?;
    let result = result_of(alloc, &p, b"a\xff\x00z")?;
    assert_eq!(rt; result.ended, Ended::Stop(-1));
    assert_eq!(rt; result.bytes.as_slice(), b"a\xff\x00z".as_slice());
    Ok(())
}
