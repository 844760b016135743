//! A loop that sums numbers: the instructions of a turn, and what of it touches memory.

use super::build::{bare, binary, change, proc};
use super::runs::{end, image_of, instructions};
use flat_ir::{FlatExpr, FlatProgram, FlatStmt, Operation};
use image_run::Ended;
use jf_base::List;
use program_image::Image;
use rv_isa::{Insn, decode};
use std::alloc::{AllocError, Global};
use std::test::Fail;

// Where the value 0 is below n, it is added to the value 1, and goes up by 1; else the loop is left.
fn turn(alloc: Global, n: u64) -> Result<FlatStmt, AllocError> {
    let less = binary(
        alloc,
        Operation::Sltu,
        FlatExpr::Value(0),
        FlatExpr::Number(n),
    )?;
    let sum = change(alloc, 1, Operation::Add, FlatExpr::Value(0))?;
    let next = change(alloc, 0, Operation::Add, FlatExpr::Number(1))?;
    let first = List::from_vec(vec![in alloc; sum, next]?);
    let second = List::from_vec(vec![in alloc; FlatStmt::Break(0)]?);
    Ok(FlatStmt::If(less, first, second))
}

// Ends with 1 where the value 1 is the one wanted, else with 0.
fn is_wanted(alloc: Global, wanted: u64) -> Result<FlatStmt, AllocError> {
    let apart = binary(
        alloc,
        Operation::Xor,
        FlatExpr::Value(1),
        FlatExpr::Number(wanted),
    )?;
    Ok(FlatStmt::Stop(binary(alloc, Operation::Sltu, apart, FlatExpr::Number(1))?))
}

// The sum of the numbers below n, whose end is 1 where it is the one wanted.
fn summing(alloc: Global, n: u64, wanted: u64) -> Result<FlatProgram, AllocError> {
    let turn = vec![in alloc; turn(alloc, n)?]?;
    let body = vec![in alloc;
        FlatStmt::Set(0, FlatExpr::Number(0)),
        FlatStmt::Set(1, FlatExpr::Number(0)),
        FlatStmt::Loop(List::from_vec(turn)),
        is_wanted(alloc, wanted)?,
    ]?;
    Ok(bare(alloc, vec![in alloc; proc(0, 2, 1088, body)]?))
}

// Whether an instruction loads or stores.
fn is_access(insn: Insn) -> bool {
    match insn {
        Insn::Lb { .. } | Insn::Lbu { .. } | Insn::Lh { .. } | Insn::Lhu { .. } => true,
        Insn::Lw { .. } | Insn::Lwu { .. } | Insn::Ld { .. } => true,
        Insn::Sb { .. } | Insn::Sh { .. } | Insn::Sw { .. } | Insn::Sd { .. } => true,
        _ => false,
    }
}

// How many words back an instruction jumps; 0 where it doesn't.
fn jumps_back(insn: Insn) -> usize {
    match insn {
        Insn::Jal { rd: 0, imm } if imm >= 1 << 63 => (imm.wrapping_neg() / 4) as usize,
        _ => 0,
    }
}

// The instructions of an image's code.
fn insns(alloc: Global, image: &Image) -> Result<Vec<Insn>, AllocError> {
    let mut insns = Vec::new(alloc);
    for word in image.bytes.as_slice().chunks_exact(4) {
        if let [a, b, c, d] = word {
            if let Some(insn) = decode(u32::from_le_bytes([*a, *b, *c, *d])) {
                insns.push(insn)?;
            }
        }
    }
    Ok(insns)
}

// How many of these load or store.
fn accesses(insns: &[Insn]) -> usize {
    insns.iter().filter(|insn| is_access(**insn)).count()
}

// How many of the instructions that jumps go back over load or store, and how many such jumps there are.
fn accesses_of_loops(insns: &[Insn]) -> (usize, usize) {
    let mut inside: usize = 0;
    let mut loops: usize = 0;
    for (k, insn) in insns.iter().enumerate() {
        let back = jumps_back(*insn);
        if back > 0 && back <= k {
            loops = loops.saturating_add(1);
            inside = inside.saturating_add(accesses(&insns[k - back..k]));
        }
    }
    (inside, loops)
}

// There is one loop, no instruction of it touches memory, and every other instruction is done at most once.
#[test]
fn a_loop_that_sums_100000_numbers_touches_no_memory(rt: HostRuntime) -> Result<(), Fail> {
    let alloc = rt.alloc();
    let p = summing(alloc, 100_000, 4_999_950_000)?;
    let image = image_of(alloc, &p)?.ok_or("the program doesn't hold together")?;
    let insns = insns(alloc, &image)?;
    assert_eq!(rt; accesses_of_loops(insns.as_slice()), (0, 1));
    assert!(rt; accesses(insns.as_slice()) < 10_000);
    assert_eq!(rt; end(alloc, &p)?, Ended::Stop(1));
    Ok(())
}

// A turn of that loop, by what 100 turns more take: the bound in two instructions, the test, a branch, two sums and a 1, and two jumps.
#[test]
fn the_instructions_of_a_turn(rt: HostRuntime) -> Result<(), Fail> {
    let alloc = rt.alloc();
    let less = image_of(alloc, &summing(alloc, 3000, 4_498_500)?)?;
    let more = image_of(alloc, &summing(alloc, 3100, 4_803_450)?)?;
    let less = instructions(alloc, &less.ok_or("the program doesn't hold together")?)?;
    let more = instructions(alloc, &more.ok_or("the program doesn't hold together")?)?;
    assert_eq!(rt; more.saturating_sub(less), 100 * 9);
    Ok(())
}
