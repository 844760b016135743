//! Calls, seen by machine code that isn't the compiler's.

use super::build::{bare, binary, call, proc, program, set_all, stop, values};
use super::runs::{end, end_with_words};
use flat_ir::{Fix, FlatExpr, FlatProc, FlatProgram, FlatStmt, Operation, Target};
use image_run::Ended;
use jf_base::{Boxed, List, Width};
use std::alloc::{AllocError, Global};
use std::test::Fail;

// ADDI x17, x0, 93 and ECALL: the end of the run, with what is in a0.
const CODE: u32 = 0x05d0_0893;

const END: u32 = 0x0000_0073;

// A procedure with enough code for words to stand in its place.
fn place(alloc: Global, params: u32) -> Result<FlatProc, AllocError> {
    let mut body = Vec::new(alloc);
    for n in 0..40u64 {
        body.push(FlatStmt::Give(FlatExpr::Number(n)))?;
    }
    Ok(proc(params, params, 1088, body))
}

// A program that calls its first procedure with these arguments, and stops with its result.
fn calling(alloc: Global, arguments: &[u64]) -> Result<FlatProgram, AllocError> {
    let mut passed = Vec::new(alloc);
    for n in arguments {
        passed.push(FlatExpr::Number(*n))?;
    }
    let count = u32::try_from(arguments.len()).unwrap_or(0);
    let called = place(alloc, count)?;
    let body = vec![in alloc; call(alloc, 0, 0, passed)?, stop(0)]?;
    let entry = proc(0, 1, 1088, body);
    Ok(bare(alloc, vec![in alloc; called, entry]?))
}

const TEN: [u64; 10] = [101, 102, 103, 104, 105, 106, 107, 108, 109, 110];

#[test]
fn the_ninth_argument_lies_at_the_stack_pointer(rt: HostRuntime) -> Result<(), Fail> {
    let alloc = rt.alloc();
    let p = calling(alloc, &TEN)?;
    // ADDI x10, x11, 0, LD x10, 0(x2), and LD x10, 8(x2)
    for (word, argument) in [(0x0005_8513, 102), (0x0001_3503, 109), (0x0081_3503, 110)] {
        let ended = end_with_words(alloc, &p, &[word, CODE, END])?;
        assert_eq!(rt; ended, Ended::Stop(argument));
    }
    Ok(())
}

// An argument of 16 bytes is two numbers, of which the first is the eighth here.
#[test]
fn two_words_of_an_argument_lie_in_a7_and_on_the_stack(rt: HostRuntime) -> Result<(), Fail> {
    let alloc = rt.alloc();
    let p = calling(
        alloc,
        &[
            1,
            2,
            3,
            4,
            5,
            6,
            7,
            0x1111_1111_2222_2222,
            0x3333_3333_4444_4444,
        ],
    )?;
    // ADDI x10, x17, 0, SRLI x10, x17, 32, LD x10, 0(x2), and LW x10, 4(x2)
    for (word, half) in [
        (0x0008_8513, 0x2222_2222),
        (0x0208_d513, 0x1111_1111),
        (0x0001_3503, 0x4444_4444),
        (0x0041_2503, 0x3333_3333),
    ] {
        let ended = end_with_words(alloc, &p, &[word, CODE, END])?;
        assert_eq!(rt; ended, Ended::Stop(half));
    }
    Ok(())
}

// A program that passes what four bytes of ones are as an int.
fn passing_int(alloc: Global) -> Result<FlatProgram, AllocError> {
    let address = Boxed::new(alloc, FlatExpr::Image(0))?;
    let int = FlatExpr::Load(Width::W4, true, address);
    let called = place(alloc, 1)?;
    let body = vec![in alloc; call(alloc, 0, 0, vec![in alloc; int]?)?, stop(0)]?;
    let entry = proc(0, 1, 1088, body);
    let image = vec![in alloc; 255u8; 4]?;
    Ok(program(vec![in alloc; called, entry]?, image, Vec::new(alloc)))
}

#[test]
fn an_int_of_minus_one_arrives_as_all_ones(rt: HostRuntime) -> Result<(), Fail> {
    let alloc = rt.alloc();
    let loaded = passing_int(alloc)?;
    let number = calling(alloc, &[u64::MAX])?;
    // what is above the low 32 bits: SRLI x10, x10, 32
    let words = [0x0205_5513, CODE, END];
    assert_eq!(rt; end_with_words(alloc, &loaded, &words)?, Ended::Stop(-1));
    assert_eq!(rt; end_with_words(alloc, &number, &words)?, Ended::Stop(-1));
    // and below: ADDI x10, x10, 1
    let words = [0x0015_0513, CODE, END];
    assert_eq!(rt; end_with_words(alloc, &loaded, &words)?, Ended::Stop(0));
    assert_eq!(rt; end_with_words(alloc, &number, &words)?, Ended::Stop(0));
    Ok(())
}

// A program that stops with the second result of its first procedure less the first.
fn with_two_results(alloc: Global) -> Result<FlatProgram, AllocError> {
    let called = place(alloc, 0)?;
    let results = List::from_vec(vec![in alloc; 0u32, 1u32]?);
    let nothing = List::from_vec(Vec::new(alloc));
    let less = binary(
        alloc,
        Operation::Sub,
        FlatExpr::Value(1),
        FlatExpr::Value(0),
    )?;
    let body = vec![in alloc; FlatStmt::Call(results, 0, nothing), FlatStmt::Stop(less)]?;
    Ok(bare(alloc, vec![in alloc; called, proc(0, 2, 1088, body)]?))
}

#[test]
fn two_results_come_back_in_a0_and_a1(rt: HostRuntime) -> Result<(), Fail> {
    let alloc = rt.alloc();
    let p = with_two_results(alloc)?;
    // ADDI x10, x0, 5, ADDI x11, x0, 6, and JALR x0, 0(x1)
    let ended = end_with_words(alloc, &p, &[0x0050_0513, 0x0060_0593, 0x0000_8067])?;
    assert_eq!(rt; ended, Ended::Stop(1));
    Ok(())
}

// ADDI x4, x2, 0; 1, 2, 4 and so on to 1,024 into x8, x9, and x18 to x26, and -2,048 into x27; JALR x1, 0(x10); SUB x10, x2, x4; each of them added to x10; the end.
const KEEPS: [u32; 29] = [
    0x0001_0213,
    0x0010_0413,
    0x0020_0493,
    0x0040_0913,
    0x0080_0993,
    0x0100_0a13,
    0x0200_0a93,
    0x0400_0b13,
    0x0800_0b93,
    0x1000_0c13,
    0x2000_0c93,
    0x4000_0d13,
    0x8000_0d93,
    0x0005_00e7,
    0x4041_0533,
    0x0085_0533,
    0x0095_0533,
    0x0125_0533,
    0x0135_0533,
    0x0145_0533,
    0x0155_0533,
    0x0165_0533,
    0x0175_0533,
    0x0185_0533,
    0x0195_0533,
    0x01a5_0533,
    0x01b5_0533,
    CODE,
    END,
];

// A procedure with 40 values alive at once, which gives back their sum.
pub fn wide(alloc: Global, charge: u64) -> Result<FlatProc, AllocError> {
    let mut body = Vec::new(alloc);
    for x in 0..40u32 {
        let n = 100 + 3 * x as u64;
        body.push(FlatStmt::Set(x, FlatExpr::Number(n)))?;
    }
    let mut sum = FlatExpr::Number(0);
    for x in 0..40u32 {
        sum = binary(alloc, Operation::Add, FlatExpr::Value(x), sum)?;
    }
    body.push(FlatStmt::Return(List::from_vec(vec![in alloc; sum]?)))?;
    Ok(proc(0, 40, charge, body))
}

// A caller of machine code finds the stack pointer and the registers that are kept as they were.
#[test]
fn a_procedure_restores_what_its_caller_keeps(rt: HostRuntime) -> Result<(), Fail> {
    let alloc = rt.alloc();
    let called = place(alloc, 1)?;
    let passed = vec![in alloc; FlatExpr::Procedure(1)]?;
    let body = vec![in alloc; call(alloc, 0, 0, passed)?, stop(0)]?;
    let procs = vec![in alloc; called, wide(alloc, 1088)?, proc(0, 1, 1088, body)]?;
    let ended = end_with_words(alloc, &bare(alloc, procs), &KEEPS)?;
    assert_eq!(rt; ended, Ended::Stop(-1));
    Ok(())
}

// A procedure that gives back its argument times a number, and less 1.
fn scaling(alloc: Global, n: u64) -> Result<FlatProc, AllocError> {
    let product = binary(
        alloc,
        Operation::Mul,
        FlatExpr::Value(0),
        FlatExpr::Number(n),
    )?;
    let less = binary(alloc, Operation::Sub, product, FlatExpr::Number(1))?;
    let body = vec![in alloc; FlatStmt::Return(List::from_vec(vec![in alloc; less]?))]?;
    Ok(proc(1, 1, 1088, body))
}

fn call_at(alloc: Global, x: u32, at: FlatExpr, n: FlatExpr) -> Result<FlatStmt, AllocError> {
    let results = List::from_vec(vec![in alloc; x]?);
    let arguments = List::from_vec(vec![in alloc; n]?);
    Ok(FlatStmt::CallAt(results, at, arguments))
}

// A program whose image has the addresses of its first two procedures.
fn calling_at(alloc: Global) -> Result<FlatProgram, AllocError> {
    let in_image = FlatExpr::Load(Width::W8, false, Boxed::new(alloc, FlatExpr::Image(8))?);
    let first = call_at(alloc, 0, in_image, FlatExpr::Number(5))?;
    let second = call_at(alloc, 0, FlatExpr::Value(1), FlatExpr::Value(0))?;
    let body = vec![in alloc;
        first,
        FlatStmt::Set(1, FlatExpr::Procedure(0)),
        second,
        stop(0),
    ]?;
    let procs = vec![in alloc;
        scaling(alloc, 3)?,
        scaling(alloc, 10)?,
        proc(0, 2, 1088, body),
    ]?;
    let fixes = vec![in alloc;
        Fix {
            at: 0,
            target: Target::Proc(0)
        },
        Fix {
            at: 8,
            target: Target::Proc(1)
        },
    ]?;
    Ok(program(procs, vec![in alloc; 0u8; 16]?, fixes))
}

// 5 * 10 - 1 by an address that lies in the image, and then 49 * 3 - 1 by one that is computed.
#[test]
fn calls_at_addresses(rt: HostRuntime) -> Result<(), Fail> {
    let alloc = rt.alloc();
    let p = calling_at(alloc)?;
    assert_eq!(rt; end(alloc, &p)?, Ended::Stop(146));
    Ok(())
}

// A procedure that gives back a number in which each of its parameters counts, the later the less.
fn digits(alloc: Global, params: u32) -> Result<FlatProc, AllocError> {
    let mut all = FlatExpr::Number(0);
    for x in 0..params {
        let more = binary(alloc, Operation::Mul, all, FlatExpr::Number(10))?;
        all = binary(alloc, Operation::Add, more, FlatExpr::Value(x))?;
    }
    let body = vec![in alloc; FlatStmt::Return(List::from_vec(vec![in alloc; all]?))]?;
    Ok(proc(params, params, 8192, body))
}

#[test]
fn parameters_behind_the_eighth_are_received(rt: HostRuntime) -> Result<(), Fail> {
    let alloc = rt.alloc();
    let mut passed = Vec::new(alloc);
    for n in [0u64, 1, 2, 3, 4, 5, 6, 7, 8, 9] {
        passed.push(FlatExpr::Number(n))?;
    }
    let body = vec![in alloc; call(alloc, 0, 0, passed)?, stop(0)]?;
    let procs = vec![in alloc; digits(alloc, 10)?, proc(0, 1, 1088, body)]?;
    assert_eq!(rt; end(alloc, &bare(alloc, procs))?, Ended::Stop(123_456_789));
    Ok(())
}

// The numbers 1, 8, 15 and so on, 300 of them.
fn numbers(alloc: Global) -> Result<Vec<u64>, AllocError> {
    let mut numbers = Vec::new(alloc);
    for x in 0..300u64 {
        numbers.push(7 * x + 1)?;
    }
    Ok(numbers)
}

// What `digits` gives of the numbers, and all of them behind it.
fn wanted(numbers: &[u64]) -> u64 {
    let mut all: u64 = 0;
    for n in numbers {
        all = all.wrapping_mul(10).wrapping_add(*n);
    }
    for n in numbers {
        all = all ^ *n;
    }
    all
}

// The exclusive or of the values from 0 to 300.
fn exclusive_or(alloc: Global) -> Result<FlatExpr, AllocError> {
    let mut all = FlatExpr::Value(300);
    for x in 0..300u32 {
        all = binary(alloc, Operation::Xor, all, FlatExpr::Value(x))?;
    }
    Ok(all)
}

// Far words of a frame: 300 arguments of which 292 lie on the stack, and 300 values alive at once.
#[test]
fn three_hundred_arguments(rt: HostRuntime) -> Result<(), Fail> {
    let alloc = rt.alloc();
    let numbers = numbers(alloc)?;
    let mut body = set_all(alloc, numbers.as_slice())?;
    body.push(call(alloc, 300, 0, values(alloc, 300)?)?)?;
    body.push(FlatStmt::Stop(exclusive_or(alloc)?))?;
    let p = bare(
        alloc,
        vec![in alloc; digits(alloc, 300)?, proc(0, 301, 8192, body)]?,
    );
    let code = (wanted(numbers.as_slice()) % (1 << 32)) as u32;
    assert_eq!(rt; end(alloc, &p)?, Ended::Stop(code.cast_signed()));
    Ok(())
}
