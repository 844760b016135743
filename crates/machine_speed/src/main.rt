//! Runs a loop of instructions on the machine: the first word says which loop, `adds` or `memory`, and the second how many instructions at least.
//! What it prints is how the run ended. The time that it takes is to be measured from outside.
#![tactic(auto)]

ghost use Rattle.rv_isa.specs.Encode.{IsEncodable};

use anyhow::Context;
use jf_base::{Limits, List};
use rv_isa::{Insn, encode};
use rv_machine::{Event, Image, Machine};
use std::alloc::{AllocError, Global};
use std::env;

/// The largest stop code that is shown.
const LAST_BITS: u64 = 2047;

fn put(code: &mut Vec<u8>, insn: Insn) -> Result<(), AllocError>
    requires { IsEncodable insn }
{
    code.extend_from_slice(&encode(&insn).to_le_bytes())
}

/// The end: stops with the low bits of x7.
fn put_end(code: &mut Vec<u8>) -> Result<(), AllocError> {
    put(
        code,
        Insn::Andi {
            rd: 10,
            rs1: 7,
            imm: LAST_BITS,
        },
    )?;
    put(
        code,
        Insn::Addi {
            rd: 17,
            rs1: 0,
            imm: 93,
        },
    )?;
    put(code, Insn::Ecall)
}

/// x6 counts the turns of the loop down. It is loaded from behind the code, which has 512 bytes.
fn put_start(code: &mut Vec<u8>) -> Result<(), AllocError> {
    put(code, Insn::Lui { rd: 5, imm: 65536 })?;
    put(
        code,
        Insn::Ld {
            rd: 6,
            rs1: 5,
            imm: 512,
        },
    )
}

/// Counts x6 down, and goes back over `back` bytes while it isn't 0.
fn put_turn(code: &mut Vec<u8>, back: u64) -> Result<(), AllocError>
    requires { IsEncodable (Insn.Bne 6 0 back) }
{
    put(
        code,
        Insn::Addi {
            rd: 6,
            rs1: 6,
            imm: u64::MAX,
        },
    )?;
    put(
        code,
        Insn::Bne {
            rs1: 6,
            rs2: 0,
            imm: back,
        },
    )
}

/// Four instructions a turn: two sums, the count, the branch.
fn put_adds(code: &mut Vec<u8>) -> Result<(), AllocError> {
    put_start(code)?;
    put(
        code,
        Insn::Addi {
            rd: 7,
            rs1: 7,
            imm: 1,
        },
    )?;
    put(
        code,
        Insn::Add {
            rd: 8,
            rs1: 8,
            rs2: 7,
        },
    )?;
    put_turn(code, u64::MAX - 11)?;
    put_end(code)
}

/// Five instructions a turn: a load, a sum, a store, the count, the branch.
fn put_memory(code: &mut Vec<u8>) -> Result<(), AllocError> {
    put_start(code)?;
    put(
        code,
        Insn::Ld {
            rd: 7,
            rs1: 12,
            imm: 8,
        },
    )?;
    put(
        code,
        Insn::Addi {
            rd: 7,
            rs1: 7,
            imm: 1,
        },
    )?;
    put(
        code,
        Insn::Sd {
            rs1: 12,
            rs2: 7,
            imm: 8,
        },
    )?;
    put_turn(code, u64::MAX - 15)?;
    put_end(code)
}

fn loop_image(alloc: Global, name: &str, count: u64) -> anyhow::Result<Image> {
    let mut bytes = Vec::new(alloc);
    let turns = match name {
        "adds" => {
            put_adds(&mut bytes)?;
            count / 4
        }
        "memory" => {
            put_memory(&mut bytes)?;
            count / 5
        }
        _ => anyhow::bail!("no loop has the name {name}"),
    };
    bytes.resize(512, 0)?;
    bytes.extend_from_slice(&turns.max(1).to_le_bytes())?;
    Ok(Image {
        bytes: List::from_vec(bytes),
        code_len: 512,
        entry: 0,
    })
}

/// Runs the machine until it ends, but for no more than so many steps.
fn run(machine: &mut Machine, steps: u64) -> Event {
    for _ in 0..steps {
        match machine.step(None) {
            Event::Ran | Event::WantByte | Event::GiveByte(_) => {}
            Event::Exit(code) => return Event::Exit(code),
            Event::Limited(limit) => return Event::Limited(limit),
            Event::Trap(kind) => return Event::Trap(kind),
        }
    }
    Event::Ran
}

fn main(rt: HostRuntime) -> anyhow::Result<()> {
    let alloc = rt.alloc();
    let mut words = env::args(&rt)?.skip(1);
    let name = words.next().context("the name of a loop is wanting")?;
    let count = words
        .next()
        .context("the count of instructions is wanting")?;
    let count: u64 = count.parse()?;
    let image = loop_image(alloc, &name, count)?;
    let mut machine = match Machine::load(alloc, &image, Limits::standard()) {
        Ok(machine) => machine,
        Err(_) => anyhow::bail!("there isn't the memory"),
    };
    let ended = run(&mut machine, u64::MAX);
    println!(rt; "{ended:?}")?;
    Ok(())
}
