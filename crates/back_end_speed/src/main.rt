//! Takes a long program through the stages of the back end: the first word says which, `straight`, `choices`, `loops`, `deep_choices`, `deep_loops`, `alive`, `groups`, `wide` or `procedures`,
//! and the second how many statements it has about. The third, where there is one, is the last stage: `blocks`, `homes`, `verdicts`, `lines` or `image`; without it that is `image`.
//! What it prints is what each stage made. With a fourth word it says on the error output how long each stage takes.
#![tactic(auto)]

mod programs;
mod stages;

use crate::programs::program_of;
use crate::stages::{Stage, run, stage_of};
use anyhow::Context;
use std::env;

fn main(rt: HostRuntime) -> anyhow::Result<()> {
    let alloc = rt.alloc();
    let mut words = env::args(&rt)?.skip(1);
    let name = words.next().context("the name of a program is wanting")?;
    let count = words.next().context("the count is wanting")?;
    let p = program_of(alloc, &name, count.parse()?)?.context("no program has this name")?;
    let last = match words.next() {
        Some(word) => stage_of(&word).context("no stage has this name")?,
        None => Stage::Image,
    };
    let is_timed = words.next().is_some();
    run(&rt, alloc, &p, last, is_timed)
}
