ghost use Rattle.std.specs.Prelude.{◌≡◌, ℕ, List, IfOk, MatchOption};
ghost use Rattle.command.specs.Words.{texts, SaysRun, Says, SaysNothing};
ghost use Rattle.command.specs.declared.words.Command.{Command};
ghost use Rattle.command.specs.declared.words.RunWords.{RunWords};

use crate::files::{are_files, file_words};
use crate::options::{are_run_options, steps};
use jf_base::{Limits, List, Memory, Text};
use std::alloc::Global;

/// A command with what its words name.
#[derive(PartialEq, Eq, Debug, Drop)]
pub enum Command {
    Run(RunWords),
}

/// The words of `run`: the limits of the run, and 1 to 64 different names of files in order.
#[derive(PartialEq, Eq, Debug, Drop)]
pub struct RunWords {
    pub limits: Limits,
    pub files: List<Text>,
}

fn read_run(alloc: Global, words: &[String]) -> Result<Option<RunWords>, Memory>
    ensures { IfOk result (λ read. MatchOption read ((run : RunWords) → SaysRun (texts words.now) run → ⊥) (SaysRun (texts words.now))) }
{
    if !are_run_options(words) {
        return Ok(None);
    }
    let Some(steps) = steps(words) else {
        return Ok(None);
    };
    let files = file_words(alloc, words)?;
    if !are_files(files.as_slice()) {
        return Ok(None);
    }
    let mut limits = Limits::standard();
    limits.steps = steps;
    Ok(Some(RunWords { limits, files }))
}

/// The command that the words name, which are those after the program's name: None exactly where they aren't the words of a command.
pub fn read_words(alloc: Global, words: &[String]) -> Result<Option<Command>, Memory>
    ensures { IfOk result (λ read. MatchOption read (SaysNothing (texts words.now)) (Says (texts words.now))) }
{
    let Some((first, words)) = words.split_first() else {
        return Ok(None);
    };
    if first.as_str() != "run" {
        return Ok(None);
    }
    match read_run(alloc, words)? {
        Some(run) => Ok(Some(Command::Run(run))),
        None => Ok(None),
    }
}

/// The words are those of one command at most.
pub fn command_of_words_is_unique()
    ensures { (words : List (List ℕ)) (one other : Command) → Says words one → Says words other → one ≡ other }
{}
