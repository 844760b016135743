//! The top call.
ghost use Rattle.std.specs.Prelude.{◌≡◌, ◌≤◌, None, IfOk, length};
ghost use Rattle.rv_machine.specs.declared.event.Mode.TheVariants.{Ready};
ghost use Rattle.rv_machine.specs.Loaded.{loaded};
ghost use Rattle.command.specs.Words.{texts};
ghost use Rattle.first_form.specs.Readings.{IsFirstProgram};
ghost use Rattle.first_image.specs.Compiled.{IsCompiled, AreStandard};
ghost use Rattle.fcc_core.specs.Answer.{IsCaused, IsObeyed, HasFewFiles, HasStandardLimits, IsAnswered, IsComplete};

use crate::front::front;
use crate::say::{say, say_ended};
use crate::tell::{say_fault, say_memory};
use command::{Command, RunWords, read_words};
use first_form::FirstProgram;
use first_image::compile;
use image_run::run_image;
use jf_base::{Limits, Memory};
use jf_outside::{Library, Sink, Source};
use program_image::Image;
use rv_machine::Machine;
use std::alloc::Global;

/// An image, and a machine that has loaded it.
#[derive(Drop)]
struct Loaded {
    image: Image,
    machine: Machine,
}

fn load_program(alloc: Global, program: &FirstProgram, limits: Limits) -> Result<Loaded, Memory>
    requires form { IsFirstProgram program.now }
    requires limits { AreStandard limits }
    ensures compiled { IfOk result (λ l. IsCompiled program.now l.image) }
    ensures loaded { IfOk result (λ l. l.machine ≡ loaded l.image limits) }
    ensures ready { IfOk result (λ l. l.machine.mode ≡ Ready) }
{
    let image = compile(alloc, program)?;
    let machine = Machine::load(alloc, &image, limits)?;
    Ok(Loaded { image, machine })
}

// The command `run`.
fn run_files<L: Library, I: Source, O: Sink, E: Sink>(
    alloc: Global,
    run: &RunWords,
    library: &mut L,
    input: &mut I,
    out: &mut O,
    err: &mut E,
    kept: &mut Option<Image>,
) -> u8
    requires limits { AreStandard run.now.limits }
    requires files { length run.now.files ≤ 64 }
    requires none_kept { kept.old ≡ None }
    ensures listing { L.files library.new ≡ L.files library.old }
    ensures caused { IsCaused run.now
        (record {
          library = record { listing = L.files library.old; faults = L.faults library.old; strays = L.strays library.old };
          input = record { left = I.left input.old; faults = I.faults input.old };
          out = record { contents = O.contents out.old; faults = O.faults out.old };
        })
        (record {
          library = record { listing = L.files library.new; faults = L.faults library.new; strays = L.strays library.new };
          input = record { left = I.left input.new; faults = I.faults input.new };
          out = record { contents = O.contents out.new; faults = O.faults out.new };
        })
        kept.new result
        (record { contents = E.contents err.old; faults = E.faults err.old }) (record { contents = E.contents err.new; faults = E.faults err.new }) }
{
    let program = match front(alloc, run.files.as_slice(), library) {
        Ok(program) => program,
        Err(fault) => return say_fault(alloc, err, run.files.as_slice(), &fault),
    };
    let Ok(Loaded { image, mut machine }) = load_program(alloc, &program, run.limits) else {
        return say_memory(err);
    };
    let ended = run_image(&mut machine, run.limits.steps, input, out);
    *kept = Some(image);
    say_ended(err, ended)
}

fn obey<L: Library, I: Source, O: Sink, E: Sink>(
    alloc: Global,
    command: &Command,
    library: &mut L,
    input: &mut I,
    out: &mut O,
    err: &mut E,
    kept: &mut Option<Image>,
) -> u8
    requires limits { HasStandardLimits command.now }
    requires files { HasFewFiles command.now }
    requires none_kept { kept.old ≡ None }
    ensures listing { L.files library.new ≡ L.files library.old }
    ensures obeyed { IsObeyed command.now
        (record {
          library = record { listing = L.files library.old; faults = L.faults library.old; strays = L.strays library.old };
          input = record { left = I.left input.old; faults = I.faults input.old };
          out = record { contents = O.contents out.old; faults = O.faults out.old };
        })
        (record {
          library = record { listing = L.files library.new; faults = L.faults library.new; strays = L.strays library.new };
          input = record { left = I.left input.new; faults = I.faults input.new };
          out = record { contents = O.contents out.new; faults = O.faults out.new };
        })
        kept.new result
        (record { contents = E.contents err.old; faults = E.faults err.old }) (record { contents = E.contents err.new; faults = E.faults err.new }) }
{
    match command {
        Command::Run(run) => run_files(alloc, run, library, input, out, err, kept),
    }
}

/// Does what the words say, which are those after the program's name, and answers the status. `kept` is left with the image that was loaded into the machine, or None where none was.
pub fn fcc<L: Library, I: Source, O: Sink, E: Sink>(
    alloc: Global,
    words: &[String],
    library: &mut L,
    input: &mut I,
    out: &mut O,
    err: &mut E,
    kept: &mut Option<Image>,
) -> u8
    ensures listing { L.files library.new ≡ L.files library.old }
    ensures answered { IsAnswered (texts words.now)
        (record {
          library = record { listing = L.files library.old; faults = L.faults library.old; strays = L.strays library.old };
          input = record { left = I.left input.old; faults = I.faults input.old };
          out = record { contents = O.contents out.old; faults = O.faults out.old };
        })
        (record {
          library = record { listing = L.files library.new; faults = L.faults library.new; strays = L.strays library.new };
          input = record { left = I.left input.new; faults = I.faults input.new };
          out = record { contents = O.contents out.new; faults = O.faults out.new };
        })
        kept.new result
        (record { contents = E.contents err.old; faults = E.faults err.old }) (record { contents = E.contents err.new; faults = E.faults err.new }) }
    ensures complete { IsComplete (texts words.now)
        (record {
          library = record { listing = L.files library.old; faults = L.faults library.old; strays = L.strays library.old };
          input = record { left = I.left input.old; faults = I.faults input.old };
          out = record { contents = O.contents out.old; faults = O.faults out.old };
        })
        (record {
          library = record { listing = L.files library.new; faults = L.faults library.new; strays = L.strays library.new };
          input = record { left = I.left input.new; faults = I.faults input.new };
          out = record { contents = O.contents out.new; faults = O.faults out.new };
        })
        result
        (record { contents = E.contents err.old; faults = E.faults err.old }) (record { contents = E.contents err.new; faults = E.faults err.new }) }
{
    *kept = None;
    let read = match read_words(alloc, words) {
        Ok(read) => read,
        Err(_) => return say_memory(err),
    };
    match read {
        Some(command) => obey(alloc, &command, library, input, out, err, kept),
        None => say(err, b"words\n", 200),
    }
}
