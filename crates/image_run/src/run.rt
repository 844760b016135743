//! A machine that runs over a source and a sink.
ghost use Rattle.std.specs.Prelude.{◌≡◌, ℕ, List, Option, Some};
ghost use Rattle.rv_machine.specs.declared.event.Mode.{Mode};
ghost use Rattle.rv_machine.specs.declared.event.Mode.TheVariants.{Ready, Waiting};
ghost use Rattle.rv_machine.specs.Exec.{Run, start};
ghost use Rattle.image_run.specs.Leaves.{IsAt, FaultsAre, Leaves, TurnFaultsAre, TurnLeaves, TakeLeaves, GiveLeaves};

use jf_outside::{Put, Sink, Source, Taken};
use rv_machine::{Event, Machine, TrapKind};

/// Why a run is over.
#[derive(Clone, Copy, Debug, PartialEq, Eq)]
pub enum Ended {
    Stop(i32),
    Steps,
    Limited(u8),
    Input,
    Put,
    Trap(TrapKind),
}

/// What one instruction did to a run.
#[derive(Clone, Copy)]
enum Turned {
    Went,
    Over(Ended),
}

// A byte for a machine that waits for one.
fn take<I: Source>(machine: &mut Machine, input: &mut I) -> Turned
    requires { machine.old.mode ≡ Waiting }
    ensures cause { TurnFaultsAre result (I.faults input.old) (I.faults input.new) 0 0 }
    ensures ready { result ≡ Turned.Went → machine.new.mode ≡ Ready }
    ensures gives { (r : Run) → I.left input.old ≡ Some r.left →
        TakeLeaves result r machine.old machine.new (I.left input.new) }
{
    match input.next() {
        Taken::Byte(byte) => {
            let _ran = machine.step(Some(byte));
            Turned::Went
        }
        Taken::End => {
            let _ran = machine.step(None);
            Turned::Went
        }
        Taken::Failed => Turned::Over(Ended::Input),
    }
}

fn give<O: Sink>(byte: u8, out: &mut O) -> Turned
    ensures cause { TurnFaultsAre result 0 0 (O.faults out.old) (O.faults out.new) }
    ensures gives { GiveLeaves result byte (O.contents out.old) (O.contents out.new) }
{
    match out.put(&[byte]) {
        Put::Done => Turned::Went,
        Put::Failed => Turned::Over(Ended::Put),
    }
}

// One instruction.
#[inline]
fn turn<I: Source, O: Sink>(machine: &mut Machine, input: &mut I, out: &mut O) -> Turned
    requires { machine.old.mode ≡ Ready }
    ensures cause { TurnFaultsAre result (I.faults input.old) (I.faults input.new) (O.faults out.old) (O.faults out.new) }
    ensures ready { result ≡ Turned.Went → machine.new.mode ≡ Ready }
    ensures gives { (r : Run) (base : Option (List ℕ)) →
        IsAt r base machine.old (I.left input.old) (O.contents out.old) →
        TurnLeaves result r base machine.new (I.left input.new) (O.contents out.new) }
{
    match machine.step(None) {
        Event::Ran => Turned::Went,
        Event::WantByte => take(machine, input),
        Event::GiveByte(byte) => give(byte, out),
        Event::Exit(code) => Turned::Over(Ended::Stop(code)),
        Event::Limited(limit) => Turned::Over(Ended::Limited(limit)),
        Event::Trap(kind) => Turned::Over(Ended::Trap(kind)),
    }
}

/// Runs the machine for at most so many instructions.
#[inline(never)]
pub fn run_image<I: Source, O: Sink>(
    machine: &mut Machine,
    steps: u64,
    input: &mut I,
    out: &mut O,
) -> Ended
    requires { machine.old.mode ≡ Ready }
    ensures cause { FaultsAre result (I.faults input.old) (I.faults input.new) (O.faults out.old) (O.faults out.new) }
    ensures gives { (bytes : List ℕ) → I.left input.old ≡ Some bytes →
        Leaves result (start machine.old bytes) steps (O.contents out.old)
        machine.new (I.left input.new) (O.contents out.new) }
{
    for _turn in 0..steps {
        match turn(machine, input, out) {
            Turned::Went => {}
            Turned::Over(ended) => return ended,
        }
    }
    Ended::Steps
}
