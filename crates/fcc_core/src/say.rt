//! The lines on the error stream.
ghost use Rattle.std.specs.Prelude.{◌≡◌, ◌≤◌, ◌+◌, ◌++◌, length};
ghost use Rattle.arrayvec.specs.ArrayVec.{array_vec_len};
ghost use Rattle.fcc_core.specs.Lines.{stop_status, limit_status, limit_line, trap_name, ended_status, ended_line};
ghost use Rattle.fcc_core.specs.Said.{Said};

use arrayvec::ArrayVec;
use image_run::Ended;
use itoa::Buffer;
use jf_outside::{Put, Sink};
use rv_machine::TrapKind;

/// The bytes that the longest line of a run's end has room in.
const LINE_ROOM: usize = 32;

/// Puts a line on the error stream. The answer is the status, or 208 where the stream fails.
pub fn say<E: Sink>(err: &mut E, line: &[u8], status: u8) -> u8
    ensures { Said status line.now result (E.faults err.old) (E.faults err.new) (E.contents err.old) (E.contents err.new) }
{
    match err.put(line) {
        Put::Done => status,
        Put::Failed => 208,
    }
}

fn stop_status(code: i32) -> u8
    ensures { result ≡ stop_status code }
{
    if code >= 0 && code < 200 {
        code as u8
    } else {
        199
    }
}

fn append(line: &mut ArrayVec<u8, LINE_ROOM>, piece: &[u8])
    requires { array_vec_len line.old + length piece.now ≤ 32 }
    ensures items { line.new.items ≡ line.old.items ++ piece.now }
    ensures len { array_vec_len line.new ≡ array_vec_len line.old + length piece.now }
{
    let _ = line.try_extend_from_slice(piece);
}

fn say_limit<E: Sink>(err: &mut E, limit: u8) -> u8
    ensures { Said (limit_status limit) (limit_line limit) result (E.faults err.old) (E.faults err.new) (E.contents err.old) (E.contents err.new) }
{
    if limit == 0 {
        say(err, b"frame limit\n", 205)
    } else {
        say(err, b"object limit\n", 206)
    }
}

fn trap_name(kind: TrapKind) -> &'static [u8]
    ensures name { result.now ≡ trap_name kind }
    ensures short { length result.now ≤ 5 }
{
    match kind {
        TrapKind::Word => b"word",
        TrapKind::Range => b"range",
        TrapKind::Align => b"align",
        TrapKind::Call => b"call",
        TrapKind::Break => b"break",
    }
}

fn say_stop<E: Sink>(err: &mut E, code: i32) -> u8
    ensures { Said (ended_status (Ended.Stop code)) (ended_line (Ended.Stop code)) result (E.faults err.old) (E.faults err.new) (E.contents err.old) (E.contents err.new) }
{
    let mut line = ArrayVec::<u8, LINE_ROOM>::new();
    let mut digits = Buffer::new();
    append(&mut line, b"stop ");
    append(&mut line, digits.format(code).as_bytes());
    append(&mut line, b"\n");
    say(err, line.as_slice(), stop_status(code))
}

fn say_trap<E: Sink>(err: &mut E, kind: TrapKind) -> u8
    ensures { Said (ended_status (Ended.Trap kind)) (ended_line (Ended.Trap kind)) result (E.faults err.old) (E.faults err.new) (E.contents err.old) (E.contents err.new) }
{
    let mut line = ArrayVec::<u8, LINE_ROOM>::new();
    append(&mut line, b"trap ");
    append(&mut line, trap_name(kind));
    append(&mut line, b"\n");
    say(err, line.as_slice(), 210)
}

/// Says how a run ended, and answers its status.
pub fn say_ended<E: Sink>(err: &mut E, ended: Ended) -> u8
    ensures { Said (ended_status ended) (ended_line ended) result (E.faults err.old) (E.faults err.new) (E.contents err.old) (E.contents err.new) }
{
    match ended {
        Ended::Stop(code) => say_stop(err, code),
        Ended::Steps => say(err, b"step bound\n", 204),
        Ended::Limited(limit) => say_limit(err, limit),
        Ended::Input => say(err, b"input fault\n", 207),
        Ended::Put => say(err, b"sink fault\n", 208),
        Ended::Trap(kind) => say_trap(err, kind),
    }
}
