ghost use Rattle.std.specs.Prelude.{◌++◌, codes};
ghost use Rattle.std.specs.Fmt.{decimal};
ghost use Rattle.realtime_replay.specs.Flows.{flow};
ghost use Rattle.realtime_replay.specs.Lines.{Said, line_of};

use crate::status::Status;
use itoa::Buffer;
use rt_io::{Sink, write_all};

/// Says a text.
fn say_text<E: Sink>(err: &mut E, text: &str)
    ensures { Said
        (flow (E.held err.old) (E.held err.new) (E.faults err.old) (E.faults err.new))
        text.now }
{
    let _ = write_all(err, text.as_bytes());
}

/// Says two texts, one behind the other; behind one that can't be said nothing is.
fn say_both<E: Sink>(err: &mut E, first: &str, second: &str)
    ensures { Said
        (flow (E.held err.old) (E.held err.new) (E.faults err.old) (E.faults err.new))
        (first.now ++ second.now) }
{
    match write_all(err, first.as_bytes()) {
        Ok(()) => say_text(err, second),
        Err(_) => (),
    }
}

/// Says three texts, one behind the other; behind one that can't be said nothing is.
fn say_parts<E: Sink>(err: &mut E, first: &str, middle: &str, last: &str)
    ensures { Said
        (flow (E.held err.old) (E.held err.new) (E.faults err.old) (E.faults err.new))
        (first.now ++ middle.now ++ last.now) }
{
    match write_all(err, first.as_bytes()) {
        Ok(()) => say_both(err, middle, last),
        Err(_) => (),
    }
}

/// Says which line is refused. Takes no memory.
fn say_refused<E: Sink>(err: &mut E, line: u64)
    ensures { Said
        (flow (E.held err.old) (E.held err.new) (E.faults err.old) (E.faults err.new))
        (codes "script: line " ++ decimal line ++ codes ": form\n") }
{
    let mut digits = Buffer::new();
    say_parts(err, "script: line ", digits.format(line), ": form\n");
}

/// Says a status on the error stream. That it can't be said changes nothing.
pub fn say<E: Sink>(err: &mut E, status: Status)
    ensures { Said
        (flow (E.held err.old) (E.held err.new) (E.faults err.old) (E.faults err.new))
        (line_of status) }
{
    match status {
        Status::Ok => say_text(err, ""),
        Status::Usage => say_text(
            err,
            concat!(
                "usage: realtime-replay replay|audit CATALOGUE SCRIPT, ",
                "check CATALOGUE, gen N, cluster SCRIPT\n",
            ),
        ),
        Status::Refused { line } => say_refused(err, line),
        Status::ReadFault => say_text(err, "read fault\n"),
        Status::WriteFault => say_text(err, "write fault\n"),
        Status::NoMemory => say_text(err, "out of memory\n"),
        Status::TooLong => say_text(err, "too long\n"),
        Status::NotBuilt => say_text(err, "not built\n"),
    }
}
