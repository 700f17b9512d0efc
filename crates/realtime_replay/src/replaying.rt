ghost use Rattle.std.specs.Prelude.{◌≡◌, ◌≢◌, map, List, ℕ, IfErr, IfOk, OnOk};
ghost use Rattle.std.specs.IoError.{error_kind};
ghost use Rattle.rt_form.specs.Output.{given};
ghost use Rattle.rt_form.specs.Printed.{printed};
ghost use Rattle.realtime_replay.specs.Answers.{HasNoCatalogue, IsCalm, IsComplete, Ran, RunTells};
ghost use Rattle.realtime_replay.specs.Answers.{Tells};
ghost use Rattle.realtime_replay.specs.Clusters.{IsCalmAlone, IsClusterComplete};
ghost use Rattle.realtime_replay.specs.Faults as faults;
ghost use Rattle.realtime_replay.specs.Flows.{flow};
ghost use Rattle.realtime_replay.specs.Lines.{Said, line_of};
ghost use Rattle.realtime_replay.specs.Parts.{HasOne, HasScript, LacksScript, SourceTells};
ghost use Rattle.realtime_replay.specs.Words.{IsCommand, NoCommand};
ghost use Rattle.realtime_replay.specs.declared.words.Command.{Command};

use crate::clustering::cluster_status;
use crate::fault::RunFault;
use crate::saying::say;
use crate::status::{Status, status_of, status_without_words};
use crate::words::{Command, command_of};
use rt_first::laws::given_is_due;
use rt_form::{
    Catalogue, Script, change, join_reply, print_slot, read_catalogue, read_script, subscribed,
};
use rt_io::{Sink, Source, read_all, write_all};
use rt_value::Bytes;
use std::alloc::{AllocError, Global};
use std::io;
use std::io::ErrorKind;
use std::thread::Threads;

/// The most bytes of a source.
pub const MOST_SOURCE_BYTES: usize = 67108864;

/// The catalogue of the first form that a source gives.
fn catalogue_from<S: Source>(alloc: Global, source: &mut S) -> Result<Catalogue, RunFault>
    ensures found { IfOk result (λ catalogue. HasOne
        (flow (S.left source.old) (S.left source.new)
        (S.faults source.old) (S.faults source.new)) catalogue) }
    ensures cause { IfErr result (SourceTells HasNoCatalogue
        (flow (S.left source.old) (S.left source.new)
        (S.faults source.old) (S.faults source.new))) }
{
    let text = read_all(alloc, source, MOST_SOURCE_BYTES)?;
    let catalogue = read_catalogue(alloc, text.get())?;
    Ok(catalogue)
}

/// The script of the first form that a source gives, over a catalogue.
fn script_from<S: Source>(
    alloc: Global,
    catalogue: &Catalogue,
    source: &mut S,
) -> Result<Script, RunFault>
    ensures found { IfOk result (λ script. HasScript catalogue.now
        (flow (S.left source.old) (S.left source.new)
        (S.faults source.old) (S.faults source.new)) script) }
    ensures cause { IfErr result (SourceTells (LacksScript catalogue.now)
        (flow (S.left source.old) (S.left source.new)
        (S.faults source.old) (S.faults source.new))) }
{
    let text = read_all(alloc, source, MOST_SOURCE_BYTES)?;
    let script = read_script(alloc, catalogue, text.get())?;
    Ok(script)
}

/// What the slot is given: the reply to its join, the system's message, the change.
fn output(alloc: Global, catalogue: &Catalogue, script: &Script) -> Result<Bytes, AllocError>
    ensures { IfOk result (λ bytes. bytes ≡ printed script.now.slot
        (given catalogue.now script.now)) }
{
    let topic = script.join.topic.get();
    let reference = script.join.reference.get();
    let table = &catalogue.table;
    let mut messages = Vec::new(alloc);
    messages.push(join_reply(alloc, topic, reference, table.name.get())?)?;
    messages.push(subscribed(alloc, topic, script.join.channel.get())?)?;
    messages.push(change(alloc, topic, table, script.row.get())?)?;
    print_slot(alloc, script.slot, messages.as_slice())
}

/// Reads both sources, runs the script and writes its output.
fn run<C: Source, S: Source, O: Sink>(
    alloc: Global,
    catalogue: &mut C,
    script: &mut S,
    out: &mut O,
) -> Result<(), RunFault>
    ensures ran { OnOk result (Ran
        (flow (C.left catalogue.old) (C.left catalogue.new)
        (C.faults catalogue.old) (C.faults catalogue.new))
        (flow (S.left script.old) (S.left script.new) (S.faults script.old) (S.faults script.new))
        (flow (O.held out.old) (O.held out.new) (O.faults out.old) (O.faults out.new))) }
    ensures cause { IfErr result (λ fault. RunTells
        (flow (C.left catalogue.old) (C.left catalogue.new)
        (C.faults catalogue.old) (C.faults catalogue.new))
        (flow (S.left script.old) (S.left script.new) (S.faults script.old) (S.faults script.new))
        (flow (O.held out.old) (O.held out.new) (O.faults out.old) (O.faults out.new))
        (faults.status_of fault)) }
{
    let form = catalogue_from(alloc, catalogue)?;
    let steps = script_from(alloc, &form, script)?;
    let bytes = output(alloc, &form, &steps)?;
    given_is_due();
    write_all(out, bytes.get())?;
    Ok(())
}

/// The status of a run.
fn status_after<C: Source, S: Source, O: Sink>(
    alloc: Global,
    catalogue: &mut C,
    script: &mut S,
    out: &mut O,
) -> Status
    ensures { RunTells
        (flow (C.left catalogue.old) (C.left catalogue.new)
        (C.faults catalogue.old) (C.faults catalogue.new))
        (flow (S.left script.old) (S.left script.new) (S.faults script.old) (S.faults script.new))
        (flow (O.held out.old) (O.held out.new) (O.faults out.old) (O.faults out.new))
        result }
{
    match run(alloc, catalogue, script, out) {
        Ok(()) => Status::Ok,
        Err(fault) => status_of(fault),
    }
}

/// Does what the words say.
fn done<C: Source, S: Source, O: Sink>(
    alloc: Global,
    words: &[&str],
    catalogue: &mut C,
    script: &mut S,
    out: &mut O,
) -> Status
    ensures { Tells (map (λ w. w.now) words.now)
        (flow (C.left catalogue.old) (C.left catalogue.new)
        (C.faults catalogue.old) (C.faults catalogue.new))
        (flow (S.left script.old) (S.left script.new) (S.faults script.old) (S.faults script.new))
        (flow (O.held out.old) (O.held out.new) (O.faults out.old) (O.faults out.new))
        result }
{
    match command_of(words) {
        None => Status::Usage,
        Some(Command::Replay) => status_after(alloc, catalogue, script, out),
        Some(Command::Cluster) => cluster_status(alloc, script, out),
        Some(Command::Audit) => Status::NotBuilt,
        Some(Command::Check) => Status::NotBuilt,
        Some(Command::Generate(_)) => Status::NotBuilt,
    }
}

/// Ends a program whose command line gave an error in place of its words: `Usage` where one of them
/// isn't UTF-8, else `NoMemory`. `err` is given the status's line.
pub fn refuse<E: Sink>(err: &mut E, error: &io::Error) -> Status
    ensures usage { error_kind error.now ≡ ErrorKind.InvalidData → result ≡ Status.Usage }
    ensures memory { error_kind error.now ≢ ErrorKind.InvalidData → result ≡ Status.NoMemory }
    ensures said { Said
        (flow (E.held err.old) (E.held err.new) (E.faults err.old) (E.faults err.new))
        (line_of result) }
{
    let status = status_without_words(error);
    say(err, status);
    status
}

/// Does what the words say: `replay CATALOGUE SCRIPT` runs a script over a catalogue and writes to
/// `out` what each slot was given, a line for each message. `cluster SCRIPT` runs a script of
/// nodes, without a catalogue, and writes what they show of presence.
///
/// The answer is the first of these that applies: `Usage` for other words, `NotBuilt` for a command
/// that isn't built, `ReadFault` and `TooLong` of the catalogue, `NotBuilt` for a catalogue of
/// another form, `ReadFault` and `TooLong` of the script, `NotBuilt` for one of another form, or
/// `Refused` for a line of a script of nodes, and `WriteFault`. Nothing is written to `out` before
/// the run has ended. `err` is given the status's line; that it can't be changes nothing. No thread
/// is started yet.
pub fn replay<R: Threads + Sync, C: Source, S: Source, O: Sink, E: Sink>(
    _rt: &R,
    alloc: Global,
    words: &[&str],
    catalogue: &mut C,
    script: &mut S,
    out: &mut O,
    err: &mut E,
) -> Status
    ensures answer { Tells (map (λ w. w.now) words.now)
        (flow (C.left catalogue.old) (C.left catalogue.new)
        (C.faults catalogue.old) (C.faults catalogue.new))
        (flow (S.left script.old) (S.left script.new) (S.faults script.old) (S.faults script.new))
        (flow (O.held out.old) (O.held out.new) (O.faults out.old) (O.faults out.new))
        result }
    ensures others { NoCommand (map (λ w. w.now) words.now) → result ≡ Status.Usage }
    ensures unbuilt { (command : Command) → IsCommand (map (λ w. w.now) words.now) command
        → command ≢ Command.Replay → command ≢ Command.Cluster → result ≡ Status.NotBuilt }
    ensures complete { (text lines : List ℕ) → IsCommand (map (λ w. w.now) words.now) Command.Replay
        → IsCalm
        (flow (C.left catalogue.old) (C.left catalogue.new)
        (C.faults catalogue.old) (C.faults catalogue.new))
        (flow (S.left script.old) (S.left script.new) (S.faults script.old) (S.faults script.new))
        (flow (O.held out.old) (O.held out.new) (O.faults out.old) (O.faults out.new))
        text lines
        → IsComplete text lines result }
    ensures complete_cluster { (lines : List ℕ)
        → IsCommand (map (λ w. w.now) words.now) Command.Cluster
        → IsCalmAlone
        (flow (S.left script.old) (S.left script.new) (S.faults script.old) (S.faults script.new))
        (flow (O.held out.old) (O.held out.new) (O.faults out.old) (O.faults out.new))
        lines
        → IsClusterComplete lines result }
    ensures said { Said
        (flow (E.held err.old) (E.held err.new) (E.faults err.old) (E.faults err.new))
        (line_of result) }
{
    let status = done(alloc, words, catalogue, script, out);
    say(err, status);
    status
}
