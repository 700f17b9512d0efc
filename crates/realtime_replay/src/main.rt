//! Replays a recorded stream over a catalogue and says what each socket gets.
#![tactic(auto)]

mod clustering;
mod fault;
mod places;
mod replaying;
mod saying;
mod status;
mod words;

use places::open_script;
use replaying::{refuse, replay};
use rt_io::{Sink, StandardSink, StandardSource};
use status::Status;
use std::alloc::Global;
use std::process::ExitCode;
use std::rt::{Env, Files};
use std::thread::Threads;
use std::{env, fs, io};

/// The words behind the program's name.
fn words_of<R: Env + AllocGlobal>(rt: &R) -> io::Result<Vec<String>> {
    let mut words = Vec::new(rt.alloc());
    for word in env::args(rt)?.skip(1) {
        words.push(word)?;
    }
    Ok(words)
}

/// Does what the words say, over the places that they name.
fn replay_places<R: Files + Input + Threads + Sync, O: Sink, E: Sink>(
    rt: &R,
    alloc: Global,
    words: &[&str],
    out: &mut O,
    err: &mut E,
) -> Status {
    // Where a word is missing, `replay` refuses the words before it reads. A script of nodes stands
    // alone.
    let catalogue_place = words.get(1).copied().unwrap_or("");
    let script_place = words.get(2).copied().unwrap_or(catalogue_place);
    let mut catalogue = StandardSource::new(fs::open(rt, catalogue_place));
    let mut script = StandardSource::new(open_script(rt, script_place));
    replay(rt, alloc, words, &mut catalogue, &mut script, out, err)
}

/// Does what the command line says. An error is that its words can't be had.
fn run<R: Env + AllocGlobal + Files + Input + Threads + Sync, O: Sink, E: Sink>(
    rt: &R,
    out: &mut O,
    err: &mut E,
) -> io::Result<Status> {
    let owned = words_of(rt)?;
    let words = owned
        .iter()
        .map(|word| word.as_str())
        .collect::<Vec<&str>>(rt.alloc())?;
    Ok(replay_places(rt, rt.alloc(), words.as_slice(), out, err))
}

fn main(rt: HostRuntime) -> ExitCode {
    let mut out = StandardSink::new(rt.stdout());
    let mut err = StandardSink::new(rt.stderr());
    let status = match run(&rt, &mut out, &mut err) {
        Ok(status) => status,
        Err(fault) => refuse(&mut err, &fault),
    };
    ExitCode::from(status.number())
}
