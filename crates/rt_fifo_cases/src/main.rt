//! What a queue answers in one hand and between two threads, a case a line.
//!
//! `alone CAPACITY: STEP, STEP..` takes steps of one thread that holds both ends, each `push ITEM`, `pop`,
//! `settle` or `next`, and says what each answers. `threads CAPACITY: ITEMS but LEFT` sends the numbers
//! below ITEMS from one thread to another, which receives all but the last LEFT of them; once both have
//! ended, those are taken from the joined ends.
#![tactic(auto)]

mod alone;
mod threads;

use case_lines::{answer_cases, text_of};
use std::alloc::Global;
use std::io;
use std::sync::Wait;
use std::thread::Threads;

fn answer<R: Threads + Wait + Sync>(rt: &R, alloc: Global, case: &[u8]) -> io::Result<String> {
    let Some((hands, steps)) = text_of(case)?.split_once(": ") else {
        return Err(io::ErrorKind::InvalidInput.into());
    };
    match hands.split_once(' ') {
        Some(("alone", capacity)) => alone::answer(rt, alloc, number(capacity)?, steps),
        Some(("threads", capacity)) => threads::answer(rt, alloc, number(capacity)?, steps),
        _ => Err(io::ErrorKind::InvalidInput.into()),
    }
}

fn number(text: &str) -> io::Result<usize> {
    match text.parse::<usize>() {
        Ok(number) => Ok(number),
        Err(_) => Err(io::ErrorKind::InvalidInput.into()),
    }
}

fn main(rt: HostRuntime) -> io::Result<()> {
    answer_cases(&rt, |alloc, case| answer(&rt, alloc, case))
}
