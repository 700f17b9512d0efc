//! What whole reads and writes give, and what the adapters make of a device's answers.
//!
//! `read BYTES LIMIT FAILING ..`: a whole read of a source of so many bytes, whose reads of these
//! numbers, counted from 0, fail. The answer is how many bytes it gave, or the fault, and then the
//! source's faults. `write ROOM FAILING ..`: a whole write of `abcd` into a sink with room for so
//! many bytes; the answer is what the sink took, the fault where there is one, and its faults.
//! `reader COUNT` and `writer COUNT`: one read of 8 bytes, one write of 4, of a device that answers
//! this count, or fails where there is none; the answer, and the adapter's faults. `unopened`: a
//! whole read of what could not be opened.
#![tactic(auto)]

mod devices;
mod wholes;

use case_lines::{answer_cases, text_of};
use std::alloc::Global;
use std::io;

fn answer(alloc: Global, case: &[u8]) -> io::Result<String> {
    let words: Vec<&str> = text_of(case)?.split(' ').collect(alloc)?;
    match words.as_slice() {
        ["read", words @ ..] => wholes::read(alloc, words),
        ["write", words @ ..] => wholes::written(alloc, words),
        ["reader", words @ ..] => devices::read(alloc, devices::device_of(words)),
        ["writer", words @ ..] => devices::written(alloc, devices::device_of(words)),
        ["unopened"] => devices::unopened(alloc),
        _ => Err(io::ErrorKind::InvalidInput.into()),
    }
}

fn main(rt: HostRuntime) -> io::Result<()> {
    answer_cases(&rt, answer)
}
