//! What calls on a presence answer.
//!
//! A case is calls on one presence, with ` | ` between two, and its answer is theirs: to `track TOPIC
//! CHANNEL KEY NUMBER JSON`, `untrack TOPIC CHANNEL` and `drop TOPIC CHANNEL` the tree of what they
//! change, to `state TOPIC` its tree. `copy` puts a copy aside, and `back` changes places with it.
//! After `together` the answer is one tree of what all the calls change.
#![tactic(auto)]

mod calls;
mod changes;

use case_lines::{answer_cases, text_of};
use std::alloc::Global;
use std::io;

fn answer(alloc: Global, case: &[u8]) -> io::Result<String> {
    let case = text_of(case)?;
    match case.strip_prefix("together ") {
        Some(calls) => calls::together(alloc, calls),
        None => calls::in_turn(alloc, case),
    }
}

fn main(rt: HostRuntime) -> io::Result<()> {
    answer_cases(&rt, answer)
}
