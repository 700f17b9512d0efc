//! The messages table of a catalogue, and what a role may do on a topic.
//!
//! A case is parts with ` | ` between two. They make a catalogue and its rows, or ask, and the
//! answer is what is answered, in turn. What the parts say stands in front of the cases.
#![tactic(auto)]

mod condition;
mod value;
mod world;

use case_lines::{answer_cases, text_of};
use std::alloc::Global;
use std::io;
use world::World;

fn answer(alloc: Global, case: &[u8]) -> io::Result<String> {
    let case = text_of(case)?;
    let mut world = World::new(alloc);
    for part in case.split(" | ") {
        world.add(alloc, part)?;
    }
    world.answer(alloc)
}

fn main(rt: HostRuntime) -> io::Result<()> {
    answer_cases(&rt, answer)
}
