//! Pseudorandom steps of five nodes, on replicas and on a plain model side by side.
//!
//! Nodes track, untrack and drop one another, and are given deltas of any operation before, so that
//! some are lost, some come again and all come in any order. Every 1,000 steps and after a last sync
//! of all with all, each node's states are compared with the model's, and in the end with each other's.
//! Prints how much was done and how often two differed.
#![tactic(auto)]

mod model;
mod nodes;

use nodes::Nodes;
use rand_core::utils::NextWord;
use rand_pcg::Pcg32;
use std::alloc::Global;
use std::io;

const STEPS: u32 = 100_000;

const COMPARE_EVERY: u32 = 1_000;

fn take_step(alloc: Global, nodes: &mut Nodes, step: u32, word: u32, other: u32) -> io::Result<()> {
    let node = other % nodes::COUNT;
    match word % 1_000 {
        0..250 => nodes.track(alloc, node, other >> 8, step),
        250..330 => nodes.untrack(alloc, node, other >> 8),
        330..332 => nodes.drop_node(alloc, node, (other >> 8) % nodes::COUNT),
        332..333 => nodes.sync(alloc, node, (other >> 8) % nodes::COUNT),
        _ => nodes.give(alloc, node, word >> 10),
    }
}

fn run(alloc: Global) -> io::Result<Nodes> {
    let mut rng = Pcg32::new(42, 54);
    let mut nodes = Nodes::new(alloc)?;
    for step in 0..STEPS {
        let word = rng.next_word();
        let other = rng.next_word();
        take_step(alloc, &mut nodes, step, word, other)?;
        if step % COMPARE_EVERY == COMPARE_EVERY - 1 {
            nodes.compare(alloc)?;
        }
    }
    Ok(nodes)
}

fn main(rt: HostRuntime) -> io::Result<()> {
    let mut nodes = run(rt.alloc())?;
    nodes.sync_all(rt.alloc())?;
    nodes.compare(rt.alloc())?;
    let told = nodes.told();
    let given = nodes.given();
    println!(rt; "operations {told}, deltas given {given}")?;
    let compared = nodes.compared();
    let differing = nodes.differing();
    println!(rt; "states compared {compared}, that differ {differing}")?;
    let unlike = nodes.unlike(rt.alloc())?;
    println!(rt; "nodes that show another state than the first in the end {unlike}")
}
