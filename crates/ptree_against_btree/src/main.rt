//! Inserts and removals in a fixed pseudorandom order, on a `Tree` and on std's `BTreeMap` side by side.
//!
//! Prints how much was done and how often the two differed. A snapshot is taken every 1,000 steps, and
//! each is walked at the end against what the map held when it was taken. A worked example stands before.
#![tactic(auto)]

mod compared;
mod worked;

use compared::Compared;
use rand_core::utils::NextWord;
use rand_pcg::Pcg32;
use std::alloc::{AllocError, Global};
use std::io;

const STEPS: u32 = 100_000;

const KEYS: u32 = 24_000;

const SNAPSHOT_EVERY: u32 = 1_000;

#[derive(Clone, Copy)]
enum Phase {
    // Three steps of four are inserts.
    Growing,
    // Three steps of four are removals.
    Shrinking,
    // Each key is removed once, so that every leaf and branch becomes empty.
    Draining,
}

fn phase_of(step: u32) -> Phase {
    match step {
        50_000..75_000 => Phase::Shrinking,
        75_000..99_000 => Phase::Draining,
        _ => Phase::Growing,
    }
}

fn take_step(both: &mut Compared, step: u32, word: u32) -> Result<(), AllocError> {
    let key = (word >> 8) % KEYS;
    match phase_of(step) {
        Phase::Growing if word % 4 != 0 => both.insert(key, step),
        Phase::Shrinking if word % 4 == 0 => both.insert(key, step),
        // 7919 has no factor in common with the number of keys.
        Phase::Draining => both.remove((step % KEYS * 7919) % KEYS),
        _ => both.remove(key),
    }
}

fn run(alloc: Global) -> Result<Compared, AllocError> {
    let mut rng = Pcg32::new(42, 54);
    let mut both = Compared::new(alloc);
    for step in 0..STEPS {
        let word = rng.next_word();
        take_step(&mut both, step, word)?;
        both.look_up((word >> 4) % KEYS);
        if step % SNAPSHOT_EVERY == SNAPSHOT_EVERY - 1 {
            both.take_snapshot()?;
            both.walk_from((word >> 6) % KEYS);
        }
    }
    Ok(both)
}

fn main(rt: HostRuntime) -> io::Result<()> {
    let worked = worked::example(rt.alloc())?;
    println!(rt; "{worked}")?;
    let both = run(rt.alloc())?;
    let counts = both.counts();
    let inserted = counts.inserted;
    let replaced = counts.replaced;
    println!(rt; "inserts of new keys {inserted}, of present keys {replaced}")?;
    let removed = counts.removed;
    let absent = counts.absent;
    println!(rt; "removals of present keys {removed}, of absent keys {absent}")?;
    let differing = counts.differing;
    println!(rt; "steps that differ {differing}")?;
    let walked = both.walk_snapshots();
    let snapshots = walked.snapshots;
    let entries = walked.entries;
    let differing = walked.differing;
    println!(rt; "snapshots {snapshots} with {entries} entries, that differ {differing}")?;
    let len = both.len();
    let same = both.is_same()?;
    println!(rt; "entries at the end {len}, the same: {same}")
}
