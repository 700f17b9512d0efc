//! Times merges into a `Replica`, for each number of live marks among the arguments.
//!
//! Prints a line for each: the marks, and how many deltas of one track were merged a second, each of
//! which replaces another, the best of several rounds.
#![tactic(auto)]

use rt_cluster::{Delta, Replica};
use rt_json::Json;
use rt_value::Text;
use std::alloc::{AllocError, Global};
use std::rt::{Clock, Env};
use std::time::Instant;
use std::{env, io};

const ROUNDS: u32 = 5;

// Over how many merges a mean is taken.
const MEASURED: u32 = 1_000;

fn key_of(alloc: Global, number: u32) -> Result<Text, AllocError> {
    Ok(Text::new(format!(in alloc; "key {number}")?))
}

fn track(alloc: Global, replica: &mut Replica, number: u32) -> io::Result<Delta> {
    if replica.made() == u32::MAX {
        return Err(io::ErrorKind::InvalidInput.into());
    }
    let topic = Text::new(String::from_str(alloc, "room")?);
    let key = key_of(alloc, number)?;
    Ok(replica.track(alloc, &topic, &key, Json::Null)?)
}

fn measure<R: Clock + AllocGlobal + Print>(rt: &R, marks: u32) -> io::Result<()> {
    let alloc = rt.alloc();
    let mut source = Replica::new(alloc, 0);
    let mut target = Replica::new(alloc, 1);
    for number in 0..marks {
        let delta = track(alloc, &mut source, number)?;
        target.merge(alloc, &delta)?;
    }
    let mut best = u128::MAX;
    for round in 0..ROUNDS {
        let mut deltas = Vec::new(alloc);
        for number in 0..MEASURED {
            let key = number.wrapping_mul(7919).wrapping_add(round) % marks.max(1);
            deltas.push(track(alloc, &mut source, key)?)?;
        }
        let start = Instant::now(rt)?;
        for delta in &deltas {
            target.merge(alloc, delta)?;
        }
        best = best.min(start.elapsed(rt)?.as_nanos());
    }
    let rate = u128::from(MEASURED) * 1_000_000_000 / best.max(1);
    println!(rt; "{marks} {rate}")
}

fn main(rt: HostRuntime) -> io::Result<()> {
    for arg in env::args(&rt)?.skip(1) {
        let Ok(marks) = arg.as_str().parse::<u32>() else {
            return Err(io::Error::from(io::ErrorKind::InvalidInput));
        };
        measure(&rt, marks)?;
    }
    Ok(())
}
