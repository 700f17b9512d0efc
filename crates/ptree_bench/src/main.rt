//! Times a `Tree`, for each number of entries among the arguments.
//!
//! Prints a line for each: the entries, then in nanoseconds, each the best of several rounds, a change with no
//! snapshot, a change where a snapshot is taken at every tenth, a look-up, and a whole walk. Behind the argument
//! `fill` trees are only filled, for a look at the memory.
#![tactic(auto)]

use rt_ptree::Tree;
use std::alloc::{AllocError, Global};
use std::rt::{Clock, Env};
use std::sync::Arc;
use std::time::Instant;
use std::{env, io};

const ROUNDS: u64 = 9;

// Over how many removals, each with an insert, and how many look-ups a mean is taken.
const MEASURED: u64 = 2_000;

// A snapshot stands for ten changes: five removals, each with an insert.
const SNAPSHOT_EVERY: u64 = 5;

// Keys that are scattered and differ for each number.
fn scattered(number: u64) -> u64 {
    number.wrapping_mul(0x9e37_79b9_7f4a_7c15)
}

fn put(tree: &mut Tree<u64, u64>, alloc: Global, number: u64) -> Result<(), AllocError> {
    let key = Arc::new(alloc, scattered(number))?;
    let value = Arc::new(alloc, number)?;
    tree.insert(key, value).map_err(|_| AllocError)
}

fn filled(alloc: Global, entries: u64) -> Result<Tree<u64, u64>, AllocError> {
    let mut tree = Tree::new(alloc);
    for number in 0..entries {
        put(&mut tree, alloc, number)?;
    }
    Ok(tree)
}

// Takes the oldest entry out, and puts a new one in.
fn replace(
    tree: &mut Tree<u64, u64>,
    alloc: Global,
    entries: u64,
    number: u64,
) -> Result<(), AllocError> {
    tree.remove(&scattered(number))?;
    put(tree, alloc, entries.wrapping_add(number))
}

fn time_changes<R: Clock + AllocGlobal>(
    rt: &R,
    tree: &mut Tree<u64, u64>,
    entries: u64,
    from: u64,
) -> io::Result<u128> {
    let start = Instant::now(rt)?;
    for number in 0..MEASURED {
        replace(tree, rt.alloc(), entries, from.wrapping_add(number))?;
    }
    Ok(start.elapsed(rt)?.as_nanos() / u128::from(2 * MEASURED))
}

fn time_shared<R: Clock + AllocGlobal>(
    rt: &R,
    tree: &mut Tree<u64, u64>,
    entries: u64,
    from: u64,
) -> io::Result<u128> {
    let start = Instant::now(rt)?;
    let mut _kept = tree.snapshot()?;
    for number in 0..MEASURED {
        if number % SNAPSHOT_EVERY == 0 {
            _kept = tree.snapshot()?;
        }
        replace(tree, rt.alloc(), entries, from.wrapping_add(number))?;
    }
    Ok(start.elapsed(rt)?.as_nanos() / u128::from(2 * MEASURED))
}

// The time of a look-up, and the sum of what was found, which each has to be made for.
fn time_look_ups(rt: &impl Clock, tree: &Tree<u64, u64>, from: u64) -> io::Result<(u128, u64)> {
    let mut sum = 0u64;
    let start = Instant::now(rt)?;
    for number in 0..MEASURED {
        if let Some(value) = tree.get(&scattered(from.wrapping_add(number))) {
            sum = sum.wrapping_add(*value);
        }
    }
    Ok((start.elapsed(rt)?.as_nanos() / u128::from(MEASURED), sum))
}

fn time_walk(rt: &impl Clock, tree: &Tree<u64, u64>) -> io::Result<(u128, u64)> {
    let mut sum = 0u64;
    let start = Instant::now(rt)?;
    for (_, value) in tree.entries_from(&0) {
        sum = sum.wrapping_add(*value);
    }
    Ok((start.elapsed(rt)?.as_nanos(), sum))
}

fn measure<R: Clock + AllocGlobal + Print + Eprint>(rt: &R, entries: u64) -> io::Result<()> {
    let mut tree = filled(rt.alloc(), entries)?;
    let mut from = 0u64;
    let mut change = u128::MAX;
    let mut shared = u128::MAX;
    let mut look_up = u128::MAX;
    let mut walk = u128::MAX;
    for _ in 0..ROUNDS {
        change = change.min(time_changes(rt, &mut tree, entries, from)?);
        from = from.wrapping_add(MEASURED);
        shared = shared.min(time_shared(rt, &mut tree, entries, from)?);
        from = from.wrapping_add(MEASURED);
        let (found, first) = time_look_ups(rt, &tree, from)?;
        look_up = look_up.min(found);
        let (walked, second) = time_walk(rt, &tree)?;
        walk = walk.min(walked);
        eprintln!(rt; "sums {first} {second}")?;
    }
    println!(rt; "{entries} {change} {shared} {look_up} {walk}")
}

fn main(rt: HostRuntime) -> io::Result<()> {
    let mut only_fill = false;
    for arg in env::args(&rt)?.skip(1) {
        if arg.as_str() == "fill" {
            only_fill = true;
            continue;
        }
        let Ok(entries) = arg.as_str().parse::<u64>() else {
            return Err(io::Error::from(io::ErrorKind::InvalidInput));
        };
        if only_fill {
            let tree = filled(rt.alloc(), entries)?;
            let len = tree.len();
            eprintln!(rt; "{len}")?;
        } else {
            measure(&rt, entries)?;
        }
    }
    Ok(())
}
