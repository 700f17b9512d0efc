//! A thread that sends and one that receives.
ghost use Rattle.std.specs.Prelude.{◌≡◌, ◌<◌};

use crate::number;
use rt_fifo::{Full, Rx, Settled, Tx, make, settle};
use std::alloc::{AllocError, Global};
use std::fmt::Write;
use std::sync::Wait;
use std::thread::Threads;
use std::{hint, io, thread};

// How many turns a thread takes at most, so that the program ends even where the other one is stuck.
const TURNS: u64 = 4_000_000_000;

// How many turns a thread goes on without giving others the processor.
const TURNS_AT_ONCE: u64 = 8;

fn wait(turn: u64) {
    if turn % TURNS_AT_ONCE == 0 {
        thread::yield_now();
    } else {
        hint::spin_loop();
    }
}

// Sends the numbers below `items`, in order.
fn send<R: Wait>(rt: &R, mut tx: Tx<usize>, items: usize) -> Tx<usize>
    ensures { result.queue ≡ tx.queue }
{
    let mut next = 0;
    for turn in 0..TURNS {
        if next >= items {
            break;
        }
        match tx.push(rt, next) {
            Ok(()) => next += 1,
            Err(Full(_)) => wait(turn),
        }
    }
    tx
}

// Receives `items` numbers, and says how many came in order, up to the first that didn't.
fn receive<R: Wait>(rt: &R, mut rx: Rx<usize>, items: usize) -> (Rx<usize>, usize)
    ensures { result.0.queue ≡ rx.queue }
{
    let mut next = 0;
    for turn in 0..TURNS {
        if next >= items {
            break;
        }
        match rx.pop(rt) {
            Some(item) if item == next => next += 1,
            Some(_) => break,
            None => wait(turn),
        }
    }
    (rx, next)
}

// How many are left that go on in order, and nothing behind them.
fn rest<R: Wait>(rt: &R, mut settled: Settled<usize>, received: usize, items: usize) -> usize {
    for expected in received..items {
        if settled.next(rt) != Some(expected) {
            return expected - received;
        }
    }
    match settled.next(rt) {
        None => items.saturating_sub(received),
        Some(_) => usize::MAX,
    }
}

fn pass<R: Threads + Wait + Sync>(
    rt: &R,
    alloc: Global,
    capacity: usize,
    items: usize,
    left: usize,
) -> Result<(usize, usize), AllocError>
    requires { 0 < capacity }
{
    let (tx, rx) = make(alloc, capacity)?;
    let (tx, (rx, received)) = thread::join(
        rt,
        move || send(rt, tx, items),
        move || receive(rt, rx, items.saturating_sub(left)),
    );
    Ok((received, rest(rt, settle(tx, rx), received, items)))
}

/// Sends numbers through a queue, as `ITEMS but LEFT` says, and says how many came in order and how many
/// were left.
pub fn answer<R: Threads + Wait + Sync>(
    rt: &R,
    alloc: Global,
    capacity: usize,
    steps: &str,
) -> io::Result<String> {
    let Some((items, left)) = steps.split_once(" but ") else {
        return Err(io::ErrorKind::InvalidInput.into());
    };
    if capacity == 0 {
        return Err(io::ErrorKind::InvalidInput.into());
    }
    let (received, left) = pass(rt, alloc, capacity, number(items)?, number(left)?)?;
    let mut answer = String::new(alloc);
    write!(answer, "{received} in order, then {left}")?;
    Ok(answer)
}
