//! Queues of one producer and one consumer, under one rule: what comes out is what went in, in order.
//!
//! [`make`] gives the two ends of a queue, a [`Tx`] and an [`Rx`], which two threads hold. Once both are
//! back in one hand, [`settle`] joins them, and [`Settled::next`] gives exactly what was sent and not
//! received. A [`Trail`] is a queue of one place whose ends are never parted: it keeps nothing, and its
//! contract says what was noted. The ends of a queue are dropped in any order; the last one drops the
//! items that the queue still holds.
#![tactic(auto)]

mod ends;
mod rule;
mod settled;
#[cfg(test)]
mod tests;
mod trail;

pub use ends::{Full, Rx, Tx, make};
pub use settled::{Settled, settle};
pub use trail::{Trail, make_trail};
