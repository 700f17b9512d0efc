//! The rule of every queue, and what each step does to what is known.
//!
//! A queue is known through passes, which have no bytes. A new queue has one pass, by which items may be
//! both pushed and popped. The steps are: the queue is made; its pass is parted in two, of which one may
//! push and the other pop; a push or a pop by either kind of pass; two passes are joined; the queue is
//! dropped.

use crossbeam_queue::protocol::{Join, Lesson, Outcome, Protocol, Split};
use crossbeam_queue::{Pass, RuledArrayQueue};
use std::collections::LinkedList;

/// What a pass may do, and what is known by it. No value of it is made.
///
/// The kit doesn't tell a new pass's number, so what a pass may do stands here.
pub struct Known<T> {
    pub pushes: bool,
    pub pops: bool,
    pub sent: LinkedList<T>,
    pub received: LinkedList<T>,
}

/// What was sent is what was received and then what the queue holds; one pass at most may push, and one
/// may pop.
pub struct InOrder;

impl<T> Protocol<T, Known<T>> for InOrder {
    ghost use Rattle.std.specs.Prelude.{true, []};
    ghost use Rattle.rt_fifo.specs.Rule.{known, IsKept};

    ghost holds = { IsKept };

    ghost first = { known true true [] [] };
}

/// A queue under the rule.
pub type Line<T> = RuledArrayQueue<T, Known<T>, InOrder>;

/// A pass of such a queue.
pub type LinePass<T> = Pass<T, Known<T>>;

/// Parts a pass in two, one to push and one to pop, and joins such two.
pub struct Roles;

impl<T> Split<Known<T>> for Roles {
    ghost use Rattle.std.specs.Prelude.{true, false, []};
    ghost use Rattle.rt_fifo.specs.Rule.{known};

    ghost left = { λ v. known true false v.sent [] };

    ghost right = { λ v. known false true [] v.received };
}

impl<T> Join<Known<T>> for Roles {
    ghost use Rattle.std.specs.Prelude.{true, false, []};
    ghost use Rattle.rt_fifo.specs.Rule.{known};

    ghost both = { λ v w. known true true v.sent w.received };

    ghost spent = { known false false [] [] };
}

/// A push, by a pass that may push.
pub struct Pushed;

impl<T> Outcome<T, Known<T>> for Pushed {
    ghost use Rattle.rt_fifo.specs.Rule.{AddsSent};

    ghost then = { AddsSent };
}

impl<T> Lesson<T, Known<T>> for Pushed {
    ghost use Rattle.rt_fifo.specs.Rule.{Holds};

    ghost fact = { Holds };
}

/// A pop, by a pass that may pop.
pub struct Popped;

impl<T> Outcome<T, Known<T>> for Popped {
    ghost use Rattle.rt_fifo.specs.Rule.{AddsReceived};

    ghost then = { AddsReceived };
}

impl<T> Lesson<T, Known<T>> for Popped {
    ghost use Rattle.rt_fifo.specs.Rule.{Holds};

    ghost fact = { Holds };
}
