//! The ends of a queue, joined again.
ghost use Rattle.std.specs.Prelude.{◌≡◌, [], ◌∷◌, ◌++◌, ◌↔◌, IsNone, IfSome, MatchOption};
ghost use mathlib.Core.List.{IsPrefix};

use crate::ends::{Rx, Tx};
use crate::rule::{Line, LinePass, Popped, Roles};
use std::alloc::Global;
use std::marker::Model;
use std::sync::{Arc, Wait};

/// The two ends of one queue, joined. No item is sent any more.
///
/// Contracts see what was sent and what was received, which is a prefix of it.
#[derive(Drop)]
pub struct Settled<T> {
    line: Arc<Line<T>, Global>,
    pass: LinePass<T>,
}

impl<T> Model for Settled<T> {
    ghost use Rattle.std.specs.Prelude.{◌≡◌, true};
    ghost use mathlib.Core.List.{IsPrefix};
    ghost use Rattle.std.specs.Arc.{arc_value};
    ghost use Rattle.crossbeam_queue.specs.Passes.{view as known_by, IsPassOf};
    ghost use Rattle.rt_fifo.specs.Ends.{Joined};

    ghost Value = { Joined T };

    ghost view = { λ s. record { sent = (known_by s.pass).sent; received = (known_by s.pass).received } };

    ghost invariant = { λ s. IsPassOf (arc_value s.line) s.pass × ((known_by s.pass).pushes ≡ true) × ((known_by s.pass).pops ≡ true) × IsPrefix (known_by s.pass).received (known_by s.pass).sent };
}

/// Joins the two ends of one queue. Takes no memory.
pub fn settle<T: Drop>(tx: Tx<T>, rx: Rx<T>) -> Settled<T>
    requires { tx.queue ≡ rx.queue }
    ensures ends { (result.sent ≡ tx.sent) × (result.received ≡ rx.received) }
    ensures whole { IsPrefix rx.received tx.sent }
{
    let Tx { line, mut pass } = tx;
    let Rx {
        line: _,
        pass: other,
    } = rx;
    line.absorb::<Roles>(&mut pass, other);
    line.learn_as::<Popped>(&mut pass);
    Settled { line, pass }
}

impl<T> Settled<T> {
    /// The next item that was sent and not received, which is then received, or `None` where there is
    /// none. Takes no memory.
    pub fn next<R: Wait>(&mut self, rt: &R) -> Option<T>
        ensures none { IsNone result ↔ (self.old.received ≡ self.old.sent) }
        ensures next { IfSome result (λ item. IsPrefix (self.old.received ++ item ∷ []) self.old.sent) }
        ensures received { MatchOption result (self.new.received ≡ self.old.received) (λ item. self.new.received ≡ self.old.received ++ item ∷ []) }
        ensures sent { self.new.sent ≡ self.old.sent }
    {
        self.line.pop_as::<Popped, R>(rt, &mut self.pass)
    }

    /// What was received is a prefix of what was sent. Does nothing.
    pub fn whole(&self)
        ensures { IsPrefix self.now.received self.now.sent }
    {
        let _line = &self.line;
    }
}
