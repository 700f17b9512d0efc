//! The two ends of a queue.
ghost use Rattle.std.specs.Arc.{arc_value};
ghost use Rattle.std.specs.Prelude.{◌≡◌, ◌<◌, ◌≤◌, [], ◌∷◌, ◌++◌, length, IfOk, OnOk, OnErr, IfErr, IfSome, IfNone};

use crate::rule::{Line, LinePass, Popped, Pushed, Roles};
use std::alloc::{AllocError, Global};
use std::marker::Model;
use std::sync::{Arc, Wait};

/// The queue was full, and here is the item.
#[derive(Debug, Drop)]
pub struct Full<T>(pub T);

/// The sending end of a queue.
///
/// Contracts see the queue, its capacity and what was sent, oldest first.
#[derive(Drop)]
pub struct Tx<T> {
    pub(crate) line: Arc<Line<T>, Global>,
    pub(crate) pass: LinePass<T>,
}

impl<T> Model for Tx<T> {
    ghost use Rattle.std.specs.Prelude.{◌≡◌, true};
    ghost use Rattle.std.specs.Arc.{arc_value};
    ghost use Rattle.crossbeam_queue.specs.Passes.{view as known_by, IsPassOf, ruled_capacity};
    ghost use Rattle.rt_fifo.specs.Ends.{Sender};

    ghost Value = { Sender T };

    ghost view = { λ s. record { queue = s.pass.table_id; capacity = ruled_capacity (arc_value s.line); sent = (known_by s.pass).sent } };

    ghost invariant = { λ s. IsPassOf (arc_value s.line) s.pass × ((known_by s.pass).pushes ≡ true) };
}

/// The receiving end of a queue.
///
/// Contracts see the queue and what was received, oldest first.
#[derive(Drop)]
pub struct Rx<T> {
    pub(crate) line: Arc<Line<T>, Global>,
    pub(crate) pass: LinePass<T>,
}

impl<T> Model for Rx<T> {
    ghost use Rattle.std.specs.Prelude.{◌≡◌, true};
    ghost use Rattle.std.specs.Arc.{arc_value};
    ghost use Rattle.crossbeam_queue.specs.Passes.{view as known_by, IsPassOf};
    ghost use Rattle.rt_fifo.specs.Ends.{Receiver};

    ghost Value = { Receiver T };

    ghost view = { λ s. record { queue = s.pass.table_id; received = (known_by s.pass).received } };

    ghost invariant = { λ s. IsPassOf (arc_value s.line) s.pass × ((known_by s.pass).pops ≡ true) };
}

/// The two ends of a new queue, which holds at most `capacity` items.
///
/// # Errors
///
/// Memory ran out, or `capacity` is 2^60 or more.
pub fn make<T: Drop>(alloc: Global, capacity: usize) -> Result<(Tx<T>, Rx<T>), AllocError>
    requires { 0 < capacity }
    ensures queue { IfOk result (λ ends. ends.0.queue ≡ ends.1.queue) }
    ensures capacity { IfOk result (λ ends. ends.0.capacity ≡ capacity) }
    ensures empty { IfOk result (λ ends. (ends.0.sent ≡ []) × (ends.1.received ≡ [])) }
{
    let (queue, mut pass) = Line::ruled(alloc, capacity)?;
    let other = queue.another::<Roles>(&mut pass);
    let (line, theirs) = shared(alloc, queue)?;
    let tx = Tx { line, pass };
    let rx = Rx {
        line: theirs,
        pass: other,
    };
    Ok((tx, rx))
}

// The queue with two owners.
fn shared<T: Drop>(
    alloc: Global,
    queue: Line<T>,
) -> Result<(Arc<Line<T>, Global>, Arc<Line<T>, Global>), AllocError>
    ensures { IfOk result (λ both. (arc_value both.0 ≡ queue) × (arc_value both.1 ≡ queue)) }
{
    let line = Arc::new(alloc, queue)?;
    let theirs = Arc::try_clone(&line)?;
    Ok((line, theirs))
}

impl<T> Tx<T> {
    /// Sends the item. Takes no memory.
    ///
    /// # Errors
    ///
    /// The queue was full at one moment of the call: the item comes back, and nothing was sent.
    pub fn push<R: Wait>(&mut self, rt: &R, item: T) -> Result<(), Full<T>>
        ensures queue { (self.new.queue ≡ self.old.queue) × (self.new.capacity ≡ self.old.capacity) }
        ensures ok { OnOk result (self.new.sent ≡ self.old.sent ++ item ∷ []) }
        ensures err { OnErr result (self.new.sent ≡ self.old.sent) }
        ensures returned { IfErr result (λ full. full.0 ≡ item) }
        ensures full { OnErr result (self.old.capacity ≤ length self.old.sent) }
    {
        match self.line.push_as::<Pushed, R>(rt, &mut self.pass, item) {
            Ok(()) => Ok(()),
            Err(item) => Err(Full(item)),
        }
    }
}

impl<T> Rx<T> {
    /// Receives the next item, or `None` where the queue was empty at one moment of the call. Takes no memory.
    ///
    /// That it was empty is not said by a clause: see [`crate::Settled::next`].
    pub fn pop<R: Wait>(&mut self, rt: &R) -> Option<T>
        ensures queue { self.new.queue ≡ self.old.queue }
        ensures some { IfSome result (λ item. self.new.received ≡ self.old.received ++ item ∷ []) }
        ensures none { IfNone result (self.new.received ≡ self.old.received) }
    {
        self.line.pop_as::<Popped, R>(rt, &mut self.pass)
    }
}
