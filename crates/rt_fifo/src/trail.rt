//! A queue of one place whose ends are never parted.
ghost use Rattle.std.specs.Prelude.{◌≡◌, [], ◌∷◌, ◌++◌, IfOk};

use crate::rule::{Line, LinePass, Popped, Pushed};
use std::alloc::{AllocError, Global};
use std::marker::Model;
use std::sync::Wait;

/// What was noted, in order.
///
/// Contracts see the list of the items that were noted, of which none is kept: each goes through a queue of
/// one place and is dropped.
#[derive(Drop)]
pub struct Trail<T> {
    line: Line<T>,
    pass: LinePass<T>,
}

impl<T> Model for Trail<T> {
    ghost use Rattle.std.specs.Prelude.{◌≡◌, true, List};
    ghost use Rattle.crossbeam_queue.specs.Passes.{view as known_by, IsPassOf, ruled_capacity};
    ghost use Rattle.rt_fifo.specs.Rule.{known};

    ghost Value = { List T };

    ghost view = { λ s. (known_by s.pass).received };

    ghost invariant = { λ s. IsPassOf s.line s.pass × (ruled_capacity s.line ≡ 1) × (known_by s.pass ≡ known true true (known_by s.pass).received (known_by s.pass).received) };
}

/// A trail on which nothing is noted yet.
///
/// # Errors
///
/// Memory ran out.
pub fn make_trail<T: Drop>(alloc: Global) -> Result<Trail<T>, AllocError>
    ensures { IfOk result (λ trail. trail ≡ []) }
{
    let (line, pass) = Line::ruled(alloc, 1)?;
    Ok(Trail { line, pass })
}

impl<T: Drop> Trail<T> {
    /// Notes the item. Can't fail, and takes no memory.
    pub fn note<R: Wait>(&mut self, rt: &R, item: T)
        ensures { self.new ≡ self.old ++ item ∷ [] }
    {
        match self.line.push_as::<Pushed, R>(rt, &mut self.pass, item) {
            Ok(()) => match self.line.pop_as::<Popped, R>(rt, &mut self.pass) {
                Some(_) => {}
                None => unreachable!(),
            },
            Err(_) => unreachable!(),
        }
    }
}
