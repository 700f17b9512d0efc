//! Sets of dots.
ghost use Rattle.std.specs.Prelude.{◌≡◌, ◌||◌, [], IfOk, OnOk};
ghost use Rattle.rt_cluster.specs.Operations.{is_dot, is_among};
ghost use Rattle.rt_cluster.specs.declared.dots.Dot.{Dot as DotData};

use crate::dots::Dot;
use crate::ranges::{Ranges, add_in, dots_in, has_in};
use rt_ptree::Tree;
use std::alloc::{AllocError, Global};
use std::marker::Model;

/// A set of dots, as ranges: each has the dots of a node from a first number up to a last one.
/// Contracts see a list of them.
#[derive(Drop)]
pub struct Seen {
    ranges: Ranges,
}

impl Model for Seen {
    ghost use Rattle.std.specs.Prelude.{List};
    ghost use Rattle.rt_cluster.specs.Ranges.{dots_in, AreRanges};
    ghost use Rattle.rt_cluster.specs.declared.dots.Dot.{Dot};

    ghost Value = { List Dot };

    ghost view = { λ s. dots_in s.ranges };

    ghost invariant = { λ s. AreRanges s.ranges };
}

impl Seen {
    /// No dot. Takes no memory.
    pub fn new(alloc: Global) -> Self
        ensures { result ≡ [] }
    {
        Seen {
            ranges: Tree::new(alloc),
        }
    }

    /// An equal set, of which a change leaves this one as it is.
    pub fn snapshot(&self) -> Result<Self, AllocError>
        ensures { IfOk result (λ s. s ≡ self.now) }
    {
        let ranges = self.ranges.snapshot()?;
        Ok(Seen { ranges })
    }

    /// Whether the dot is in the set.
    pub fn has(&self, dot: &Dot) -> bool
        ensures { result ≡ is_among self.now dot.now }
    {
        has_in(&self.ranges, dot)
    }

    /// Puts the dot in.
    pub fn add(&mut self, alloc: Global, dot: &Dot) -> Result<(), AllocError>
        ensures { OnOk result ((d : DotData) →
            is_among self.new d ≡ (is_dot d dot.now || is_among self.old d)) }
    {
        add_in(alloc, &mut self.ranges, dot)?;
        Ok(())
    }

    /// The dots of the set.
    pub fn dots(&self, alloc: Global) -> Result<Vec<Dot>, AllocError>
        ensures { IfOk result (λ dots. (d : DotData) →
            is_among dots.items d ≡ is_among self.now d) }
    {
        let dots = dots_in(alloc, &self.ranges)?;
        Ok(dots)
    }
}
