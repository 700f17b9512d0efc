ghost use Rattle.std.specs.Prelude.{◌≡◌, ◌↔◌, ℕ, ◌<◌, true, IfOk, count_by};
ghost use Rattle.std.specs.List.{list_any, range_with_len};
ghost use Rattle.rt_catalog.specs.Rings.{through, Path};
ghost use Rattle.rt_paths.specs.Square.{is_step, leads};

use crate::Step;
use crate::cells::{connect, is_set};
use std::alloc::{AllocError, Global};
use std::marker::Model;

/// Which of the numbers below a count lead to which, over one step or more.
#[derive(Debug, Drop)]
pub struct Paths {
    count: usize,
    cells: Vec<bool>,
}

impl Model for Paths {
    ghost use Rattle.std.specs.Prelude.{◌≡◌, ◌*◌, length};
    ghost use Rattle.rt_paths.specs.Square.{Square};

    ghost Value = { Square };

    ghost view = { λ p. record { count = p.count; cells = p.cells.items } };

    ghost invariant = { λ p. length p.cells.items ≡ p.count * p.count };
}

impl Paths {
    /// The paths over the steps. A step from or to a number from the count on is passed over. Fails
    /// for want of memory alone.
    pub fn of(alloc: Global, count: usize, steps: &[Step]) -> Result<Self, AllocError>
        ensures count { IfOk result (λ p. p.count ≡ count) }
        ensures through { IfOk result (λ p. (t u : ℕ) → t < count → u < count →
            leads p t u ≡ through (is_step steps.now) count t u) }
        ensures paths { IfOk result (λ p.
            ((t u : ℕ) → is_step steps.now t u ≡ true → (t < count) × (u < count)) →
            (t u : ℕ) → (leads p t u ≡ true) ↔ Path (is_step steps.now) t u) }
    {
        let size = count.checked_mul(count).ok_or(AllocError)?;
        let mut cells = vec![in alloc; false; size]?;
        connect(&mut cells, count, steps);
        Ok(Paths { count, cells })
    }

    /// Whether the one number leads to the other.
    pub fn leads(&self, from: usize, to: usize) -> bool
        ensures { result ≡ leads self.now from to }
    {
        from < self.count && to < self.count && is_set(&self.cells, self.count, from, to)
    }

    /// Whether some number leads to itself.
    pub fn has_ring(&self) -> bool
        ensures { result ≡ list_any (λ n. leads self.now n n) (range_with_len 0 self.now.count) }
    {
        (0..self.count).any(|n| self.leads(n, n))
    }

    /// How many of the numbers it leads to.
    pub fn rank(&self, from: usize) -> usize
        ensures { result ≡ count_by (leads self.now from) (range_with_len 0 self.now.count) }
    {
        (0..self.count).filter(|to| self.leads(from, *to)).count()
    }
}
