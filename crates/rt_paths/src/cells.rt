//! The cells of a square, row by row: a cell says that its row leads to its column.
ghost use Rattle.std.specs.Prelude.{◌≡◌, ℕ, ◌*◌, ◌<◌, ◌==◌, ◌&&◌, ◌||◌, false, length};
ghost use Rattle.rt_catalog.specs.Rings.{through};
ghost use Rattle.rt_paths.specs.Square.{cell, is_step};

use crate::Step;

pub(crate) fn is_set(cells: &[bool], count: usize, from: usize, to: usize) -> bool
    requires whole { length cells.now ≡ count * count }
    requires row { from < count }
    requires column { to < count }
    ensures { result ≡ cell cells.now count from to }
{
    cells[from * count + to]
}

fn set(cells: &mut [bool], count: usize, from: usize, to: usize)
    requires whole { length cells.old ≡ count * count }
    requires row { from < count }
    requires column { to < count }
    ensures { (t u : ℕ) → t < count → u < count →
        cell cells.new count t u ≡ (cell cells.old count t u || (from == t && to == u)) }
{
    cells[from * count + to] = true;
}

// Sets the cells of the steps. A step from or to a number from the count on is passed over.
fn fill(cells: &mut [bool], count: usize, steps: &[Step])
    requires whole { length cells.old ≡ count * count }
    requires clear { (t u : ℕ) → t < count → u < count → cell cells.old count t u ≡ false }
    ensures { (t u : ℕ) → t < count → u < count → cell cells.new count t u ≡ is_step steps.now t u }
{
    for step in steps {
        if step.from < count && step.to < count {
            set(cells, count, step.from, step.to);
        }
    }
}

// `from` leads where it led, and through the middle.
fn close_row(cells: &mut [bool], count: usize, middle: usize, from: usize)
    requires whole { length cells.old ≡ count * count }
    requires middle { middle < count }
    requires row { from < count }
    ensures { (t u : ℕ) → t < count → u < count → cell cells.new count t u
        ≡ (cell cells.old count t u
        || (from == t && (cell cells.old count t middle && cell cells.old count middle u))) }
{
    if is_set(cells, count, from, middle) {
        for to in 0..count {
            if is_set(cells, count, middle, to) {
                set(cells, count, from, to);
            }
        }
    }
}

// Each number leads where it led, and through the middle. This is done in place: neither what leads
// to the middle changes, nor where the middle leads.
fn close_over(cells: &mut [bool], count: usize, middle: usize)
    requires whole { length cells.old ≡ count * count }
    requires middle { middle < count }
    ensures { (t u : ℕ) → t < count → u < count → cell cells.new count t u
        ≡ (cell cells.old count t u
        || (cell cells.old count t middle && cell cells.old count middle u)) }
{
    for from in 0..count {
        close_row(cells, count, middle, from);
    }
}

// Each number leads where it led, through any numbers.
fn close(cells: &mut [bool], count: usize)
    requires whole { length cells.old ≡ count * count }
    ensures { (t u : ℕ) → t < count → u < count →
        cell cells.new count t u ≡ through (cell cells.old count) count t u }
{
    for middle in 0..count {
        close_over(cells, count, middle);
    }
}

/// Sets the cells of the paths over the steps. A step from or to a number from the count on is passed
/// over.
pub(crate) fn connect(cells: &mut [bool], count: usize, steps: &[Step])
    requires whole { length cells.old ≡ count * count }
    requires clear { (t u : ℕ) → t < count → u < count → cell cells.old count t u ≡ false }
    ensures { (t u : ℕ) → t < count → u < count →
        cell cells.new count t u ≡ through (is_step steps.now) count t u }
{
    fill(cells, count, steps);
    close(cells, count);
}
