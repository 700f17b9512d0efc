//! Sets of dots as ranges: each has the dots of a node from a first number up to a last one.
ghost use Rattle.std.specs.Prelude.{◌≡◌, ◌==◌, ◌+◌, ◌++◌, ◌||◌, ◌&&◌, ◌≤◌, false, None, IfOk, OnOk, OnErr, flat_map};
ghost use Rattle.std.specs.Option.{unwrap_or};
ghost use Rattle.rt_ptree.specs.Entries.{Updates};
ghost use Rattle.rt_cluster.specs.Index.{dot_cmp};
ghost use Rattle.rt_cluster.specs.Operations.{is_dot, is_among};
ghost use Rattle.rt_cluster.specs.Ranges.{range_dots, dots_in, is_in, first_at, dot_before, AreRanges, IsLastWith};
ghost use Rattle.rt_cluster.specs.declared.dots.Dot.{Dot as DotData};

use crate::dots::Dot;
use crate::places::insert;
use rt_ptree::Tree;
use std::alloc::{AllocError, Global};
use std::sync::Arc;

/// The first number of each range, by the range's last dot.
pub type Ranges = Tree<Dot, u32>;

fn is_in(last: &Dot, first: u32, dot: &Dot) -> bool
    ensures { result ≡ is_in last.now first dot.now }
{
    dot.node == last.node && first <= dot.number && dot.number <= last.number
}

/// Whether the dot is in one of the ranges.
pub fn has_in(ranges: &Ranges, dot: &Dot) -> bool
    requires { AreRanges ranges.now }
    ensures { result ≡ is_among (dots_in ranges.now) dot.now }
{
    if ranges.get(dot).is_some() {
        return true;
    }
    match ranges.after(dot) {
        None => false,
        Some((last, first)) => is_in(last, *first, dot),
    }
}

// The range begins right behind the dot.
fn begins_behind(last: &Dot, first: u32, dot: &Dot) -> bool
    ensures { result ≡ ((last.now.node == dot.now.node) && (first == dot.now.number + 1)) }
{
    last.node == dot.node && first > dot.number && first - dot.number == 1
}

// The last dot of the range that begins right behind the dot, or the dot where there is none.
fn last_with(ranges: &Ranges, dot: &Dot) -> Dot
    requires { AreRanges ranges.now }
    ensures { IsLastWith ranges.now dot.now result }
{
    match ranges.after(dot) {
        None => *dot,
        Some((last, first)) => {
            if begins_behind(last, *first, dot) {
                *last
            } else {
                *dot
            }
        }
    }
}

// Takes out the range that ends right before the dot. Its first number, or the dot's.
fn take_before(ranges: &mut Ranges, dot: &Dot) -> Result<u32, AllocError>
    requires { AreRanges ranges.old }
    ensures first { IfOk result (λ n.
        n ≡ unwrap_or (first_at ranges.old (dot_before dot.now)) dot.now.number) }
    ensures taken { OnOk result (Updates dot_cmp ranges.old ranges.new (dot_before dot.now) None) }
    ensures are { AreRanges ranges.new }
{
    let before = Dot {
        node: dot.node,
        number: dot.number.saturating_sub(1),
    };
    let first = match ranges.get(&before) {
        None => return Ok(dot.number),
        Some(first) => *first,
    };
    ranges.remove(&before)?;
    // A map's length tells a proof that its keys rise.
    let _len = ranges.len();
    Ok(first)
}

// Puts in a dot that isn't there, into one range with those right before and behind it.
fn put(alloc: Global, ranges: &mut Ranges, dot: &Dot) -> Result<(), AllocError>
    requires are { AreRanges ranges.old }
    requires fresh { is_among (dots_in ranges.old) dot.now ≡ false }
    ensures there { OnOk result ((d : DotData) → is_among (dots_in ranges.new) d
        ≡ (is_dot d dot.now || is_among (dots_in ranges.old) d)) }
    ensures are { AreRanges ranges.new }
{
    let last = Arc::new(alloc, last_with(ranges, dot))?;
    let first = take_before(ranges, dot)?;
    insert(ranges, last, Arc::new(alloc, first)?)?;
    let _len = ranges.len();
    Ok(())
}

/// Puts the dot in.
pub fn add_in(alloc: Global, ranges: &mut Ranges, dot: &Dot) -> Result<(), AllocError>
    requires { AreRanges ranges.old }
    ensures there { OnOk result ((d : DotData) → is_among (dots_in ranges.new) d
        ≡ (is_dot d dot.now || is_among (dots_in ranges.old) d)) }
    ensures are { AreRanges ranges.new }
{
    if has_in(ranges, dot) {
        return Ok(());
    }
    put(alloc, ranges, dot)?;
    Ok(())
}

// Puts the dots of a range behind the others.
fn push_range(out: &mut Vec<Dot>, last: &Dot, first: u32) -> Result<(), AllocError>
    requires { first ≤ last.now.number }
    ensures { OnOk result (out.new.items ≡ out.old.items ++ range_dots (last.now, first)) }
{
    let node = last.node;
    for number in first..last.number {
        out.push(Dot { node, number })?;
    }
    out.push(*last)?;
    Ok(())
}

/// All dots.
pub fn dots_in(alloc: Global, ranges: &Ranges) -> Result<Vec<Dot>, AllocError>
    requires { AreRanges ranges.now }
    ensures { IfOk result (λ dots. dots.items ≡ dots_in ranges.now) }
{
    let mut dots = Vec::new(alloc);
    let least = Dot { node: 0, number: 0 };
    for (last, first) in ranges.entries_from(&least) {
        push_range(&mut dots, last, *first)?;
    }
    Ok(dots)
}
