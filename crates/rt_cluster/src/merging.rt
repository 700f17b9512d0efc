//! What a delta changes in the marks and the dots that a replica keeps.
ghost use Rattle.std.specs.Prelude.{◌≡◌, ◌⊎◌, ◌||◌, ◌&&◌, not, cond, true, false, None, IsSome, IfOk, OnOk, List, ◌++◌, Contains};
ghost use Rattle.rt_cluster.specs.Operations.{Operation, HasOneTrackADot, is_among, is_told};
ghost use Rattle.rt_cluster.specs.Index.{tree_at, placed_at, Holds, IsIndexed, IsAllSeen, IsKept, HasOneADot};
ghost use Rattle.rt_cluster.specs.Standing.{StandFor, StandsFor};
ghost use Rattle.rt_cluster.specs.declared.dots.Dot.{Dot as DotData};
ghost use Rattle.rt_cluster.specs.declared.dots.Mark.{Mark as MarkData};
ghost use Rattle.rt_cluster.specs.declared.places.Place.{Place as PlaceData};

use crate::dots::{Delta, Dot, Mark};
use crate::places::{Marks, Places, put, take};
use crate::seen::Seen;
use std::alloc::{AllocError, Global};

/// The dots of the marks.
pub fn dots_of(alloc: Global, marks: &[Mark]) -> Result<Seen, AllocError>
    ensures { IfOk result (λ s. (d : DotData) → is_among s d ≡ is_told marks.now d) }
{
    let mut dots = Seen::new(alloc);
    for mark in marks {
        dots.add(alloc, &mark.dot)?;
    }
    Ok(dots)
}

/// Puts the dots in.
pub fn add_all(alloc: Global, seen: &mut Seen, dots: &[Dot]) -> Result<(), AllocError>
    ensures { OnOk result ((d : DotData) →
        is_among seen.new d ≡ (is_among dots.now d || is_among seen.old d)) }
{
    for dot in dots {
        seen.add(alloc, dot)?;
    }
    Ok(())
}

/// Takes out the marks of these dots, but those that are told.
pub fn take_gone(
    marks: &mut Marks,
    places: &mut Places,
    told: &Seen,
    gone: &[Dot],
) -> Result<(), AllocError>
    requires { IsIndexed marks.old places.old }
    ensures marks { OnOk result ((p : PlaceData) → tree_at marks.new p ≡
        cond (is_among gone.now p.dot && not (is_among told.now p.dot)) None (tree_at marks.old p)) }
    ensures places { OnOk result ((d : DotData) →
        IsSome (placed_at places.new d) → IsSome (placed_at places.old d)) }
    ensures index { OnOk result (IsIndexed marks.new places.new) }
{
    for dot in gone {
        if !told.has(dot) {
            take(marks, places, dot)?;
        }
    }
    Ok(())
}

/// Puts in the marks whose dots haven't been seen, and their dots.
pub fn put_new(
    alloc: Global,
    marks: &mut Marks,
    places: &mut Places,
    seen: &mut Seen,
    told: &[Mark],
) -> Result<(), AllocError>
    requires index { IsIndexed marks.old places.old }
    requires seen { IsAllSeen places.old seen.old }
    ensures kept { OnOk result ((m : MarkData) → Holds marks.old m → Holds marks.new m) }
    ensures came { OnOk result ((m : MarkData) → Holds marks.new m →
        Holds marks.old m ⊎ (Contains told.now m × (is_among seen.old m.dot ≡ false))) }
    ensures taken { OnOk result (HasOneADot told.now → (m : MarkData) → Contains told.now m →
        is_among seen.old m.dot ≡ false → Holds marks.new m) }
    ensures dots { OnOk result ((d : DotData) →
        is_among seen.new d ≡ (is_told told.now d || is_among seen.old d)) }
    ensures index { OnOk result (IsIndexed marks.new places.new) }
    ensures seen { OnOk result (IsAllSeen places.new seen.new) }
{
    for mark in told {
        if !seen.has(&mark.dot) {
            put(alloc, marks, places, mark)?;
            seen.add(alloc, &mark.dot)?;
        }
    }
    Ok(())
}

/// Takes out the marks that the delta knows gone, puts in those that are new, and adds its dots.
pub fn apply(
    alloc: Global,
    marks: &mut Marks,
    places: &mut Places,
    seen: &mut Seen,
    delta: &Delta,
) -> Result<(), AllocError>
    requires { IsKept marks.old places.old seen.old }
    ensures stands { OnOk result ((known said : List Operation) →
        StandFor (Holds marks.old) (is_among seen.old) known → StandsFor delta.now said →
        HasOneTrackADot (said ++ known) →
        StandFor (Holds marks.new) (is_among seen.new) (said ++ known)) }
    ensures kept { OnOk result (IsKept marks.new places.new seen.new) }
{
    let told = dots_of(alloc, delta.live.get())?;
    take_gone(marks, places, &told, delta.seen.get())?;
    put_new(alloc, marks, places, seen, delta.live.get())?;
    add_all(alloc, seen, delta.seen.get())?;
    // A map's length tells a proof that its keys rise.
    let _len = marks.len();
    Ok(())
}
