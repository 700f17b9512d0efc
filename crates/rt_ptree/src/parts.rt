ghost use Rattle.std.specs.Prelude.{◌≡◌, ◌+◌, ◌<◌, ◌≤◌, ◌++◌, IfOk, OnOk, OnErr, All, Some, is_some, length, take, drop, get_or, vec_len, vec_capacity, slice_get, option_copied, flat_map};
ghost use Rattle.std.specs.Arc.{arc_value};
ghost use Rattle.rt_ptree.specs.Change.{change_key, changed};
ghost use Rattle.rt_ptree.specs.Entries.{IsRising, IsBelow, IsAbove, value_at, least_key, entry_after, entry_lent};
ghost use Rattle.rt_ptree.specs.Orderly.{IsOrderly};
ghost use Rattle.rt_ptree.specs.Pieces.{pieces_list};

use crate::change::Change;
use crate::part::{Part, Pieces};
use crate::sought::Sought;
use std::alloc::{AllocError, Global};
use std::sync::Arc;

// How far above `low` the next part to be looked at is. So few parts that the processor reads on while
// it compares are gone through one by one.
fn step(parts: usize) -> usize
    requires { 1 < parts }
    ensures forward { 0 < result }
    ensures within { result < parts }
{
    if parts > 8 { parts / 2 } else { 1 }
}

// Where the key belongs: at the last part that does not begin above it, or else at the first part.
pub fn place<K: Ord, V, C: Part<K, V>, Q: Sought<K>>(parts: &[C], key: &Q) -> usize
    requires { IsOrderly K.cmp C.entries C.is_fit parts.now }
    ensures within { result < length parts.now }
    ensures below { IsBelow K.cmp (flat_map C.entries (take result parts.now)) (Q.stands_for key.now) }
    ensures above { IsAbove K.cmp (flat_map C.entries (drop (result + 1) parts.now)) (Q.stands_for key.now) }
{
    let mut low = 0;
    let mut high = parts.len();
    while high - low > 1 {
        let middle = low + step(high - low);
        if key.order(parts[middle].least()).is_lt() {
            high = middle;
        } else {
            low = middle;
        }
    }
    low
}

pub fn first_in<K: Ord, V, C: Part<K, V>>(parts: &[C]) -> (&K, &V)
    requires some { 0 < length parts.now }
    requires fits { All C.is_fit parts.now }
    ensures { slice_get (flat_map C.entries parts.now) 0 ≡ Some (result.0.now, result.1.now) }
{
    parts[0].first()
}

pub fn least_in<K: Ord, V, C: Part<K, V>>(parts: &[C]) -> &Arc<K>
    requires some { 0 < length parts.now }
    requires fits { All C.is_fit parts.now }
    ensures { least_key (flat_map C.entries parts.now) ≡ Some (arc_value result.now) }
{
    parts[0].least()
}

pub fn get_in<'a, K: Ord, V, C: Part<K, V>>(parts: &'a [C], key: &K) -> Option<&'a V>
    requires { IsOrderly K.cmp C.entries C.is_fit parts.now }
    ensures { option_copied result ≡ value_at K.cmp (flat_map C.entries parts.now) key.now }
{
    parts[place(parts, key)].get(key)
}

pub fn after_in<'a, K: Ord, V, C: Part<K, V>>(parts: &'a [C], key: &K) -> Option<(&'a K, &'a V)>
    requires { IsOrderly K.cmp C.entries C.is_fit parts.now }
    ensures { entry_lent result ≡ entry_after K.cmp (flat_map C.entries parts.now) key.now }
{
    let at = place(parts, key);
    match parts[at].after(key) {
        Some(entry) => Some(entry),
        None if at + 1 < parts.len() => Some(parts[at + 1].first()),
        None => None,
    }
}

// Adds the parts, each with one owner more.
fn extend_shared<K: Ord, V, C: Part<K, V>>(list: &mut Vec<C>, parts: &[C]) -> Result<(), AllocError>
    requires list { All C.is_fit list.old.items }
    requires parts { All C.is_fit parts.now }
    ensures entries { OnOk result (flat_map C.entries list.new.items
        ≡ flat_map C.entries list.old.items ++ flat_map C.entries parts.now) }
    ensures fits { OnOk result (All C.is_fit list.new.items) }
    ensures len { OnOk result (vec_len list.new ≡ vec_len list.old + length parts.now) }
{
    for part in parts {
        list.push(part.share()?)?;
    }
    Ok(())
}

// The parts, each with one owner more, and room for one.
pub fn copied<K: Ord, V, C: Part<K, V>>(alloc: Global, parts: &[C]) -> Result<Vec<C>, AllocError>
    requires { All C.is_fit parts.now }
    ensures entries { IfOk result (λ v. flat_map C.entries v.items ≡ flat_map C.entries parts.now) }
    ensures fits { IfOk result (λ v. All C.is_fit v.items) }
    ensures len { IfOk result (λ v. vec_len v ≡ length parts.now) }
{
    let mut list = Vec::with_capacity(alloc, parts.len().saturating_add(1))?;
    extend_shared(&mut list, parts)?;
    Ok(list)
}

// Has the pieces stand for the part at `at`.
fn settle<C: Drop>(parts: &mut Vec<C>, at: usize, pieces: Pieces<C>)
    requires within { at < vec_len parts.old }
    requires room { vec_len parts.old < vec_capacity parts.old }
    ensures { (part : C) → part ≡ get_or parts.old.items at part →
        parts.new.items ≡ take at parts.old.items ++ (pieces_list part pieces ++ drop (at + 1) parts.old.items) }
{
    match pieces {
        Pieces::None => {
            parts.remove(at);
        }
        Pieces::One => {}
        Pieces::Two(upper) => {
            // It cannot fail, as there is room.
            let _ = parts.insert(at + 1, upper);
        }
    }
}

/// Makes the change in the list, in place but for what is shared. Answers whether the key was there.
pub fn change_in<K: Ord, V, C: Part<K, V>>(
    alloc: Global,
    parts: &mut Vec<C>,
    change: &Change<'_, K, V>,
) -> Result<bool, AllocError>
    requires { IsOrderly K.cmp C.entries C.is_fit parts.old.items }
    ensures entries { OnOk result (flat_map C.entries parts.new.items
        ≡ changed K.cmp change.now (flat_map C.entries parts.old.items)) }
    ensures was_there { IfOk result (λ b. b
        ≡ is_some (value_at K.cmp (flat_map C.entries parts.old.items) (change_key change.now))) }
    ensures fits { All C.is_fit parts.new.items }
    ensures len { vec_len parts.new ≤ vec_len parts.old + 1 }
    ensures err { OnErr result (flat_map C.entries parts.new.items
        ≡ flat_map C.entries parts.old.items) }
    ensures err_len { OnErr result (vec_len parts.new ≡ vec_len parts.old) }
{
    // All memory comes before the first write.
    parts.reserve(1)?;
    let at = place(parts, change.key());
    let made = parts[at].change(alloc, change)?;
    settle(parts, at, made.pieces);
    Ok(made.was_there)
}
