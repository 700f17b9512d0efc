//! Walks over the marks of a node, of a key and of a topic, and over all.
ghost use Rattle.std.specs.Prelude.{◌≡◌, ◌==◌, [], map, filter, IfOk};
ghost use Rattle.std.specs.Str.{bytes_eq};
ghost use Rattle.rt_cluster.specs.Index.{mark_of, is_beside, least_on};
ghost use Rattle.rt_cluster.specs.Shown.{reference_of, held_of};

use crate::dots::{Dot, Mark};
use crate::places::{Marks, Place, Places};
use rt_json::Json;
use rt_presence::meta;
use rt_value::Text;
use std::alloc::{AllocError, Global};

/// The dots of the marks of the place's node under its topic and key. The place has the number 0.
pub fn dots_beside(alloc: Global, marks: &Marks, least: &Place) -> Result<Vec<Dot>, AllocError>
    requires { least.now.dot.number ≡ 0 }
    ensures { IfOk result (λ dots. dots.items
        ≡ map (λ e. e.0.dot) (filter (λ e. is_beside least.now e.0) marks.now)) }
{
    // A map's length tells a proof that its keys rise.
    let _len = marks.len();
    let mut dots = Vec::new(alloc);
    for (place, _tree) in marks.entries_from(least) {
        if !is_beside(least, place) {
            break;
        }
        dots.push(place.dot)?;
    }
    Ok(dots)
}

// The place is of this one's node, topic and key.
fn is_beside(one: &Place, place: &Place) -> bool
    ensures { result ≡ is_beside one.now place.now }
{
    one.topic == place.topic && one.key == place.key && one.dot.node == place.dot.node
}

fn is_of_node(node: u32, dot: &Dot) -> bool
    ensures { result ≡ (node == dot.now.node) }
{
    node == dot.node
}

fn is_on(topic: &Text, place: &Place) -> bool
    ensures { result ≡ bytes_eq place.now.topic topic.now }
{
    place.topic == *topic
}

/// The dots of a node's marks.
pub fn dots_of_node(alloc: Global, places: &Places, node: u32) -> Result<Vec<Dot>, AllocError>
    ensures { IfOk result (λ dots. dots.items
        ≡ map (λ e. e.0) (filter (λ e. node == e.0.node) places.now)) }
{
    let _len = places.len();
    let mut dots = Vec::new(alloc);
    let least = Dot { node, number: 0 };
    for (dot, _place) in places.entries_from(&least) {
        if !is_of_node(node, dot) {
            break;
        }
        dots.push(*dot)?;
    }
    Ok(dots)
}

// `2.17`: the node and the number.
fn reference(alloc: Global, dot: &Dot) -> Result<Text, AllocError>
    ensures { IfOk result (λ t. t ≡ reference_of dot.now) }
{
    let node = dot.node;
    let number = dot.number;
    Ok(Text::new(format!(in alloc; "{node}.{number}")?))
}

// The key of a mark, and its meta.
fn held(alloc: Global, place: &Place, tree: &Json) -> Result<(Text, Json), AllocError>
    ensures { IfOk result (λ h. h ≡ held_of (mark_of (place.now, tree.now))) }
{
    let reference = reference(alloc, &place.dot)?;
    let meta = meta(alloc, &reference, tree)?;
    Ok((place.key.copy(alloc)?, meta))
}

fn least_on(alloc: Global, topic: &Text) -> Result<Place, AllocError>
    ensures { IfOk result (λ p. p ≡ least_on topic.now) }
{
    Ok(Place {
        topic: topic.copy(alloc)?,
        key: Text::new(String::new(alloc)),
        dot: Dot { node: 0, number: 0 },
    })
}

/// The keys and metas of the marks of a topic.
pub fn held_on(alloc: Global, marks: &Marks, topic: &Text) -> Result<Vec<(Text, Json)>, AllocError>
    ensures { IfOk result (λ v. v.items
        ≡ map (λ e. held_of (mark_of e)) (filter (λ e. bytes_eq e.0.topic topic.now) marks.now)) }
{
    let _len = marks.len();
    let least = least_on(alloc, topic)?;
    let mut out = Vec::new(alloc);
    for (place, tree) in marks.entries_from(&least) {
        if !is_on(topic, place) {
            break;
        }
        out.push(held(alloc, place, tree)?)?;
    }
    Ok(out)
}

// The mark of an entry.
fn mark(alloc: Global, place: &Place, tree: &Json) -> Result<Mark, AllocError>
    ensures { IfOk result (λ m. m ≡ mark_of (place.now, tree.now)) }
{
    Ok(Mark {
        dot: place.dot,
        topic: place.topic.copy(alloc)?,
        key: place.key.copy(alloc)?,
        tree: tree.copy(alloc)?,
    })
}

/// All marks.
pub fn marks_in(alloc: Global, marks: &Marks) -> Result<Vec<Mark>, AllocError>
    ensures { IfOk result (λ v. v.items ≡ map mark_of marks.now) }
{
    let mut out = Vec::new(alloc);
    let least = first_place(alloc)?;
    for (place, tree) in marks.entries_from(&least) {
        out.push(mark(alloc, place, tree)?)?;
    }
    Ok(out)
}

// The first of all places that may be.
fn first_place(alloc: Global) -> Result<Place, AllocError>
    ensures { IfOk result (λ p. p ≡ least_on []) }
{
    Ok(Place {
        topic: Text::new(String::new(alloc)),
        key: Text::new(String::new(alloc)),
        dot: Dot { node: 0, number: 0 },
    })
}
