//! Times calls on a `Presence`, for each number of tracks among the arguments.
//!
//! Prints two lines for each: the tracks on one topic, and on as many topics as tracks. A line has
//! the tracks, the topics, and the nanoseconds of a `copy`, a `track` in place of another, the same
//! behind a copy, an `untrack`, and a `state`, the best of several rounds.
#![tactic(auto)]

use rt_json::Json;
use rt_presence::Presence;
use rt_value::Text;
use std::alloc::{AllocError, Global};
use std::rt::{Clock, Env};
use std::time::Instant;
use std::{env, io};

const ROUNDS: u32 = 5;

// Over how many calls a mean is taken.
const MEASURED: u32 = 500;

/// A channel's place, and its key.
#[derive(Drop)]
struct Place {
    topic: Text,
    key: Text,
    channel: u32,
}

/// The best nanoseconds of each call.
#[derive(Clone, Copy)]
struct Best {
    copy: u128,
    track: u128,
    behind: u128,
    untrack: u128,
    state: u128,
}

fn place_of(alloc: Global, spread: bool, channel: u32) -> Result<Place, AllocError> {
    let topic = if spread {
        format!(in alloc; "room {channel}")?
    } else {
        String::from_str(alloc, "room")?
    };
    Ok(Place {
        topic: Text::new(topic),
        key: Text::new(format!(in alloc; "key {channel}")?),
        channel,
    })
}

fn track(presence: &mut Presence, place: &Place, reference: u32) -> Result<(), AllocError> {
    presence.track(
        &place.topic,
        place.channel,
        &place.key,
        reference,
        Json::Null,
    )?;
    Ok(())
}

fn filled(alloc: Global, spread: bool, tracks: u32) -> Result<Presence, AllocError> {
    let mut presence = Presence::new(alloc);
    for channel in 0..tracks {
        track(&mut presence, &place_of(alloc, spread, channel)?, channel)?;
    }
    Ok(presence)
}

// Places all over, none of them twice.
fn places(alloc: Global, spread: bool, tracks: u32) -> Result<Vec<Place>, AllocError> {
    let mut all = Vec::new(alloc);
    for number in 0..MEASURED {
        let channel = number.wrapping_mul(7919) % tracks.max(1);
        all.push(place_of(alloc, spread, channel)?)?;
    }
    Ok(all)
}

fn copies<R: Clock>(rt: &R, presence: &Presence) -> io::Result<u128> {
    let start = Instant::now(rt)?;
    for _ in 0..MEASURED {
        let _copy = presence.copy()?;
    }
    Ok(start.elapsed(rt)?.as_nanos() / u128::from(MEASURED))
}

fn tracks<R: Clock>(
    rt: &R,
    presence: &mut Presence,
    places: &[Place],
    behind: bool,
    reference: u32,
) -> io::Result<u128> {
    let mut nanoseconds = 0_u128;
    for place in places {
        let copy = if behind { Some(presence.copy()?) } else { None };
        let start = Instant::now(rt)?;
        track(presence, place, reference)?;
        nanoseconds = nanoseconds.saturating_add(start.elapsed(rt)?.as_nanos());
        drop(copy);
    }
    Ok(nanoseconds / u128::from(MEASURED))
}

fn untracks<R: Clock>(rt: &R, presence: &mut Presence, places: &[Place]) -> io::Result<u128> {
    let start = Instant::now(rt)?;
    for place in places {
        presence.untrack(&place.topic, place.channel)?;
    }
    Ok(start.elapsed(rt)?.as_nanos() / u128::from(MEASURED))
}

fn state<R: Clock>(rt: &R, presence: &Presence, places: &[Place]) -> io::Result<u128> {
    let Some(place) = places.first() else {
        return Ok(0);
    };
    let start = Instant::now(rt)?;
    let _tree = presence.state(&place.topic)?;
    Ok(start.elapsed(rt)?.as_nanos())
}

fn measure<R>(rt: &R, spread: bool, count: u32) -> io::Result<()>
where
    R: Clock + AllocGlobal + Print,
{
    let alloc = rt.alloc();
    let mut presence = filled(alloc, spread, count)?;
    let places = places(alloc, spread, count)?;
    let mut best = Best {
        copy: u128::MAX,
        track: u128::MAX,
        behind: u128::MAX,
        untrack: u128::MAX,
        state: u128::MAX,
    };
    for round in 0..ROUNDS {
        let reference = count.wrapping_add(round);
        best.copy = best.copy.min(copies(rt, &presence)?);
        best.state = best.state.min(state(rt, &presence, &places)?);
        best.track = best
            .track
            .min(tracks(rt, &mut presence, &places, false, reference)?);
        best.behind = best
            .behind
            .min(tracks(rt, &mut presence, &places, true, round)?);
        best.untrack = best.untrack.min(untracks(rt, &mut presence, &places)?);
        for place in &places {
            track(&mut presence, place, round)?;
        }
    }
    let topics = if spread { count } else { 1 };
    let Best {
        copy,
        track,
        behind,
        untrack,
        state,
    } = best;
    println!(rt; "{count} {topics} {copy} {track} {behind} {untrack} {state}")
}

fn main(rt: HostRuntime) -> io::Result<()> {
    for arg in env::args(&rt)?.skip(1) {
        let Ok(tracks) = arg.as_str().parse::<u32>() else {
            return Err(io::Error::from(io::ErrorKind::InvalidInput));
        };
        measure(&rt, false, tracks)?;
        measure(&rt, true, tracks)?;
    }
    Ok(())
}
