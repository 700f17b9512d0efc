use rt_json::read;
use rt_presence::{Diff, Presence};
use rt_value::Text;
use std::alloc::{AllocError, Global};
use std::io;

/// A channel on a topic.
#[derive(Drop)]
struct Place {
    topic: Text,
    channel: u32,
}

/// What a channel is to show of itself.
#[derive(Clone, Copy)]
struct Shown<'a> {
    key: &'a str,
    reference: u32,
    json: &'a str,
}

/// A text of these characters.
pub fn text(alloc: Global, text: &str) -> Result<Text, AllocError> {
    Ok(Text::new(String::from_str(alloc, text)?))
}

fn number(digits: &str) -> io::Result<u32> {
    match digits.parse::<u32>() {
        Ok(number) => Ok(number),
        Err(_) => Err(io::ErrorKind::InvalidInput.into()),
    }
}

fn place_of(alloc: Global, topic: &str, channel: &str) -> io::Result<Place> {
    let channel = number(channel)?;
    let topic = text(alloc, topic)?;
    Ok(Place { topic, channel })
}

/// What a call changes.
pub fn change(alloc: Global, presence: &mut Presence, call: &str) -> io::Result<Option<Diff>> {
    let words: Vec<&str> = call.splitn(6, ' ').collect(alloc)?;
    match words.as_slice() {
        ["track", topic, channel, key, reference, json] => {
            let reference = number(reference)?;
            let shown = Shown {
                key,
                reference,
                json,
            };
            track(alloc, presence, &place_of(alloc, topic, channel)?, shown)
        }
        ["untrack", topic, channel] => untrack(presence, &place_of(alloc, topic, channel)?),
        ["drop", topic, channel] => depart(presence, &place_of(alloc, topic, channel)?),
        _ => Err(io::ErrorKind::InvalidInput.into()),
    }
}

fn track(
    alloc: Global,
    presence: &mut Presence,
    place: &Place,
    shown: Shown<'_>,
) -> io::Result<Option<Diff>> {
    let key = text(alloc, shown.key)?;
    match read(alloc, shown.json.as_bytes()) {
        Ok(tree) => Ok(Some(presence.track(
            &place.topic,
            place.channel,
            &key,
            shown.reference,
            tree,
        )?)),
        Err(_) => Err(io::ErrorKind::InvalidInput.into()),
    }
}

fn untrack(presence: &mut Presence, place: &Place) -> io::Result<Option<Diff>> {
    Ok(presence.untrack(&place.topic, place.channel)?)
}

fn depart(presence: &mut Presence, place: &Place) -> io::Result<Option<Diff>> {
    Ok(presence.drop_channel(&place.topic, place.channel)?)
}
